// The calls for C and Rust. The caller lends 11,264 bytes that hold the chain's image: a call restores the chain from them, runs, and saves it
// back. Each answers a number of the specification's table, 0 where it passed; a refusal changes nothing that is lent. crates/freightpetal_c_c
// exports them.
#![tactic(auto)]

ghost use Rattle.std.specs.Prelude.{◌≡◌};
ghost use Rattle.refusal.specs.Table.{code_of};
ghost use Rattle.words.specs.Words.{settings_from, layout_from};
ghost use Rattle.freightpetal_c.specs.Lent.{
  open_of,
  fresh_in,
  code_in,
  frame_in,
  changed_in,
  set_in,
  reset_in,
  layout_in,
  restore_in,
};

use chain::Changed;
use layout::Layout;
use refusal::Refusal;
use settings::Settings;

// A fresh chain. Refusal 6.
pub fn freightpetal_fresh(image: &mut [u8]) -> u64
    ensures { record { code = result; bytes = image.new } ≡ fresh_in image.old }
{
    refusal::code(freightpetal::save(freightpetal::new(), image))
}

// The chain whose image is lent. Refusal 6 where the bytes aren't as long as a saved image, then 7, 8. No `Result<Chain, Refusal>`: each `?` would copy
// the chain on the stack.
#[tactic(auto, unfolding(crate::specs::Lent::open_of))]
fn open(image: &[u8]) -> Changed
    ensures { result ≡ open_of image.now }
{
    if image.len() != image::BYTES {
        return Changed {
            chain: freightpetal::new(),
            outcome: Err(Refusal::WrongLength),
        };
    }
    freightpetal::restore(freightpetal::new(), image)
}

// Saves what a settings call, a reset, a layout call or a restore made of a chain. Here and in `frame` the bytes have an image's length, so that the save
// passes.
fn keep(image: &mut [u8], c: Changed) -> Result<(), Refusal>
    ensures { record { code = code_of result; bytes = image.new } ≡ changed_in image.old c }
{
    c.outcome?;
    let _ = freightpetal::save(c.chain, image);
    Ok(())
}

// Whether the bytes are an image. Refusals 6, 7, 8.
pub fn freightpetal_check(image: &[u8]) -> u64
    ensures { result ≡ code_in image.now }
{
    refusal::code(open(image).outcome)
}

fn frame(image: &mut [u8], key: &[f32], bed: &[f32], answer: &mut [u64; 41]) -> Result<(), Refusal>
    ensures { record { code = code_of result; bytes = image.new; words = answer.new }
        ≡ frame_in image.old answer.old key.now bed.now }
{
    let opened = open(image);
    opened.outcome?;
    let f = freightpetal::frame(opened.chain, key, bed);
    let a = f.outcome?;
    let _ = freightpetal::save(f.chain, image);
    *answer = words::answer(a);
    Ok(())
}

// One frame, 480 samples of the key and of each of the bed's channels, one channel after the other; its answer as 41 words. Refusals 6, 7, 8, 1, 2, 4, 5.
pub fn freightpetal_frame(image: &mut [u8], key: &[f32], bed: &[f32], answer: &mut [u64; 41]) -> u64
    ensures { record { code = result; bytes = image.new; words = answer.new }
        ≡ frame_in image.old answer.old key.now bed.now }
{
    refusal::code(frame(image, key, bed, answer))
}

// Here and in the two like it the step stands in the middle: a function that takes it would need what it does as a clause.
fn set(image: &mut [u8], s: Settings) -> Result<(), Refusal>
    ensures { record { code = code_of result; bytes = image.new } ≡ set_in image.old s }
{
    let opened = open(image);
    opened.outcome?;
    keep(image, freightpetal::set(opened.chain, s))
}

// All settings, 12 words in the image's order; the flags, words 7 and 12, are 0 or not. Refusals 6, 7, 8, 3.
pub fn freightpetal_settings(image: &mut [u8], settings: &[u64; 12]) -> u64
    ensures { record { code = result; bytes = image.new } ≡ set_in image.old (settings_from settings.now) }
{
    refusal::code(set(image, words::settings(settings)))
}

fn reset(image: &mut [u8], strand: u64) -> Result<(), Refusal>
    ensures { record { code = code_of result; bytes = image.new } ≡ reset_in image.old strand }
{
    let opened = open(image);
    opened.outcome?;
    keep(image, freightpetal::reset(opened.chain, strand))
}

// The key strand (0) or the bed strand (1) begins anew; the bed keeps its layout. Refusals 6, 7, 8, 9.
pub fn freightpetal_reset(image: &mut [u8], strand: u64) -> u64
    ensures { record { code = result; bytes = image.new } ≡ reset_in image.old strand }
{
    refusal::code(reset(image, strand))
}

fn lay_out(image: &mut [u8], l: Layout) -> Result<(), Refusal>
    ensures { record { code = code_of result; bytes = image.new } ≡ layout_in image.old l }
{
    let opened = open(image);
    opened.outcome?;
    keep(image, freightpetal::layout(opened.chain, l))
}

// The bed's layout: the number of its channels, and eight times azimuth, elevation and LFE flag, of which those in use are read. Refusals 6, 7, 8, 10.
pub fn freightpetal_layout(image: &mut [u8], count: u64, places: &[u64; 24]) -> u64
    ensures { record { code = result; bytes = image.new } ≡ layout_in image.old (layout_from count places.now) }
{
    refusal::code(lay_out(image, words::layout(count, places)))
}

#[tactic(auto, unfolding(crate::specs::Lent::restore_in))]
fn restore(image: &mut [u8], bytes: &[u8]) -> Result<(), Refusal>
    ensures { record { code = code_of result; bytes = image.new } ≡ restore_in image.old bytes.now }
{
    if image.len() != image::BYTES {
        return Err(Refusal::WrongLength);
    }
    keep(image, freightpetal::restore(freightpetal::new(), bytes))
}

// The chain that `bytes` mean, an image of either edition, into the lent image, whatever that holds. Refusals 6, for the length of either, 7, 8.
pub fn freightpetal_restore(image: &mut [u8], bytes: &[u8]) -> u64
    ensures { record { code = result; bytes = image.new } ≡ restore_in image.old bytes.now }
{
    refusal::code(restore(image, bytes))
}
