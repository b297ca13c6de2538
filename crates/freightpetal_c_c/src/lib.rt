// The calls of `freightpetal_c` under C's names: the archive that C and Rust link. Each has the clauses of the function that it calls.
// library/freightpetal.h has the declarations. A crate of its own, since no crate can use a static library, and `promises` uses those functions.
#![tactic(auto)]

ghost use Rattle.std.specs.Prelude.{◌≡◌};
ghost use Rattle.words.specs.Words.{settings_from, layout_from};
ghost use Rattle.freightpetal_c.specs.Lent.{fresh_in, code_in, frame_in, set_in, reset_in, layout_in, restore_in};

// A fresh chain. Refusal 6.
#[unsafe(no_mangle)]
pub extern "C" fn freightpetal_fresh(image: &mut [u8]) -> u64
    ensures { record { code = result; bytes = image.new } ≡ fresh_in image.old }
{
    freightpetal_c::freightpetal_fresh(image)
}

// Whether the bytes are an image. Refusals 6, 7, 8.
#[unsafe(no_mangle)]
pub extern "C" fn freightpetal_check(image: &[u8]) -> u64
    ensures { result ≡ code_in image.now }
{
    freightpetal_c::freightpetal_check(image)
}

// One frame, 480 samples of the key and of each of the bed's channels, one channel after the other; its answer as 41 words. Refusals 6, 7, 8, 1, 2, 4, 5.
#[unsafe(no_mangle)]
pub extern "C" fn freightpetal_frame(
    image: &mut [u8],
    key: &[f32],
    bed: &[f32],
    answer: &mut [u64; 41],
) -> u64
    ensures { record { code = result; bytes = image.new; words = answer.new }
        ≡ frame_in image.old answer.old key.now bed.now }
{
    freightpetal_c::freightpetal_frame(image, key, bed, answer)
}

// All settings, 12 words in the image's order; the flags, words 7 and 12, are 0 or not. Refusals 6, 7, 8, 3.
#[unsafe(no_mangle)]
pub extern "C" fn freightpetal_settings(image: &mut [u8], settings: &[u64; 12]) -> u64
    ensures { record { code = result; bytes = image.new } ≡ set_in image.old (settings_from settings.now) }
{
    freightpetal_c::freightpetal_settings(image, settings)
}

// The key strand (0) or the bed strand (1) begins anew; the bed keeps its layout. Refusals 6, 7, 8, 9.
#[unsafe(no_mangle)]
pub extern "C" fn freightpetal_reset(image: &mut [u8], strand: u64) -> u64
    ensures { record { code = result; bytes = image.new } ≡ reset_in image.old strand }
{
    freightpetal_c::freightpetal_reset(image, strand)
}

// The bed's layout: the number of its channels, and eight times azimuth, elevation and LFE flag, of which those in use are read. Refusals 6, 7, 8, 10.
#[unsafe(no_mangle)]
pub extern "C" fn freightpetal_layout(image: &mut [u8], count: u64, places: &[u64; 24]) -> u64
    ensures { record { code = result; bytes = image.new } ≡ layout_in image.old (layout_from count places.now) }
{
    freightpetal_c::freightpetal_layout(image, count, places)
}

// The chain that `bytes` mean, an image of either edition, into the lent image, whatever that holds. Refusals 6, for the length of either, 7, 8.
#[unsafe(no_mangle)]
pub extern "C" fn freightpetal_restore(image: &mut [u8], bytes: &[u8]) -> u64
    ensures { record { code = result; bytes = image.new } ≡ restore_in image.old bytes.now }
{
    freightpetal_c::freightpetal_restore(image, bytes)
}
