// The customer's calls on a chain: a frame, a settings call, a reset, a layout call, a save, a restore. Each is total: it gets an answer or one refusal.
// A contract says the call's result by its definition, and that the result is what the port of the demands does.
#![tactic(auto)]

ghost use Rattle.std.specs.Prelude.{◌≡◌};
ghost use Rattle.demands.specs.Calls.{event, save, restore};
ghost use Rattle.chain.specs.Chain.{fresh_of, frame_of, set_of, reset_of, layout_of};
ghost use Rattle.rules.specs.Rules.{Asked, frame, settings, reset, layout, after_frame, after_change};
ghost use Rattle.image.specs.Image.{save_verdict, saved_in, restore_of};
ghost use Rattle.image.specs.Port.{port};
ghost use Rattle.freightpetal.specs.Steps.{after_save, after_restore};

use chain::{Chain, Changed, Framed};
use layout::Layout;
use refusal::Refusal;
use settings::Settings;

// A fresh chain.
pub fn new() -> Chain
    ensures { result ≡ fresh_of }
{
    Chain::new()
}

// One frame, 480 samples of the key and of each of the bed's channels, one channel after the other. Refusals 1, 2, 4, 5.
// It stays a function of its own in the machine code: a call on an image has read that before the frame takes its stack (library/freightpetal.h).
#[inline(never)]
pub fn frame(c: Chain, key: &[f32], bed: &[f32]) -> Framed
    ensures { (result ≡ frame_of c key.now bed.now) × (after_frame result ≡ port c (event (frame key.now bed.now))) }
{
    c.frame(key, bed)
}

// All settings are replaced. Refusal 3.
pub fn set(c: Chain, s: Settings) -> Changed
    ensures { (result ≡ set_of c s) × ((a : Asked) × (a.values ≡ s) × (after_change result ≡ port c (event (settings a)))) }
{
    c.set(s)
}

// The key strand (0) or the bed strand (1) begins anew; the bed keeps its layout. Refusal 9.
pub fn reset(c: Chain, strand: u64) -> Changed
    ensures { (result ≡ reset_of c strand) × (after_change result ≡ port c (event (reset strand))) }
{
    c.reset(strand)
}

// The bed's layout is replaced, and its level begins anew. Refusal 10.
pub fn layout(c: Chain, l: Layout) -> Changed
    ensures { (result ≡ layout_of c l) × (after_change result ≡ port c (event (layout l))) }
{
    c.layout(l)
}

// The chain's image, into 11,264 lent bytes. Refusal 6.
pub fn save(c: Chain, lent: &mut [u8]) -> Result<(), Refusal>
    ensures { (result ≡ save_verdict lent.old) × (lent.new ≡ saved_in c lent.old) × (after_save c result lent.new ≡ port c (save lent.old)) }
{
    image::save(c, lent)
}

// The chain that the bytes mean, an image of either edition; or the chain as it was. Refusals 6, 7, 8.
pub fn restore(c: Chain, bytes: &[u8]) -> Changed
    ensures { (result ≡ restore_of c bytes.now) × (after_restore result bytes.now ≡ port c (restore bytes.now)) }
{
    image::restore(c, bytes)
}
