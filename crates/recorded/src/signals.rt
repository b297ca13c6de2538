// Deterministic signals by whole-number arithmetic: the same as compare/src/signals.rs makes.
// Each function says its bound, since the sums in `voice` and `value` need it: a type for a bounded number would be taken apart at each.
// Sample n of a signal is (v - 32768) * scale, v = `value(kind, seed, n)` from 0 to 65536.
ghost use Rattle.std.specs.Prelude.{◌≡◌, ◌<◌, ◌≤◌};
ghost use Rattle.recorded.specs.Signals.{scrambled, noise_of, syllable_of, voice_of, sine_of, square_of, sawtooth_of, impulse_of, burst_of, value_of};

use super::kind::Kind;
use super::seed::Seed;

const MIDDLE: u64 = 32768;

const TWO_31: u64 = 2147483648;

// 1 kHz at 48 kHz: 32768 + 32767 sin(2 pi k / 48), rounded.
const SINE: [u16; 48] = [
    32768, 37045, 41249, 45307, 49151, 52715, 55938, 58764, 61145, 63041, 64418, 65255, 65535,
    65255, 64418, 63041, 61145, 58764, 55938, 52715, 49151, 45307, 41249, 37045, 32768, 28491,
    24287, 20229, 16385, 12821, 9598, 6772, 4391, 2495, 1118, 281, 1, 281, 1118, 2495, 4391, 6772,
    9598, 12821, 16385, 20229, 24287, 28491,
];

// One linear step modulo 2^31, squared; the middle 31 bits of the square.
#[tactic(auto, unfolding(crate::specs::Signals::scrambled))]
fn scramble(x: u64) -> u64
    ensures { (result ≡ scrambled x) × (result < 2147483648) }
{
    let y = (x % TWO_31 * 1103515245 + 12345) % TWO_31;
    y * y / 32768 % TWO_31
}

// 0 to 65,535.
#[tactic(auto, unfolding(crate::specs::Signals::noise_of))]
fn noise(seed: Seed, n: u64) -> u64
    ensures { (result ≡ noise_of seed.value n) × (result < 65536) }
{
    scramble(scramble(n) + seed.value * 7919) / 32768
}

// The syllables' loudness, 0 to 6,000: a triangle at 4 Hz for 2 s, 0 for 1 s.
#[tactic(auto, unfolding(crate::specs::Signals::syllable_of))]
fn syllable(n: u64) -> u64
    ensures { (result ≡ syllable_of n) × (result ≤ 6000) }
{
    let at = n % 12000;
    if n % 144000 >= 96000 {
        0
    } else if at < 6000 {
        at
    } else {
        12000 - at
    }
}

// The sawtooth in syllables, around 32,768, which is silence. Promised: 17,768 to 62,768.
#[tactic(auto, unfolding(crate::specs::Signals::voice_of))]
fn voice(seed: Seed, n: u64) -> u64
    ensures { (result ≡ voice_of seed.value n) × (17768 ≤ result) × (result ≤ 62768) }
{
    let loud = syllable(n);
    let period = seed.value;
    MIDDLE + n % period * loud * 5 / period - loud * 5 / 2
}

#[tactic(auto, unfolding(crate::specs::Signals::sine_of, crate::specs::Signals::sines))]
fn sine(seed: Seed, n: u64) -> u64
    ensures { (result ≡ sine_of seed.value n) × (result ≤ 65536) }
{
    u64::from(SINE[(n % 48 * seed.value % 48) as usize])
}

#[tactic(auto, unfolding(crate::specs::Signals::square_of))]
fn square(seed: Seed, n: u64) -> u64
    ensures { (result ≡ square_of seed.value n) × (result ≤ 65536) }
{
    if n % seed.value < seed.value / 2 {
        65536
    } else {
        0
    }
}

#[tactic(auto, unfolding(crate::specs::Signals::sawtooth_of))]
fn sawtooth(seed: Seed, n: u64) -> u64
    ensures { (result ≡ sawtooth_of seed.value n) × (result ≤ 65536) }
{
    n % seed.value * 65535 / seed.value
}

#[tactic(auto, unfolding(crate::specs::Signals::impulse_of))]
fn impulse(seed: Seed, n: u64) -> u64
    ensures { (result ≡ impulse_of seed.value n) × (result ≤ 65536) }
{
    if n % seed.value == 0 { 65536 } else { MIDDLE }
}

#[tactic(auto, unfolding(crate::specs::Signals::burst_of))]
fn burst(seed: Seed, n: u64) -> u64
    ensures { (result ≡ burst_of seed.value n) × (result ≤ 65536) }
{
    if n % 12000 < 4800 {
        noise(seed, n)
    } else {
        MIDDLE
    }
}

// v of sample n, 0 to 65,536.
pub fn value(kind: Kind, seed: Seed, n: u64) -> u64
    ensures { (result ≡ value_of kind seed.value n) × (result ≤ 65536) }
{
    match kind {
        Kind::Silence => MIDDLE,
        Kind::Constant => MIDDLE + 1,
        Kind::Tone => sine(seed, n),
        Kind::Square => square(seed, n),
        Kind::Sawtooth => sawtooth(seed, n),
        Kind::Noise => noise(seed, n),
        Kind::Speech => voice(seed, n),
        Kind::NoisySpeech => voice(seed, n) + noise(seed, n) / 256 - 128,
        Kind::Impulses => impulse(seed, n),
        Kind::Bursts => burst(seed, n),
    }
}
