// A strand's loudness by BS.1770, for each frame of 10 ms: momentary (400 ms), short-term (3 s) and fast (50 ms).
// Before 400 ms or 3 s of frames the means are those of the frames that there are.
#![tactic(auto)]

ghost use Rattle.std.specs.Prelude.{◌≡◌, ◌<◌, T, length};
ghost use mathlib.Core.List.{foldl};
ghost use Rattle.sequence.specs.Latest.{push_of};
ghost use Rattle.float.specs.AllFinite.{all_finite};
ghost use Rattle.float.specs.Arithmetic.{◌⊘◌, whole};
ghost use Rattle.biquad.specs.Tick.{tick_of};
ghost use Rattle.level.specs.Rest.{same_state, holds_of, rests_of, shelf_output, held_step, held_run, still_step};
ghost use Rattle.level.specs.Weighing.{clean_of, step_of, run_of};
ghost use Rattle.level.specs.Level.{
  no_channel,
  joined_of,
  sum_of,
  means_of,
  lufs_of,
  read_of,
  start_of,
  stored_of,
  finish_of,
  fresh_of,
  frame_of,
};

use biquad::{Coefficients, K_HIGH_PASS, K_SHELF, State};
use float::{Lufs, SILENCE_LUFS};
use sequence::Latest;

// Samples of a frame: 10 ms at 48 kHz.
pub const FRAME: usize = 480;

// Frames of the momentary loudness: 400 ms.
const MOMENTARY: usize = 40;

// Frames of the short-term loudness: 3 s.
const SHORT_TERM: usize = 300;

// The powers of the latest frames, oldest first; the places after them are 0.
pub type Powers = Latest<f64, SHORT_TERM>;

// The share of the fast mean square that stays with each sample: exp(-1 / 2400), a time constant of 50 ms.
const FAST_COEFF: f64 = 0.9995833639986813;

// The weight of the one channel.
const WEIGHT: f64 = 1.0;

// BS.1770's constant before the logarithm, LUFS.
const OFFSET: f64 = -0.691;

// One channel, from sample to sample: its filters, the fast mean square, and the energy of the frame so far.
#[derive(Clone, Copy)]
pub struct Weighing {
    pub shelf: State,
    pub high_pass: State,
    pub fast: f64,
    pub energy: f64,
}

// The sums over the channels, each times its weight: the frame's power, and the fast mean square.
#[derive(Clone, Copy)]
pub struct Joint {
    pub power: f64,
    pub fast: f64,
}

// The mean powers of 400 ms and of 3 s, or of all frames where there are fewer.
#[derive(Clone, Copy)]
pub struct Means {
    pub momentary: f64,
    pub short_term: f64,
}

// What one frame reads.
#[derive(Clone, Copy)]
pub struct Reading {
    pub power: f64, // the frame's weighted mean square
    pub momentary: Lufs,
    pub short_term: Lufs,
    pub fast: Lufs,
}

// The powers with this frame's, what they read, and whether every number that is stored, answered or handed to the logarithm is finite. A flag beside
// the values, here and below: they are promised whatever it says, since the numbers of both strands are tested together.
#[derive(Clone, Copy)]
pub struct Read {
    pub powers: Powers,
    pub reading: Reading,
    pub finite: bool,
}

// A strand's level: one channel.
#[derive(Clone, Copy)]
pub struct Level {
    pub shelf: State,
    pub high_pass: State,
    pub fast: f64,
    pub powers: Powers,
}

// The level after a frame, what it reads, and whether every number that is stored, answered or handed to the logarithm is finite.
#[derive(Clone, Copy)]
pub struct Framed {
    pub level: Level,
    pub reading: Reading,
    pub finite: bool,
}

// Whether two states are surely the same: their numbers have the same bits, and none is NaN. No `==`, for the reason at `float::same`.
#[tactic(auto, unfolding(crate::specs::Rest::same_state))]
pub fn same_state(s: State, t: State) -> bool
    ensures { (result ≡ same_state s t) × (T result → s ≡ t) }
{
    float::same(s.z1, t.z1) & float::same(s.z2, t.z2)
}

// Whether a sample x surely leaves a section's state as it is; never where the state after it has a NaN. In silence the numbers shrink until
// rounding leaves them as they are.
pub fn holds(s: State, c: Coefficients, x: f64) -> bool
    ensures { (result ≡ holds_of s c x) × (T result → (tick_of s c x).state ≡ s) }
{
    same_state(s.tick(c, x).state, s)
}

// A sample as it is heard: 0 in place of one that isn't finite.
pub fn clean(v: f32) -> f64
    ensures { result ≡ clean_of v }
{
    // `as` needs no test for NaN when it runs, which `f64::from` makes.
    if float::finite(v) { v as f64 } else { 0.0 }
}

impl Weighing {
    // One sample through the shelf and the high-pass.
    #[tactic(auto, unfolding(crate::specs::Weighing::step_of, crate::specs::Rest::held_step))]
    pub fn step(self, x: f64) -> Weighing
        ensures { result ≡ step_of self x }
    {
        let a = self.shelf.tick(K_SHELF, x);
        Weighing {
            shelf: a.state,
            ..self.held_step(a.y)
        }
    }

    // One sample for which the shelf's output is v and its state stays.
    #[tactic(auto, unfolding(crate::specs::Rest::held_step))]
    pub fn held_step(self, v: f64) -> Weighing
        ensures { result ≡ held_step v self }
    {
        let b = self.high_pass.tick(K_HIGH_PASS, v);
        Weighing {
            high_pass: b.state,
            ..self.still_step(b.y * b.y)
        }
    }

    // One sample for which both sections' states stay and y2 is the square of the high-pass's output.
    pub fn still_step(self, y2: f64) -> Weighing
        ensures { result ≡ still_step y2 self }
    {
        Weighing {
            fast: self.fast * FAST_COEFF + y2 * (1.0 - FAST_COEFF),
            energy: self.energy + y2,
            ..self
        }
    }

    // The shelf's output for a sample x.
    pub fn shelf_output(self, x: f64) -> f64
        ensures { result ≡ shelf_output self x }
    {
        self.shelf.tick(K_SHELF, x).y
    }

    // Whether all samples are surely x and leave the shelf's state as it is. Then the shelf need not be run.
    #[tactic(auto, unfolding(crate::specs::Rest::rests_of), using(crate::proofs::Silence::held_alike))]
    pub fn rests(self, x: f64, xs: &[f64]) -> bool
        ensures { (result ≡ rests_of self x xs.now)
            × (T result → held_run (shelf_output self x) self xs.now ≡ foldl step_of self xs.now) }
    {
        float::all_same(x, xs) && holds(self.shelf, K_SHELF, x)
    }

    // All samples of a frame.
    #[tactic(auto, unfolding(crate::specs::Weighing::run_of))]
    pub fn run(mut self, xs: &[f32]) -> Weighing
        ensures { result ≡ run_of self xs.now }
    {
        for x in xs {
            self = self.step(clean(*x));
        }
        self
    }

    // Whether the numbers that a channel stores are finite.
    pub fn stored_finite(self) -> bool
        ensures { result ≡ all_finite (stored_of self) }
    {
        let stored = [
            self.shelf.z1,
            self.shelf.z2,
            self.high_pass.z1,
            self.high_pass.z2,
            self.fast,
        ];
        float::all_finite(&stored)
    }
}

impl Joint {
    // The sums over no channel.
    pub fn new() -> Self
        ensures { result ≡ no_channel }
    {
        Self {
            power: 0.0,
            fast: 0.0,
        }
    }

    // One channel more: its weight, and what its frame of n samples came to.
    #[tactic(auto, unfolding(crate::specs::Level::joined_of))]
    pub fn join(self, weight: f64, w: Weighing, n: usize) -> Joint
        ensures { result ≡ joined_of self weight w n }
    {
        let samples = std::num::nearest_usize_to_f64(n.max(1));
        Joint {
            power: self.power + weight * w.energy / samples,
            fast: self.fast + weight * w.fast,
        }
    }

    // What follows the filters: the power is stored, and all is read.
    #[tactic(auto, using(crate::proofs::Sum::some_frame), unfolding(crate::specs::Level::read_of))]
    pub fn read(self, powers: Powers) -> Read
        ensures { result ≡ read_of self powers }
    {
        let next = powers.push(self.power);
        let means = Means::of(&next);
        let momentary = lufs(means.momentary);
        let short_term = lufs(means.short_term);
        let fast = lufs(self.fast);
        let numbers = [
            self.power,
            float::max(0.0, means.momentary),
            float::max(0.0, means.short_term),
            float::max(0.0, self.fast),
            momentary.0,
            short_term.0,
            fast.0,
        ];
        let finite = float::all_finite(&numbers);
        Read {
            powers: next,
            reading: Reading {
                power: self.power,
                momentary,
                short_term,
                fast,
            },
            finite,
        }
    }
}

// The sum, and to it at most n of the values, newest first.
pub fn sum_newest(from: f64, xs: &[f64], n: usize) -> f64
    ensures { result ≡ sum_of from n xs.now }
{
    let latest = &xs[xs.len().saturating_sub(n)..];
    latest.iter().rev().fold(from, |sum, x| sum + *x)
}

// The mean of n frames whose powers come to sum; there is at least one.
fn mean(sum: f64, n: usize) -> f64
    requires { 0 < n }
    ensures { result ≡ sum ⊘ whole n }
{
    sum / std::num::nearest_usize_to_f64(n)
}

// LUFS of a weighted mean square, at the silence floor for none.
#[tactic(auto, unfolding(crate::specs::Level::lufs_of, crate::specs::Bs1770::loudness))]
pub fn lufs(power: f64) -> Lufs
    ensures { result ≡ lufs_of power }
{
    if 0.0 < power {
        Lufs(float::max(OFFSET + 10.0 * logarithm::log10(power), SILENCE_LUFS))
    } else {
        Lufs(SILENCE_LUFS)
    }
}

impl Means {
    // Of the newest 40 and 300 frames, or of all that are held; there is at least one. The sum over 40, newest first, is the beginning of that
    // over 300.
    fn of(powers: &Powers) -> Self
        requires { 0 < powers.now.count }
        ensures { result ≡ means_of powers.now }
    {
        let held = powers.held();
        let recent = held.len().min(MOMENTARY);
        let momentary = sum_newest(0.0, held, MOMENTARY);
        let before = &held[..held.len() - recent];
        let short_term = sum_newest(momentary, before, SHORT_TERM - MOMENTARY);
        Self {
            momentary: mean(momentary, recent),
            short_term: mean(short_term, held.len()),
        }
    }
}

impl Level {
    // A level that has heard nothing.
    pub fn new() -> Self
        ensures { result ≡ fresh_of }
    {
        Self {
            shelf: State::new(),
            high_pass: State::new(),
            fast: 0.0,
            powers: Powers::new(0.0),
        }
    }

    // The filters as a frame begins.
    #[tactic(auto, unfolding(crate::specs::Level::start_of))]
    pub fn start(self) -> Weighing
        ensures { result ≡ start_of self }
    {
        Weighing {
            shelf: self.shelf,
            high_pass: self.high_pass,
            fast: self.fast,
            energy: 0.0,
        }
    }

    // One frame: the filters over its samples, then what follows them.
    #[tactic(auto, unfolding(crate::specs::Level::frame_of))]
    pub fn frame(self, xs: &[f32]) -> Framed
        ensures { result ≡ frame_of self xs.now }
    {
        finish(self.start().run(xs), self.powers, xs.len())
    }
}

// What follows the filters over a frame of n samples.
#[tactic(auto, unfolding(crate::specs::Level::finish_of))]
pub fn finish(w: Weighing, powers: Powers, n: usize) -> Framed
    ensures { result ≡ finish_of w powers n }
{
    let read = Joint::new().join(WEIGHT, w, n).read(powers);
    Framed {
        level: Level {
            shelf: w.shelf,
            high_pass: w.high_pass,
            fast: w.fast,
            powers: read.powers,
        },
        reading: read.reading,
        finite: w.stored_finite() & read.finite,
    }
}
