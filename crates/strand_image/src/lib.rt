// The 628 words of a strand in an image: written, and read back. Words that break a rule are read as some good strand, whose
// words differ from those read.
#![tactic(auto)]

ghost use Rattle.std.specs.Prelude.{◌≡◌, suc, ◌+◌, ◌^◌, ◌≤◌};
ghost use Rattle.codec.specs.Run.{Run};
ghost use Rattle.strand_image.specs.Strand.{
  state,
  filters,
  latest,
  window,
  floor,
  counts,
  decision,
  front,
  strand,
};

use biquad::State;
use codec::Coded;
use detector::{FeatureDetector, Filters, Floor};
use level::Level;
use sequence::Latest;
use vad::{Decision, Strand};

// Where the parts of a strand begin; the shelf is the first.
const HIGH_PASS: usize = 4;

const FILTERS: usize = 8;

const FAST: usize = 24;

const POWERS: usize = 25;

const DECIMATED: usize = 326;

const FLOOR: usize = 567;

const HISTORY: usize = 580;

const DECISION: usize = 621;

const WINDOW: u64 = 25; // frames: a window closes with the 25th

const COUNTS: u64 = 0x1_0000_0000; // onsets and offsets are below it

const HOLD: u64 = 6001; // frames: a hold is below it

// The open window of the noise floor: its minimum and its frames. No Option, for the reason at `detector::Floor`.
#[derive(Clone, Copy)]
struct Window {
    least: f64,
    frames: usize,
}

// The part of a decision that a rule joins: onsets minus offsets equals active.
#[derive(Clone, Copy)]
struct Counts {
    active: bool,
    probability: f64,
    onsets: u64,
    offsets: u64,
}

// ---- writing, from place `at` on
//
// Each function says how far its words reach, so that their places fit a usize: a type for a place, or the slice from it on, would need the
// same bound at each sum. A function for each type and no trait: nothing here is generic over these types, as rows are in `surround_image`. What is widened
// by `as` fits: with `From` the proof has a call more at each.

fn put_state(w: &mut [u64], at: usize, s: State)
    requires { at + 4 ≤ 2 ^ 64 }
    ensures { Run w.old at 4 (state.enc s) w.new }
{
    codec::put(w, at, s.z1);
    codec::put(w, at + 1, s.z2);
    codec::put_zeros(w, at + 2, 2);
}

// The words of a filter, from place `at` on; what has no place in w is dropped. A u32, here and at `get_filter`, so that nothing is asked of a caller.
pub fn put_filter(w: &mut [u64], at: u32, s: State)
    ensures { Run w.old at 4 (state.enc s) w.new }
{
    put_state(w, at as usize, s);
}

fn put_filters(w: &mut [u64], at: usize, f: Filters)
    requires { at + 16 ≤ 2 ^ 64 }
    ensures { Run w.old at 16 (filters.enc f) w.new }
{
    put_state(w, at, f.high_pass);
    put_state(w, at + 4, f.low_pass);
    put_state(w, at + 8, f.pitch1);
    put_state(w, at + 12, f.pitch2);
}

fn put_latest<T: Coded, const N: usize>(w: &mut [u64], at: usize, p: Latest<T, N>)
    ensures { Run w.old at (suc N) ((latest T.cell N).enc p) w.new }
{
    codec::put_list(w, at, p.count, &p.list);
}

fn put_floor(w: &mut [u64], at: usize, f: Floor)
    requires { at + 13 ≤ 2 ^ 64 }
    ensures { Run w.old at 13 (floor.enc f) w.new }
{
    codec::put_option(w, at, f.smoothed);
    codec::put(w, at + 2, f.window_min);
    codec::put(w, at + 3, f.window_frames as u64);
    put_latest(w, at + 4, f.minima);
}

fn put_decision(w: &mut [u64], at: usize, d: Decision)
    requires { at + 7 ≤ 2 ^ 64 }
    ensures { Run w.old at 7 (decision.enc d) w.new }
{
    codec::put(w, at, d.active);
    codec::put(w, at + 1, d.probability);
    codec::put(w, at + 2, d.onsets);
    codec::put(w, at + 3, d.offsets);
    codec::put(w, at + 4, d.hold as u64);
    codec::put_option(w, at + 5, d.power);
}

// The six filters, the fast mean square and the powers.
fn put_front(w: &mut [u64], at: usize, l: Level, f: Filters)
    requires { at + 326 ≤ 2 ^ 64 }
    ensures { Run w.old at 326 (front.enc (l, f)) w.new }
{
    put_state(w, at, l.shelf);
    put_state(w, at + HIGH_PASS, l.high_pass);
    put_filters(w, at + FILTERS, f);
    codec::put(w, at + FAST, l.fast);
    put_latest(w, at + POWERS, l.powers);
}

// The words of a strand, from place `at` on; what has no place in w is dropped. A u16, here and at `get_strand`, for the reason at `put_filter`.
pub fn put_strand(w: &mut [u64], at: u16, s: Strand)
    ensures { Run w.old at 628 (strand.enc s) w.new }
{
    let i = at as usize;
    put_front(w, i, s.level, s.detector.filters);
    put_latest(w, i + DECIMATED, s.detector.decimated);
    put_floor(w, i + FLOOR, s.detector.floor);
    put_latest(w, i + HISTORY, s.detector.history);
    put_decision(w, i + DECISION, s.decision);
}

// ---- reading, from place `at` on

fn get_state(w: &[u64], at: usize) -> State
    requires { at + 4 ≤ 2 ^ 64 }
    ensures { result ≡ state.dec w.now at }
{
    let z1 = codec::get(w, at);
    let z2 = codec::get(w, at + 1);
    State { z1, z2 }
}

// The filter that the words from place `at` on are read as; a word that isn't there counts as 0.
pub fn get_filter(w: &[u64], at: u32) -> State
    ensures { result ≡ state.dec w.now at }
{
    get_state(w, at as usize)
}

fn get_filters(w: &[u64], at: usize) -> Filters
    requires { at + 16 ≤ 2 ^ 64 }
    ensures { result ≡ filters.dec w.now at }
{
    let high_pass = get_state(w, at);
    let low_pass = get_state(w, at + 4);
    let pitch1 = get_state(w, at + 8);
    let pitch2 = get_state(w, at + 12);
    Filters {
        high_pass,
        low_pass,
        pitch1,
        pitch2,
    }
}

fn get_latest<T: Coded, const N: usize>(w: &[u64], at: usize) -> Latest<T, N>
    ensures { result ≡ (latest T.cell N).dec w.now at }
{
    let mut list = [T::blank(); N];
    let count = codec::get_list(w, at, &mut list);
    Latest { count, list }
}

// The window; one that is empty and has a minimum is read as one that has none.
fn get_window(w: &[u64], at: usize) -> Window
    requires { at + 2 ≤ 2 ^ 64 }
    ensures { result ≡ window.dec w.now at }
{
    let least: f64 = codec::get(w, at);
    let frames = codec::get_capped(w, at + 1, WINDOW) as usize;
    if frames == 0 {
        if float::to_bits(least) != 0 {
            return Window {
                least: 0.0,
                frames: 0,
            };
        }
    }
    Window { least, frames }
}

fn get_floor(w: &[u64], at: usize) -> Floor
    requires { at + 13 ≤ 2 ^ 64 }
    ensures { result ≡ floor.dec w.now at }
{
    let smoothed = codec::get_option(w, at);
    let window = get_window(w, at + 2);
    let minima = get_latest(w, at + 4);
    Floor {
        smoothed,
        window_min: window.least,
        window_frames: window.frames,
        minima,
    }
}

// The counts; those that break their rule are read as none.
fn get_counts(w: &[u64], at: usize) -> Counts
    requires { at + 4 ≤ 2 ^ 64 }
    ensures { result ≡ counts.dec w.now at }
{
    let active: bool = codec::get(w, at);
    let probability = codec::get(w, at + 1);
    let onsets = codec::get_capped(w, at + 2, COUNTS);
    let offsets = codec::get_capped(w, at + 3, COUNTS);
    if onsets == offsets + u64::from(active) {
        return Counts {
            active,
            probability,
            onsets,
            offsets,
        };
    }
    Counts {
        active: false,
        probability: 0.0,
        onsets: 0,
        offsets: 0,
    }
}

fn get_decision(w: &[u64], at: usize) -> Decision
    requires { at + 7 ≤ 2 ^ 64 }
    ensures { result ≡ decision.dec w.now at }
{
    let counts = get_counts(w, at);
    let hold = codec::get_capped(w, at + 4, HOLD) as u32;
    let power = codec::get_option(w, at + 5);
    Decision {
        active: counts.active,
        probability: counts.probability,
        onsets: counts.onsets,
        offsets: counts.offsets,
        hold,
        power,
    }
}

// The strand that the words from place `at` on are read as; a word that isn't there counts as 0.
pub fn get_strand(w: &[u64], at: u16) -> Strand
    ensures { result ≡ strand.dec w.now at }
{
    let i = at as usize;
    let shelf = get_state(w, i);
    let high_pass = get_state(w, i + HIGH_PASS);
    let filters = get_filters(w, i + FILTERS);
    let fast = codec::get(w, i + FAST);
    let powers = get_latest(w, i + POWERS);
    let decimated = get_latest(w, i + DECIMATED);
    let floor = get_floor(w, i + FLOOR);
    let history = get_latest(w, i + HISTORY);
    let decision = get_decision(w, i + DECISION);
    Strand {
        level: Level {
            shelf,
            high_pass,
            fast,
            powers,
        },
        detector: FeatureDetector {
            filters,
            decimated,
            floor,
            history,
        },
        decision,
    }
}
