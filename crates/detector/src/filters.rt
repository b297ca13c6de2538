// The detector's filters over the samples of a frame: the speech band, 250 Hz to 4 kHz, and from its output the pitch filter, a low-pass of 1 kHz.
// Every eighth output of the pitch filter is kept for the voicing.
ghost use Rattle.std.specs.Prelude.{◌≡◌, T, length, take, slice_index_or};
ghost use Rattle.std.specs.Float.{nan};
ghost use Rattle.float.specs.AllFinite.{all_finite};
ghost use Rattle.sequence.specs.History.{laid};
ghost use Rattle.detector.specs.Filters.{
  all_at_rest,
  begun,
  states_of,
  step_of,
  run_of,
  outputs_of,
  kept_of,
};
ghost use Rattle.detector.specs.Rest.{same_filters, still_of, quiet_of, Quiet};

use biquad::State;
use level::FRAME;
use sequence::Latest;

// Of how many outputs of the pitch filter one is kept: 48 kHz become 6 kHz.
const DECIMATE: usize = 8;

// The last of eight outputs, which is the one kept.
const LAST: usize = DECIMATE - 1;

// The values that a frame keeps: 60.
pub const KEPT: usize = FRAME / DECIMATE;

// The values that the voicing is computed from: 40 ms at 6 kHz.
pub const PITCH_WINDOW: usize = 240;

// The states of the four sections: two of the speech band, two of the pitch filter.
#[derive(Clone, Copy)]
pub struct Filters {
    pub high_pass: State,
    pub low_pass: State,
    pub pitch1: State,
    pub pitch2: State,
}

// What runs from sample to sample: the sections, the energy of the frame so far, that of its speech band, and the latest output of the pitch
// filter.
#[derive(Clone, Copy)]
pub struct Bands {
    pub filters: Filters,
    pub full: f64,
    pub band: f64,
    pub pitch: f64,
}

impl Filters {
    // All sections at rest.
    pub fn new() -> Self
        ensures { result ≡ all_at_rest }
    {
        Self {
            high_pass: State::new(),
            low_pass: State::new(),
            pitch1: State::new(),
            pitch2: State::new(),
        }
    }

    // Before the first sample of a frame.
    pub fn begin(self) -> Bands
        ensures { result ≡ begun self }
    {
        Bands {
            filters: self,
            full: 0.0,
            band: 0.0,
            pitch: 0.0,
        }
    }

    // Whether every number is finite.
    pub fn all_finite(self) -> bool
        ensures { result ≡ all_finite (states_of self) }
    {
        let a = self.high_pass;
        let b = self.low_pass;
        let p = self.pitch1;
        let q = self.pitch2;
        let numbers = [a.z1, a.z2, b.z1, b.z2, p.z1, p.z2, q.z1, q.z2];
        float::all_finite(&numbers)
    }

    // Whether both are surely the same: every number has the same bits and is no NaN. No `==`, for the reason at `float::same`.
    fn same(self, other: Filters) -> bool
        ensures { (result ≡ same_filters self other) × (T result → self ≡ other) }
    {
        level::same_state(self.high_pass, other.high_pass)
            & level::same_state(self.low_pass, other.low_pass)
            & level::same_state(self.pitch1, other.pitch1)
            & level::same_state(self.pitch2, other.pitch2)
    }
}

impl Bands {
    // One sample through the four sections.
    #[tactic(auto, unfolding(crate::specs::Filters::step_of))]
    pub fn step(self, v: f64) -> Bands
        ensures { result ≡ step_of self v }
    {
        let f = self.filters;
        let a = f.high_pass.tick(biquad::BAND_HIGH_PASS, v);
        let b = f.low_pass.tick(biquad::BAND_LOW_PASS, a.y);
        let p = f.pitch1.tick(biquad::PITCH_1, b.y);
        let q = f.pitch2.tick(biquad::PITCH_2, p.y);
        Bands {
            filters: Filters {
                high_pass: a.state,
                low_pass: b.state,
                pitch1: p.state,
                pitch2: q.state,
            },
            full: self.full + v * v,
            band: self.band + b.y * b.y,
            pitch: q.y,
        }
    }

    // Whether a sample v surely leaves all as it is; never where a number is NaN after it.
    fn still(self, v: f64) -> bool
        ensures { (result ≡ still_of self v) × (T result → step_of self v ≡ self) }
    {
        let n = self.step(v);
        n.filters.same(self.filters)
            & float::same(n.full, self.full)
            & float::same(n.band, self.band)
            & float::same(n.pitch, self.pitch)
    }

    // Whether all samples are surely v and change nothing after the first.
    pub fn quiet(self, v: f64, xs: &[f64]) -> bool
        ensures { (result ≡ quiet_of self v xs.now) × (T result → Quiet self v xs.now) }
    {
        if float::all_same(v, xs) {
            let first = self.step(v);
            return first.still(v);
        }
        false
    }

    // The samples of a frame, and the pitch filter's output for each in `out`. Where nothing changes after the first sample, its step is all.
    pub fn alone(self, xs: &[f64; FRAME], out: &mut [f64; FRAME]) -> Bands
        ensures { (result ≡ run_of self xs.now) × (out.new ≡ outputs_of self xs.now) }
    {
        let v = xs[0];
        if self.quiet(v, xs) {
            let first = self.step(v);
            out.fill(first.pitch);
            return first;
        }
        self.run(xs, out)
    }

    // The samples xs, and the pitch filter's output for each in `out`, as far as both go. By index, here and below: after a loop over `iter_mut().zip`
    // nothing is known of what it wrote.
    pub fn run(mut self, xs: &[f64], out: &mut [f64]) -> Bands
        ensures { (result ≡ run_of self (take (length out.old) xs.now))
            × (out.new ≡ laid (outputs_of self (take (length out.old) xs.now)) out.old) }
    {
        for i in 0..out.len().min(xs.len()) {
            self = self.step(xs[i]);
            out[i] = self.pitch;
        }
        self
    }
}

// The samples xs as f64 in the lent places, as far as both go.
pub fn samples(xs: &[f32], to: &mut [f64])
    ensures { to.new ≡ laid (take (length to.old) xs.now) to.old }
{
    for i in 0..to.len().min(xs.len()) {
        to[i] = f64::from(xs[i]);
    }
}

// Of every eighth output of the pitch filter, as f32, the latest 240.
pub type Decimated = Latest<f32, PITCH_WINDOW>;

// The value at a place, and NaN past the end.
fn output(ys: &[f64], at: usize) -> f64
    ensures { result ≡ slice_index_or ys.now at nan }
{
    ys.get(at).copied().unwrap_or(f64::NAN)
}

// Every eighth output of a frame, the last of each eight, as f32.
pub fn decimate(ys: &[f64]) -> [f32; KEPT]
    ensures { result ≡ kept_of ys.now }
{
    let mut v = [0.0f32; KEPT];
    for (i, y) in v.iter_mut().enumerate() {
        *y = narrow::narrow(output(ys, i * DECIMATE + LAST));
    }
    v
}
