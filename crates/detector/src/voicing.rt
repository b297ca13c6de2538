// The voicing: the largest and the smallest normalised autocorrelation of the kept values for the lags of a pitch period.
ghost use Rattle.std.specs.Prelude.{◌≡◌, ℕ, ◌+◌, ◌<◌, ◌≤◌, length, drop, slice_index_or, flat_map};
ghost use Rattle.std.specs.Float.{nan};
ghost use Rattle.sequence.specs.History.{held};
ghost use Rattle.detector.specs.Voicing.{
  energy_from,
  products_from,
  correlation_of,
  energies_at,
  turn_of,
  lags_of,
  uneven_of,
  window_of,
  voicing_of,
};
ghost use Rattle.detector.specs.EightLags.{none_summed, Left, eight_of};

use super::filters::{Decimated, PITCH_WINDOW};

// The periods of 400 Hz and of 80 Hz, in values at 6 kHz.
const LAG_MIN: usize = 15;

const LAG_MAX: usize = 75;

// The lags whose correlations are computed: eight times eight, of which the first 61 are used.
const EIGHTS: usize = 8;

// Half a window, whose energy is compared with the other half's.
const HALF: usize = PITCH_WINDOW / 2;

// A window without its last values, as many as the least lag has.
const HEAD: usize = PITCH_WINDOW - LAG_MIN;

// An energy or a root below this counts as none.
const TINY: f64 = 1e-12;

// The least ratio of the halves' energies: 10 dB.
const EVEN: f64 = 0.1;

// At a lag: the energies of the window without its last values (head) and without its first (tail), as many as the lag has; the largest and the
// smallest normalised autocorrelation so far; and whether every number that went to the root was finite. The flag stands beside the values, here and
// below, since refusal 4 tests it with the numbers of both strands.
#[derive(Clone, Copy)]
pub struct Ends {
    pub head: f64,
    pub tail: f64,
    pub best: f64,
    pub worst: f64,
    pub finite: bool,
}

// The largest and the smallest normalised autocorrelation, and whether every number that went to the root was finite.
#[derive(Clone, Copy)]
pub struct Voicing {
    pub voiced: f64,
    pub anti: f64,
    pub finite: bool,
}

// What is read where nothing can be periodic.
const SILENT: Voicing = Voicing {
    voiced: 0.0,
    anti: 0.0,
    finite: true,
};

// The sum, and to it the squares of the values.
#[tactic(auto, unfolding(crate::specs::Voicing::energy_from))]
fn energy(from: f64, xs: &[f64]) -> f64
    ensures { result ≡ energy_from from xs.now }
{
    xs.iter().fold(from, |sum, v| sum + *v * *v)
}

// The sum, and to it the products of two lists, as far as both go.
#[tactic(auto, unfolding(crate::specs::Voicing::products_from))]
fn products(sum: f64, xs: &[f64], ys: &[f64]) -> f64
    ensures { result ≡ products_from sum xs.now ys.now }
{
    xs.iter().zip(ys).fold(sum, |sum, (x, y)| sum + *x * *y)
}

// The sums of eight lags, each a number of its own: of such sums the processor computes two at once, and of an array's one by one.
#[derive(Clone, Copy)]
struct Eight {
    s0: f64,
    s1: f64,
    s2: f64,
    s3: f64,
    s4: f64,
    s5: f64,
    s6: f64,
    s7: f64,
}

impl Eight {
    // No product yet.
    fn new() -> Self
        ensures { result ≡ none_summed }
    {
        Self {
            s0: 0.0,
            s1: 0.0,
            s2: 0.0,
            s3: 0.0,
            s4: 0.0,
            s5: 0.0,
            s6: 0.0,
            s7: 0.0,
        }
    }

    // The products of x[i] more, for the lags lag to lag + 7.
    fn more(self, x: &[f64], i: usize, lag: usize) -> Eight
        requires { i + lag + 7 < length x.now }
        ensures { Left x.now lag i self → Left x.now lag (i + 1) result }
    {
        let a = x[i];
        let j = i + lag;
        let b0 = x[j];
        let b1 = x[j + 1];
        let b2 = x[j + 2];
        let b3 = x[j + 3];
        let b4 = x[j + 4];
        let b5 = x[j + 5];
        let b6 = x[j + 6];
        let b7 = x[j + 7];
        Eight {
            s0: self.s0 + a * b0,
            s1: self.s1 + a * b1,
            s2: self.s2 + a * b2,
            s3: self.s3 + a * b3,
            s4: self.s4 + a * b4,
            s5: self.s5 + a * b5,
            s6: self.s6 + a * b6,
            s7: self.s7 + a * b7,
        }
    }

    // The sums, in order, with the products of x[i] and on that only the shorter lags have, one lag after the other.
    fn rest(self, x: &[f64], i: usize, lag: usize) -> [f64; 8]
        requires { i + lag + 7 ≡ length x.now }
        ensures { Left x.now lag i self → result ≡ eight_of x.now lag }
    {
        let ahead = &x[i..];
        [
            products(self.s0, ahead, &x[i + lag..]),
            products(self.s1, ahead, &x[i + lag + 1..]),
            products(self.s2, ahead, &x[i + lag + 2..]),
            products(self.s3, ahead, &x[i + lag + 3..]),
            products(self.s4, ahead, &x[i + lag + 4..]),
            products(self.s5, ahead, &x[i + lag + 5..]),
            products(self.s6, ahead, &x[i + lag + 6..]),
            self.s7,
        ]
    }
}

// The correlations for the lags lag to lag + 7 in one loop, of which the processor computes two at once. The loop goes as far as the longest lag
// does, by index: of x it reads place i and the eight from i + lag on.
fn eight_lags(x: &[f64], lag: usize) -> [f64; 8]
    requires { lag + 7 ≤ length x.now }
    ensures { result ≡ eight_of x.now lag }
{
    let n = x.len() - lag - 7;
    let mut e = Eight::new();
    for i in 0..n {
        e = e.more(x, i, lag);
    }
    e.rest(x, n, lag)
}

// The correlations for the lags 15 to 78, in eights; those to 75 are used.
fn correlations(x: &[f64; PITCH_WINDOW]) -> [[f64; 8]; EIGHTS]
    ensures { (k : ℕ) → k < 64 → slice_index_or (flat_map (λ e. e) result) k nan ≡ correlation_of x.now (k + 15) }
{
    let mut t = [[0.0; 8]; EIGHTS];
    for (i, sums) in t.iter_mut().enumerate() {
        *sums = eight_lags(x, 8 * i + LAG_MIN);
    }
    t
}

impl Ends {
    // The energies at a lag, from those at the lag before; those at the first lag are given.
    fn at_lag(mut self, x: &[f64; PITCH_WINDOW], lag: usize) -> Ends
        requires { (15 ≤ lag) × (lag < 76) }
        ensures { result ≡ energies_at x.now lag self }
    {
        if LAG_MIN < lag {
            let a = x[PITCH_WINDOW - lag];
            let b = x[lag - 1];
            self.head = self.head - a * a;
            self.tail = self.tail - b * b;
            return self;
        }
        self
    }

    // With a lag's correlation, `sum`. A root below 1e-12 is passed over; the root of a negative number is NaN, and max and min pass over what
    // comes of it.
    #[tactic(auto, unfolding(crate::specs::Voicing::turn_of))]
    fn turn(mut self, sum: f64) -> Ends
        ensures { result ≡ turn_of self sum }
    {
        let p = self.head * self.tail;
        self.finite = self.finite & float::finite(p);
        let d = root::sqrt(p);
        if d < TINY {
            return self;
        }
        let r = sum / d;
        self.best = float::max(self.best, r);
        self.worst = float::min(self.worst, r);
        self
    }

    // All lags. By number, since `at_lag` goes by it too.
    fn lags(mut self, x: &[f64; PITCH_WINDOW]) -> Ends
        ensures { result ≡ lags_of x.now 61 15 self }
    {
        let eights = correlations(x);
        let sums = eights.as_flattened();
        for lag in LAG_MIN..LAG_MAX + 1 {
            let e = self.at_lag(x, lag);
            self = e.turn(sums[lag - LAG_MIN]);
        }
        self
    }
}

// The voicing of 240 values. The sum of the first half's energy is the beginning of the head's.
fn window(x: &[f64; PITCH_WINDOW]) -> Voicing
    ensures { result ≡ window_of x.now }
{
    let first = energy(0.0, &x[..HALF]);
    let second = energy(0.0, &x[HALF..]);
    if uneven(first, second) {
        return SILENT;
    }
    let head = energy(first, &x[HALF..HEAD]);
    let tail = energy(0.0, &x[LAG_MIN..]);
    let start = Ends {
        head,
        tail,
        best: 0.0,
        worst: 0.0,
        finite: true,
    };
    let e = start.lags(x);
    Voicing {
        voiced: e.best,
        anti: e.worst,
        finite: e.finite,
    }
}

// Whether the halves' energies aren't within 10 dB, or one of them is silent.
#[tactic(auto, unfolding(crate::specs::Voicing::uneven_of))]
fn uneven(first: f64, second: f64) -> bool
    ensures { result ≡ uneven_of first second }
{
    let low = float::min(first, second);
    let high = float::max(first, second);
    (low < TINY) | (low < EVEN * high)
}

// The same values as f64, in a loop: `d.map(f64::from)` takes each out of the array as an Option, which makes the detector's frame 5 % longer.
fn widened(d: [f32; PITCH_WINDOW]) -> [f64; PITCH_WINDOW]
    ensures { result ≡ d }
{
    let mut v = [0.0; PITCH_WINDOW];
    for (i, y) in v.iter_mut().enumerate() {
        *y = f64::from(d[i]);
    }
    v
}

impl Voicing {
    // The largest and the smallest normalised autocorrelation for pitch lags; both 0 while there are fewer than 240 values, and unless the
    // window's halves are within 10 dB (an onset or an end in the window makes any sound look periodic).
    pub fn of(decimated: Decimated) -> Self
        ensures { result ≡ voicing_of (held decimated.count decimated.list) }
    {
        if decimated.count < PITCH_WINDOW {
            return SILENT;
        }
        window(&widened(decimated.list))
    }
}
