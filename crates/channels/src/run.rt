// The channels' filters over a frame: first those that rest, then four at a time, then what is left. In what order they are run makes no
// difference. Where a sample isn't finite, each is run by itself: four at a time need no test of a sample.
ghost use Rattle.std.specs.Prelude.{◌*◌, ◌≤◌, ◌<◌, ◌≡◌, T, IfSome, length, take};
ghost use Rattle.float.specs.AllFinite.{all_finite};
ghost use Rattle.level.specs.Bs1770.{frame_length};
ghost use Rattle.layout.specs.Layout.{most};
ghost use Rattle.channels.specs.Channels.{samples_of, weighings_of};
ghost use Rattle.channels.specs.Fours.{four_of};
ghost use Rattle.channels.specs.Runs.{weighing_of, put_four, Below, Right, Complete};

use super::Channel;
use layout::MOST;
use level::{FRAME, Weighing};
use pairs::{Pair, Place, WeighedPairs};

// The channels' filters after a frame, as far as they have been run: eight places, as in `Layout`, since there is no heap.
type Run = [Option<Weighing>; 8];

// The channels, of which the first ones are in use, and the samples of those, one channel after the other. An array and a count, for the reason at
// `Layout`.
#[derive(Clone, Copy)]
struct InUse<'a> {
    channels: [Channel; 8],
    count: usize,
    xs: &'a [f32],
    ghost within: { count ≤ most },
}

// Four channels that are run together, by their numbers: fields and no array, as `weigh_four` takes each by itself. Their bound is a clause, and no ghost
// field: `run_four` needs them below the count of an `InUse`, of which `put_four`'s below 8 follows.
#[derive(Clone, Copy)]
struct Four {
    a: usize,
    b: usize,
    c: usize,
    d: usize,
}

// Four channels' filters after the frame.
#[tactic(auto, unfolding(crate::specs::Runs::put_four))]
fn put_four(run: Run, f: Four, q: Pair<WeighedPairs>) -> Run
    requires { Below most f }
    ensures { result ≡ put_four run f q }
{
    let mut next = run;
    next[f.a] = Some(q.first.at(Place::First));
    next[f.b] = Some(q.first.at(Place::Second));
    next[f.c] = Some(q.second.at(Place::First));
    next[f.d] = Some(q.second.at(Place::Second));
    next
}

// That what has been run is right is a premise here, and no ghost field: the first channel's filters are the caller's, and `Surround::frame` takes any.
impl InUse<'_> {
    // The 480 samples of channel c; fewer where the slice ends.
    fn samples(&self, c: usize) -> &[f32]
        requires { c ≤ most }
        ensures { result.now ≡ samples_of c self.now.xs.now }
    {
        let from = (c * FRAME).min(self.xs.len());
        let to = (from + FRAME).min(self.xs.len());
        &self.xs[from..to]
    }

    // The filters of channel c over a frame.
    #[tactic(auto, unfolding(crate::specs::Runs::weighing_of))]
    fn run_one(&self, c: usize) -> Weighing
        requires { c < most }
        ensures { result ≡ weighing_of self.now.channels self.now.xs.now c }
    {
        self.channels[c].begin().run(self.samples(c))
    }

    // The filters of four channels over a frame. It stays a function of its own in the machine code: only then do its results lie pair beside pair.
    #[inline(never)]
    fn run_four(&self, f: Four) -> Pair<WeighedPairs>
        requires { Below self.now.count f × (self.now.count * frame_length ≤ length self.now.xs.now) × T (all_finite self.now.xs.now) }
        ensures { result ≡ four_of (weighing_of self.now.channels self.now.xs.now f.a) (weighing_of self.now.channels self.now.xs.now f.b)
            (weighing_of self.now.channels self.now.xs.now f.c) (weighing_of self.now.channels self.now.xs.now f.d) }
    {
        let s = self.channels[f.a];
        let t = self.channels[f.b];
        let u = self.channels[f.c];
        let v = self.channels[f.d];
        super::fours::weigh_four(
            s.begin(),
            t.begin(),
            u.begin(),
            v.begin(),
            self.samples(f.a),
            self.samples(f.b),
            self.samples(f.c),
            self.samples(f.d),
        )
    }

    // The first channel from this number on that is in use and not run yet. By `get`: inside the closure c isn't known to be below 8.
    fn waiting(&self, run: Run, from: usize) -> Option<usize>
        ensures { IfSome result (λ c. c < self.now.count) }
    {
        (from..self.count).find(|c| matches!(run.get(*c), Some(None)))
    }

    // The first four that are not run yet, where there are two or more; where there are fewer than four, the second fills up.
    fn next_four(&self, run: Run) -> Option<Four>
        ensures { IfSome result (λ f. Below self.now.count f) }
    {
        let a = self.waiting(run, 0)?;
        let b = self.waiting(run, a + 1)?;
        let c = self.waiting(run, b + 1).unwrap_or(b);
        let d = self.waiting(run, c + 1).unwrap_or(b);
        Some(Four { a, b, c, d })
    }

    // The channels that rest, each by itself. By number, here and below: the number says where a channel's samples are, and a short slice has parts for fewer
    // channels, so that a zip with `chunks` would leave some out.
    fn run_quiet(&self, run: Run) -> Run
        ensures { Right self.now.channels self.now.xs.now run → Right self.now.channels self.now.xs.now result }
    {
        let mut next = run;
        for c in 0..self.count {
            if let Some(w) = super::rest::at_rest(self.channels[c], self.samples(c)) {
                next[c] = Some(w);
            }
        }
        next
    }

    // The other channels, four at a time.
    fn run_fours(&self, run: Run) -> Run
        requires { (self.now.count * frame_length ≤ length self.now.xs.now) × T (all_finite self.now.xs.now) }
        ensures { Right self.now.channels self.now.xs.now run → Right self.now.channels self.now.xs.now result }
    {
        let Some(f) = self.next_four(run) else {
            return run;
        };
        let more = put_four(run, f, self.run_four(f));
        let Some(g) = self.next_four(more) else {
            return more;
        };
        put_four(more, g, self.run_four(g))
    }

    // All filters: those that have been run, and what is left, each by itself. A match and no `unwrap_or_else`: of what its closure answers nothing is
    // inferred here, and with clauses of its own it is longer.
    fn run_rest(&self, run: Run) -> [Weighing; 8]
        ensures { Right self.now.channels self.now.xs.now run → Complete self.now.channels self.now.xs.now self.now.count result }
    {
        let mut weighed = [Channel::new().begin(); 8];
        for c in 0..self.count {
            weighed[c] = match run[c] {
                Some(w) => w,
                None => self.run_one(c),
            };
        }
        weighed
    }

    // All filters over a frame, from what has been run of them.
    fn run_all(&self, run: Run) -> [Weighing; 8]
        ensures { Right self.now.channels self.now.xs.now run → Complete self.now.channels self.now.xs.now self.now.count result }
    {
        if self.count < 2 || self.xs.len() < self.count * FRAME || !float::all_finite(self.xs) {
            return self.run_rest(run);
        }
        let quiet = self.run_quiet(run);
        let more = self.run_fours(quiet);
        self.run_rest(more)
    }
}

// The filters of the first n channels over a frame, of which the first has been run elsewhere, beside the key's.
pub fn weigh(first: Weighing, channels: [Channel; 8], n: usize, xs: &[f32]) -> [Weighing; 8]
    ensures { first ≡ weighing_of channels xs.now 0 → take n result ≡ weighings_of channels n xs.now }
{
    let used = InUse {
        channels,
        count: n.min(MOST),
        xs,
    };
    let mut run = [None; 8];
    run[0] = Some(first);
    used.run_all(run)
}
