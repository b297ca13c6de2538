// The filters of both strands side by side: the level's and the detector's, of the key and of the bed, over a frame. In a `Pair` the key's is the
// first, the bed's the second: `Place` is which strand.
#![tactic(auto)]

ghost use Rattle.std.specs.Prelude.{◌≡◌};
ghost use Rattle.detector.specs.Filters.{outputs_of};
ghost use Rattle.paired_filters.specs.Pairs.{banded_pairs, banded_at, weighed_of, beside_of, banded_of, filtered_of};

use detector::{Bands, Filters};
use level::{FRAME, Weighing};
use pairs::{Pair, Place, States, WeighedPairs};

// The detector's filters of both strands, their numbers side by side.
#[derive(Clone, Copy)]
pub struct BandedPairs {
    pub high_pass: States,
    pub low_pass: States,
    pub pitch1: States,
    pub pitch2: States,
    pub full: Pair<f64>,
    pub band: Pair<f64>,
    pub pitch: Pair<f64>,
}

// The filters of both kinds after a frame.
#[derive(Clone, Copy)]
pub struct Filtered {
    pub weighed: WeighedPairs,
    pub banded: BandedPairs,
}

impl BandedPairs {
    // Both strands' filters side by side.
    fn of(key: Bands, bed: Bands) -> Self
        ensures { result ≡ banded_pairs key bed }
    {
        let k = key.filters;
        let b = bed.filters;
        Self {
            high_pass: States::of(k.high_pass, b.high_pass),
            low_pass: States::of(k.low_pass, b.low_pass),
            pitch1: States::of(k.pitch1, b.pitch1),
            pitch2: States::of(k.pitch2, b.pitch2),
            full: Pair {
                first: key.full,
                second: bed.full,
            },
            band: Pair {
                first: key.band,
                second: bed.band,
            },
            pitch: Pair {
                first: key.pitch,
                second: bed.pitch,
            },
        }
    }

    // One of the two.
    pub fn at(self, place: Place) -> Bands
        ensures { result ≡ banded_at self place }
    {
        Bands {
            filters: Filters {
                high_pass: self.high_pass.at(place),
                low_pass: self.low_pass.at(place),
                pitch1: self.pitch1.at(place),
                pitch2: self.pitch2.at(place),
            },
            full: self.full.at(place),
            band: self.band.at(place),
            pitch: self.pitch.at(place),
        }
    }
}

// The level's filters over a frame, both strands in one loop, so that their steps go side by side. By index, here and in the two loops below: an array of
// FRAME samples needs no bound, and after a loop over `iter_mut().zip` nothing is known of what it wrote.
fn weigh(weighed: Pair<Weighing>, xs: &[f64; FRAME], ys: &[f64; FRAME]) -> WeighedPairs
    ensures { result ≡ weighed_of weighed.first weighed.second xs.now ys.now }
{
    let mut k = weighed.first;
    let mut b = weighed.second;
    for i in 0..FRAME {
        k = k.step(xs[i]);
        b = b.step(ys[i]);
    }
    WeighedPairs::of(k, b)
}

// The level's filters of a strand whose shelf's output is v throughout, and beside them those of the other strand, whose samples are ys.
fn weigh_beside(v: f64, held: Weighing, other: Weighing, ys: &[f64; FRAME]) -> Pair<Weighing>
    ensures { result ≡ beside_of v held other ys.now }
{
    let mut first = held;
    let mut second = other;
    for y in ys {
        first = first.held_step(v);
        second = second.step(*y);
    }
    Pair { first, second }
}

// The level's filters over a frame. In silence a shelf's numbers end below the smallest normal number, where the processor is slow, and stay:
// then they aren't computed.
fn weigh_frame(weighed: Pair<Weighing>, xs: &[f64; FRAME], ys: &[f64; FRAME]) -> WeighedPairs
    ensures { result ≡ weighed_of weighed.first weighed.second xs.now ys.now }
{
    let Pair {
        first: key,
        second: bed,
    } = weighed;
    let x = xs[0];
    let y = ys[0];
    if key.rests(x, xs) {
        let s = weigh_beside(key.shelf_output(x), key, bed, ys);
        return WeighedPairs::of(s.first, s.second);
    }
    if bed.rests(y, ys) {
        let s = weigh_beside(bed.shelf_output(y), bed, key, xs);
        return WeighedPairs::of(s.second, s.first);
    }
    weigh(weighed, xs, ys)
}

// The detector's filters likewise; the outputs of each strand's pitch filter go to `key_pitch` and `bed_pitch`.
fn band(
    banded: Pair<Bands>,
    xs: &[f64; FRAME],
    ys: &[f64; FRAME],
    key_pitch: &mut [f64; FRAME],
    bed_pitch: &mut [f64; FRAME],
) -> BandedPairs
    ensures { (result ≡ banded_of banded.first banded.second xs.now ys.now) × (key_pitch.new ≡ outputs_of banded.first xs.now)
        × (bed_pitch.new ≡ outputs_of banded.second ys.now) }
{
    let mut k = banded.first;
    let mut b = banded.second;
    for i in 0..FRAME {
        k = k.step(xs[i]);
        b = b.step(ys[i]);
        key_pitch[i] = k.pitch;
        bed_pitch[i] = b.pitch;
    }
    BandedPairs::of(k, b)
}

// The detector's filters over a frame. Where a strand is in silence, each strand goes by itself.
#[tactic(auto, unfolding(crate::specs::Pairs::banded_of, detector::specs::Filters::run_of))]
fn band_frame(
    banded: Pair<Bands>,
    xs: &[f64; FRAME],
    ys: &[f64; FRAME],
    key_pitch: &mut [f64; FRAME],
    bed_pitch: &mut [f64; FRAME],
) -> BandedPairs
    ensures { (result ≡ banded_of banded.first banded.second xs.now ys.now) × (key_pitch.new ≡ outputs_of banded.first xs.now)
        × (bed_pitch.new ≡ outputs_of banded.second ys.now) }
{
    let Pair {
        first: key,
        second: bed,
    } = banded;
    if key.quiet(xs[0], xs) | bed.quiet(ys[0], ys) {
        let k = key.alone(xs, key_pitch);
        let b = bed.alone(ys, bed_pitch);
        return BandedPairs::of(k, b);
    }
    band(banded, xs, ys, key_pitch, bed_pitch)
}

// The level's and the detector's filters in one loop: neither waits for the other.
fn filter(
    weighed: Pair<Weighing>,
    banded: Pair<Bands>,
    xs: &[f64; FRAME],
    ys: &[f64; FRAME],
    key_pitch: &mut [f64; FRAME],
    bed_pitch: &mut [f64; FRAME],
) -> Filtered
    ensures { (result ≡ filtered_of weighed banded xs.now ys.now) × (key_pitch.new ≡ outputs_of banded.first xs.now)
        × (bed_pitch.new ≡ outputs_of banded.second ys.now) }
{
    let mut v = weighed.first;
    let mut w = weighed.second;
    let mut p = banded.first;
    let mut q = banded.second;
    for i in 0..FRAME {
        let x = xs[i];
        let y = ys[i];
        v = v.step(x);
        w = w.step(y);
        p = p.step(x);
        q = q.step(y);
        key_pitch[i] = p.pitch;
        bed_pitch[i] = q.pitch;
    }
    Filtered {
        weighed: WeighedPairs::of(v, w),
        banded: BandedPairs::of(p, q),
    }
}

// All filters over a frame: xs are the key's samples, ys the bed's. The outputs of each strand's pitch filter go to `key_pitch` and `bed_pitch`.
// Where a strand's samples are all the same, its filters may be at rest. Samples and outputs are parameters of their own, and no `Pair`: it would be
// one of references, made in one place and taken apart in each function.
#[tactic(auto, unfolding(crate::specs::Pairs::filtered_of))]
pub fn filter_frame(
    weighed: Pair<Weighing>,
    banded: Pair<Bands>,
    xs: &[f64; FRAME],
    ys: &[f64; FRAME],
    key_pitch: &mut [f64; FRAME],
    bed_pitch: &mut [f64; FRAME],
) -> Filtered
    ensures { (result ≡ filtered_of weighed banded xs.now ys.now) × (key_pitch.new ≡ outputs_of banded.first xs.now)
        × (bed_pitch.new ≡ outputs_of banded.second ys.now) }
{
    if float::all_same(xs[0], xs) | float::all_same(ys[0], ys) {
        return Filtered {
            weighed: weigh_frame(weighed, xs, ys),
            banded: band_frame(banded, xs, ys, key_pitch, bed_pitch),
        };
    }
    filter(weighed, banded, xs, ys, key_pitch, bed_pitch)
}
