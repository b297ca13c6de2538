// The bed's loudness by BS.1770: 1 to 8 channels, each with its own filters and fast mean square, joined by their weights.
// Channel 1 is that of the bed strand's level; `Surround` is what a chain keeps beside it.
#![tactic(auto)]

mod fours;
mod rest;
mod run;

ghost use Rattle.std.specs.Prelude.{◌≡◌, ◌≤◌, ◌∷◌, length, take};
ghost use Rattle.level.specs.Bs1770.{frame_length};
ghost use Rattle.level.specs.Weighing.{run_of};
ghost use Rattle.level.specs.Level.{no_channel, start_of};
ghost use Rattle.channels.specs.Channels.{resting, begin_of, kept_of, join_all, stored_finite, all_stored, kept_in};
ghost use Rattle.layout.specs.Layout.{most};
ghost use Rattle.channels.specs.Surround.{resting_of, mono_surround, filtered_one, filtered_of, bed_frame_of};

use biquad::State;
use layout::Layout;
use level::{FRAME, Framed, Joint, Level, Weighing};

// What a channel keeps from frame to frame. `Level` has the same three by themselves: the definitions of a level and of what it stores name them so
// (as `start_of`, `meter_of`, `of_level`), and in an image the detector's filters stand between the second and the third.
#[derive(Clone, Copy)]
pub struct Channel {
    pub shelf: State,
    pub high_pass: State,
    pub fast: f64,
}

// What a chain keeps beside the bed strand's level: the layout, and channels 2 to 8. Those past the layout's count are at rest: seven places whatever the
// count is, as an image has them.
#[derive(Clone, Copy)]
pub struct Surround {
    pub layout: Layout,
    pub others: [Channel; 7],
}

// What the channels' filters leave of a frame: the sums over them, whether the numbers that they store are finite, and the channels.
// The flag stands beside the values, and no Option around them, since refusal 4 tests it with the numbers of both strands.
#[derive(Clone, Copy)]
pub struct Filtered {
    pub joint: Joint,
    pub finite: bool,
    pub own: Channel,
    pub others: [Channel; 7],
}

// The bed strand's level after a frame with what all channels read, and what is kept beside it.
#[derive(Clone, Copy)]
pub struct BedFramed {
    pub framed: Framed,
    pub surround: Surround,
}

impl Channel {
    // A channel that has heard nothing.
    pub fn new() -> Self
        ensures { result ≡ resting }
    {
        Self {
            shelf: State::new(),
            high_pass: State::new(),
            fast: 0.0,
        }
    }

    // The filters as a frame begins.
    pub fn begin(self) -> Weighing
        ensures { result ≡ begin_of self }
    {
        Weighing {
            shelf: self.shelf,
            high_pass: self.high_pass,
            fast: self.fast,
            energy: 0.0,
        }
    }
}

// What a channel keeps of its filters.
impl From<Weighing> for Channel {
    ghost from_gives = { λ w channel. channel ≡ kept_of w };

    fn from(w: Weighing) -> Channel {
        Channel {
            shelf: w.shelf,
            high_pass: w.high_pass,
            fast: w.fast,
        }
    }
}

// The sums over the channels, in their order.
fn join(weights: &[f64], ws: &[Weighing]) -> Joint
    ensures { result ≡ join_all no_channel weights.now ws.now }
{
    weights
        .iter()
        .zip(ws)
        .fold(Joint::new(), |j, (weight, w)| j.join(*weight, *w, FRAME))
}

// Whether the numbers that the channels store are finite.
fn all_stored(ws: &[Weighing]) -> bool
    ensures { result ≡ all_stored ws.now }
{
    ws.iter().all(|w| w.stored_finite())
}

// The channels after a frame in which the first ones were run, ws being their filters; the others stay. By index: a loop over
// `v.iter_mut().zip(ws)` gives its proof no name for the values that it writes.
fn keep(channels: [Channel; 8], ws: &[Weighing]) -> [Channel; 8]
    requires { length ws.now ≤ most }
    ensures { result ≡ kept_in channels ws.now }
{
    let mut v = channels;
    for (i, w) in ws.iter().enumerate() {
        v[i] = Channel::from(*w);
    }
    v
}

// All eight channels: the level's own, and the seven after it.
fn all_channels(own: Channel, others: [Channel; 7]) -> [Channel; 8]
    ensures { result ≡ own ∷ others }
{
    let [b, c, d, e, f, g, h] = others;
    [own, b, c, d, e, f, g, h]
}

impl Surround {
    // A fresh chain's: one channel at 0, 0.
    pub fn new() -> Self
        ensures { result ≡ mono_surround }
    {
        Surround::of(Layout::new())
    }

    // A layout's, with channels that have heard nothing.
    #[tactic(auto, unfolding(crate::specs::Surround::resting_others))]
    pub fn of(layout: Layout) -> Self
        ensures { result ≡ resting_of layout }
    {
        Self {
            layout,
            others: [Channel::new(); 7],
        }
    }

    // What the filters leave where the layout has one channel: a function of its own, since a must-fail edit is made in it.
    #[tactic(auto, unfolding(crate::specs::Surround::filtered_one, crate::specs::Channels::stored_finite))]
    fn filtered_one(self, first: Weighing) -> Filtered
        ensures { result ≡ filtered_one self first }
    {
        let places = self.layout.places;
        let p = places[0];
        let others = self.others;
        Filtered {
            joint: Joint::new().join(p.weight(), first, FRAME),
            finite: first.stored_finite(),
            own: Channel::from(first),
            others,
        }
    }

    // What the filters leave of any channels.
    fn filtered_all(self, first: Weighing, own: Channel, xs: &[f32]) -> Filtered
        ensures { first ≡ run_of (begin_of own) (take frame_length xs.now) → result ≡ filtered_of self own xs.now }
    {
        let n = self.layout.channels();
        let channels = all_channels(own, self.others);
        let ws = run::weigh(first, channels, n, xs);
        let weights = self.layout.weights();
        let joint = join(&weights[..n], &ws[..n]);
        let finite = all_stored(&ws[..n]);
        let [own, b, c, d, e, f, g, h] = keep(channels, &ws[..n]);
        let others = [b, c, d, e, f, g, h];
        Filtered {
            joint,
            finite,
            own,
            others,
        }
    }

    // What the filters leave of a frame: the level's own channel, whose filters have been run over it already, and the others.
    fn filtered(self, first: Weighing, own: Channel, xs: &[f32]) -> Filtered
        ensures { first ≡ run_of (begin_of own) (take frame_length xs.now) → result ≡ filtered_of self own xs.now }
    {
        if self.layout.count == 1 {
            return self.filtered_one(first);
        }
        self.filtered_all(first, own, xs)
    }

    // A frame of the bed: its channels' samples, 480 each, one channel after the other. The filters of channel 1 have been run over them already,
    // beside the key's. That they have been is a premise, and no `requires`: a caller may pass any. The list of powers is read in one place, so that
    // the compiler makes the next list where it is to be kept.
    pub fn frame(self, first: Weighing, level: Level, xs: &[f32]) -> BedFramed
        ensures { first ≡ run_of (start_of level) (take frame_length xs.now) → result ≡ bed_frame_of level self xs.now }
    {
        let own = Channel {
            shelf: level.shelf,
            high_pass: level.high_pass,
            fast: level.fast,
        };
        let f = self.filtered(first, own, xs);
        let read = f.joint.read(level.powers);
        let next = f.own;
        let others = f.others;
        BedFramed {
            framed: Framed {
                level: Level {
                    shelf: next.shelf,
                    high_pass: next.high_pass,
                    fast: next.fast,
                    powers: read.powers,
                },
                reading: read.reading,
                finite: f.finite & read.finite,
            },
            surround: Surround {
                layout: self.layout,
                others,
            },
        }
    }
}
