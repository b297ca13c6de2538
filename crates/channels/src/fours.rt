// Four channels' filters in one loop, their results pair beside pair: two channels to an instruction.
ghost use Rattle.std.specs.Prelude.{◌≡◌, T};
ghost use Rattle.std.specs.Float.Ieee.Scale.{finite};
ghost use Rattle.level.specs.Weighing.{clean_of, run_of};
ghost use Rattle.channels.specs.Fours.{Whole, four_of};

use level::{FRAME, Weighing};
use pairs::{Pair, WeighedPairs};

// A finite sample as it is heard. By `as`, since `f64::from` tests each sample for NaN, which the loop would do for each sample of each channel.
fn heard(v: f32) -> f64
    requires { T (finite v) }
    ensures { result ≡ clean_of v }
{
    v as f64
}

// Four channels' filters over a frame of 480 finite samples each, in one loop, so that their steps go side by side. `run_four` shows that they are
// whole. Eight parameters, and no arrays of four: the loop needs each by itself, so arrays would only be made and taken apart.
pub(crate) fn weigh_four(
    w0: Weighing,
    w1: Weighing,
    w2: Weighing,
    w3: Weighing,
    xs0: &[f32],
    xs1: &[f32],
    xs2: &[f32],
    xs3: &[f32],
) -> Pair<WeighedPairs>
    requires { Whole xs0.now × Whole xs1.now × Whole xs2.now × Whole xs3.now }
    ensures { result ≡ four_of (run_of w0 xs0.now) (run_of w1 xs1.now) (run_of w2 xs2.now) (run_of w3 xs3.now) }
{
    let mut a = w0;
    let mut b = w1;
    let mut c = w2;
    let mut d = w3;
    for i in 0..FRAME {
        a = a.step(heard(xs0[i]));
        b = b.step(heard(xs1[i]));
        c = c.step(heard(xs2[i]));
        d = d.step(heard(xs3[i]));
    }
    Pair {
        first: WeighedPairs::of(a, b),
        second: WeighedPairs::of(c, d),
    }
}
