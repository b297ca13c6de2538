// A channel in silence: its filters' numbers shrink until rounding holds them, below the smallest normal number, where processors are slow. Then they
// need not be run.
ghost use Rattle.std.specs.Prelude.{◌≡◌, T, IfSome};
ghost use Rattle.level.specs.Weighing.{run_of};
ghost use Rattle.channels.specs.Channels.{begin_of};
ghost use Rattle.channels.specs.Rest.{still_run, Silent};

use super::Channel;
use biquad::{K_HIGH_PASS, K_SHELF};
use level::Weighing;

// n samples for which both sections' states stay and y2 is the square of the high-pass's output.
fn still(w: Weighing, y2: f64, n: usize) -> Weighing
    ensures { result ≡ still_run y2 n w }
{
    let next = w.still_step(y2);
    if float::same(next.fast, w.fast) & float::same(next.energy, w.energy) {
        return w;
    }
    (0..n).fold(w, |u, _| u.still_step(y2))
}

// Whether every sample is heard as 0.
fn silent(xs: &[f32]) -> bool
    ensures { T result → Silent xs.now }
{
    xs.iter().all(|x| float::same(level::clean(*x), 0.0))
}

// The filters after the frame of a channel in silence whose filters stay as they are; none where that isn't sure.
pub fn at_rest(c: Channel, xs: &[f32]) -> Option<Weighing>
    ensures { IfSome result (λ w. w ≡ run_of (begin_of c) xs.now) }
{
    let w = c.begin();
    let v = w.shelf_output(0.0);
    if level::holds(c.shelf, K_SHELF, 0.0)
        && level::holds(c.high_pass, K_HIGH_PASS, v)
        && silent(xs)
    {
        let b = c.high_pass.tick(K_HIGH_PASS, v);
        return Some(still(w, b.y * b.y, xs.len()));
    }
    None
}
