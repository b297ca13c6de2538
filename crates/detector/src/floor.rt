// The noise floor by minimum statistics: the least smoothed band power of the open window and of the 8 full ones before it, each of 25 frames.
ghost use Rattle.std.specs.Prelude.{◌≡◌};
ghost use Rattle.detector.specs.Floor.{window_min_of, fresh_floor, stored_of, floor_of};

use sequence::Latest;

// Frames of a window: 250 ms.
const FLOOR_WINDOW: usize = 25;

// Full windows whose minima are kept: 2 s.
const FLOOR_WINDOWS: usize = 8;

// How far the smoothed band power moves towards that of a frame.
const SMOOTHING: f64 = 0.3;

// What the noise floor is read from: the smoothed power, dB (none before the first frame), the minimum and the frames (0 to 24) of the open window,
// and the minima of those before it. The minimum of an empty window is 0 and isn't looked at. It is no Option: an image has a word for the minimum and
// one for the frames, each with a rule of its own, and states are compared by both.
#[derive(Clone, Copy)]
pub struct Floor {
    pub smoothed: Option<f64>,
    pub window_min: f64,
    pub window_frames: usize,
    pub minima: Latest<f64, FLOOR_WINDOWS>,
}

// The floor after a frame, what it reads, dB, and what the frame stores: the smoothed power and the window's minimum with it.
#[derive(Clone, Copy)]
pub struct Floored {
    pub next: Floor,
    pub floor: f64,
    pub smoothed: f64,
    pub least: f64,
}

impl Floor {
    // Before the first frame.
    pub fn new() -> Self
        ensures { result ≡ fresh_floor }
    {
        Self {
            smoothed: None,
            window_min: 0.0,
            window_frames: 0,
            minima: Latest::new(0.0),
        }
    }

    // The least of the open window's values, with s.
    #[tactic(auto, unfolding(crate::specs::Floor::window_min_of))]
    fn window_least(self, s: f64) -> f64
        ensures { result ≡ window_min_of self s }
    {
        if self.window_frames == 0 {
            return s;
        }
        float::min(self.window_min, s)
    }

    // After a frame with the smoothed power s and the window's minimum m. Where it fills the window, the minimum is kept and a window begins.
    fn stored(self, s: f64, m: f64) -> Floor
        ensures { result ≡ stored_of self s m }
    {
        if self.window_frames < FLOOR_WINDOW - 1 {
            return Floor {
                smoothed: Some(s),
                window_min: m,
                window_frames: self.window_frames + 1,
                ..self
            };
        }
        Floor {
            smoothed: Some(s),
            window_min: 0.0,
            window_frames: 0,
            minima: self.minima.push(m),
        }
    }

    // The noise floor with this frame's band power e, dB.
    #[tactic(auto, unfolding(crate::specs::Floor::floor_of, crate::specs::Floor::smoothed_of))]
    pub fn floor(self, e: f64) -> Floored
        ensures { result ≡ floor_of self e }
    {
        let s = self.smoothed.map_or(e, |s| float::toward(s, e, SMOOTHING));
        let m = self.window_least(s);
        let earlier = self.minima.held();
        Floored {
            next: self.stored(s, m),
            floor: earlier.iter().fold(m, |least, x| float::min(least, *x)),
            smoothed: s,
            least: m,
        }
    }
}
