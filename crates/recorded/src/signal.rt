// The signals of the recorded files, frame by frame.
ghost use Rattle.std.specs.Prelude.{◌≡◌, ◌+◌, ◌*◌, ◌%◌, ◌^◌};
ghost use Rattle.recorded.specs.Signals.{sample_of};

use super::kind::Kind;
use super::seed::Seed;
use super::{file, signals};
use level::FRAME;

#[derive(Clone, Copy)]
pub struct Signal {
    kind: Kind,
    seed: Seed,
    scale: f32,
}

// A signal by its three words of a recorded file.
impl From<[u64; 3]> for Signal {
    ghost use Rattle.std.specs.Prelude.{◌≡◌, ◌%◌, ◌^◌, slice_index, from_bits};
    ghost use Rattle.std.specs.Float.{binary32};
    ghost use Rattle.recorded.specs.Signals.{kind_of, seed_of};

    ghost from_gives = { λ words signal. (signal.kind ≡ kind_of (slice_index words 0)) × (signal.seed.value ≡ seed_of (slice_index words 1)) × (signal.scale ≡ from_bits binary32 (slice_index words 2 % 2 ^ 32)) };

    fn from(words: [u64; 3]) -> Signal {
        let [kind, seed, scale] = words;
        Signal {
            kind: Kind::from(kind),
            seed: Seed::from(seed),
            scale: file::value32(scale),
        }
    }
}

// The first sample of the frame that comes `frames` frames after the one which begins at sample `first`.
pub fn frame_start(first: u64, frames: u64) -> u64
    ensures { result ≡ (first + frames * 480 % 2 ^ 64) % 2 ^ 64 }
{
    first.wrapping_add(frames.wrapping_mul(FRAME as u64))
}

impl Signal {
    // Sample n. The difference is exact, the product rounded once.
    #[tactic(auto, unfolding(crate::specs::Signals::sample_of))]
    pub fn sample(self, n: u64) -> f32
        ensures { result ≡ sample_of self.kind self.seed.value self.scale n }
    {
        (signals::value(self.kind, self.seed, n) as f32 - 32768.0) * self.scale
    }

    // Fills a slice with samples, from sample `first` on.
    pub fn fill(self, first: u64, to: &mut [f32]) {
        for (k, x) in to.iter_mut().enumerate() {
            *x = self.sample(first.wrapping_add(k as u64));
        }
    }

    // A frame, from sample `first` on.
    pub fn frame(self, first: u64) -> [f32; FRAME] {
        let mut x = [0.0; FRAME];
        self.fill(first, &mut x);
        x
    }
}
