// The voice detector: turns a frame of 10 ms (480 samples at 48 kHz) into a speech probability and its four features, by the energy of the
// band 250 Hz to 4 kHz over its noise floor, the modulation of that band, and the voicing of that band below 1 kHz.
#![tactic(auto)]

mod filters;
mod floor;
mod modulation;
mod voicing;

ghost use Rattle.std.specs.Prelude.{◌≡◌, ◌&&◌};
ghost use Rattle.float.specs.AllFinite.{all_finite};
ghost use Rattle.detector.specs.Steps.{smoothstep_of, db_of};
ghost use Rattle.detector.specs.Filters.{states_of};
ghost use Rattle.detector.specs.Detector.{fresh_of, powers_of, numbers_of, probability_of, shown_of, finish_of, frame_of};

use filters::KEPT;
pub use filters::{Bands, Decimated, Filters, samples};
pub use floor::{Floor, Floored};
use level::FRAME;
use modulation::MODULATION_FRAMES;
pub use modulation::{Modulated, modulation_with};
use sequence::Latest;
pub use voicing::Voicing;

// A power below this counts as this, dB.
const SILENCE_DB: f64 = -120.0;

// A pure tone is nearly its own opposite half a period later: an autocorrelation below this, and it is never speech.
const TONE_LIMIT: f64 = -0.93;

// 0 up to lo, 1 from hi on, and smooth between.
#[tactic(auto, unfolding(crate::specs::Steps::smoothstep_of))]
pub fn smoothstep(x: f64, lo: f64, hi: f64) -> f64
    ensures { result ≡ smoothstep_of x lo hi }
{
    let t = float::clamp((x - lo) / (hi - lo), 0.0, 1.0);
    t * t * (3.0 - 2.0 * t)
}

// dB of a power, at the silence floor for none. As `level::lufs`, with another floor and no offset: a common function would add 0.0, an operation that
// the definition doesn't have.
#[tactic(auto, unfolding(crate::specs::Steps::db_of))]
pub fn db(power: f64) -> f64
    ensures { result ≡ db_of power }
{
    if 0.0 < power {
        return float::max(10.0 * logarithm::log10(power), SILENCE_DB);
    }
    SILENCE_DB
}

// The band power over the noise floor, dB; its modulation, dB; the voicing; and the most negative autocorrelation (a tone near -1).
#[derive(Clone, Copy)]
pub struct Features {
    pub over_floor_db: f64,
    pub modulation_db: f64,
    pub voicing: f64,
    pub anti: f64,
}

// What the detector saw in one frame: the speech probability, the frame's RMS level (dBFS) and the features.
#[derive(Clone, Copy)]
pub struct Frame {
    pub probability: f64,
    pub level_dbfs: f64,
    pub features: Features,
}

// The mean squares of a frame and of its speech band, and the band's in dB (e).
#[derive(Clone, Copy)]
pub struct FramePowers {
    pub full: f64,
    pub band: f64,
    pub e: f64,
}

// What the detector keeps from frame to frame.
#[derive(Clone, Copy)]
pub struct FeatureDetector {
    pub filters: Filters,
    pub decimated: Decimated,
    pub floor: Floor,
    pub history: Latest<f64, MODULATION_FRAMES>,
}

// The detector after a frame, what it saw, and whether every number that is stored, or handed to the logarithm, the root or the narrowing, is finite.
// A flag beside the values, which are promised whatever it says, since the numbers of both strands are tested together.
#[derive(Clone, Copy)]
pub struct Heard {
    pub detector: FeatureDetector,
    pub frame: Frame,
    pub finite: bool,
}

impl Features {
    // The speech probability: energy times modulation times (0.3 + 0.7 * voicing), each a smooth step from 0 to 1; 0 for a pure tone.
    #[tactic(auto, unfolding(crate::specs::Detector::probability_of))]
    pub fn probability(self) -> f64
        ensures { result ≡ probability_of self }
    {
        if self.anti < TONE_LIMIT {
            return 0.0;
        }
        let energy = smoothstep(self.over_floor_db, 4.0, 14.0); // dB
        let modulation = smoothstep(self.modulation_db, 2.0, 6.0); // dB
        let voicing = smoothstep(self.voicing, 0.4, 0.75);
        energy * modulation * (0.3 + 0.7 * voicing)
    }
}

impl Bands {
    // The powers, after the last sample of a frame.
    #[tactic(auto, unfolding(crate::specs::Detector::powers_of))]
    fn powers(self) -> FramePowers
        ensures { result ≡ powers_of self }
    {
        let samples = std::num::nearest_usize_to_f64(FRAME);
        let band = self.band / samples;
        FramePowers {
            full: self.full / samples,
            band,
            e: db(band),
        }
    }
}

// What the detector shows of a frame. What was measured goes one by one, here and below: a struct of it would be made and taken apart, histories and all.
#[tactic(auto, unfolding(crate::specs::Detector::shown_of))]
fn shown(powers: FramePowers, floored: Floored, modulated: Modulated, voicing: Voicing) -> Frame
    ensures { result ≡ shown_of powers floored modulated voicing }
{
    let features = Features {
        over_floor_db: powers.e - floored.floor,
        modulation_db: modulated.modulation,
        voicing: voicing.voiced,
        anti: voicing.anti,
    };
    Frame {
        probability: features.probability(),
        level_dbfs: db(powers.full),
        features,
    }
}

// Whether every number that a frame stores, or hands to the logarithm, the root or the narrowing, is finite. Where what came of the narrowing
// is finite, so is what went to it.
fn numbers_finite(
    filters: Filters,
    powers: FramePowers,
    values: [f32; KEPT],
    floored: Floored,
    modulated: Modulated,
    voicing: Voicing,
) -> bool
    ensures { result ≡ (all_finite (states_of filters) && all_finite (numbers_of powers floored modulated)) && (all_finite values && voicing.finite) }
{
    let numbers = [
        floored.smoothed,
        floored.least,
        powers.e,
        float::max(0.0, powers.full),
        float::max(0.0, powers.band),
        modulated.variance,
    ];
    let stored = filters.all_finite() & float::all_finite(&numbers);
    stored & (float::all_finite(&values) & voicing.finite)
}

impl FeatureDetector {
    // A detector that has heard nothing.
    pub fn new() -> Self
        ensures { result ≡ fresh_of }
    {
        Self {
            filters: Filters::new(),
            decimated: Decimated::new(0.0),
            floor: Floor::new(),
            history: Latest::new(0.0),
        }
    }

    // What follows the filters over a frame: the bands as they left them, and the pitch filter's outputs ys.
    pub fn finish(self, bands: Bands, ys: &[f64]) -> Heard
        ensures { result ≡ finish_of self bands ys.now }
    {
        let powers = bands.powers();
        let values = filters::decimate(ys);
        let decimated = self.decimated.keep(&values);
        let floored = self.floor.floor(powers.e);
        let modulated = modulation_with(self.history, powers.e);
        let voicing = Voicing::of(decimated);
        let frame = shown(powers, floored, modulated, voicing);
        Heard {
            detector: FeatureDetector {
                filters: bands.filters,
                decimated,
                floor: floored.next,
                history: modulated.next,
            },
            frame,
            finite: numbers_finite(bands.filters, powers, values, floored, modulated, voicing),
        }
    }

    // One frame: the filters over its samples, then what follows them.
    pub fn frame(self, xs: &[f32]) -> Heard
        ensures { result ≡ frame_of self xs.now }
    {
        let mut x = [0.0; FRAME];
        samples(xs, &mut x);
        let mut ys = [0.0; FRAME];
        let bands = self.filters.begin().run(&x, &mut ys);
        self.finish(bands, &ys)
    }
}
