// The modulation: the standard deviation of the band power, dB, over 400 ms. Speech rises and falls with its syllables; noise and tones do not.
ghost use Rattle.std.specs.Prelude.{◌≡◌};
ghost use Rattle.detector.specs.Modulation.{variance_of, modulation_of};

use sequence::Latest;

// Frames of the measure: 400 ms.
pub const MODULATION_FRAMES: usize = 40;

// The band powers of the latest 40 frames, dB, after a frame, their variance, and their standard deviation, dB.
#[derive(Clone, Copy)]
pub struct Modulated {
    pub next: Latest<f64, MODULATION_FRAMES>,
    pub variance: f64,
    pub modulation: f64,
}

// The mean squared distance from the mean.
#[tactic(auto, unfolding(crate::specs::Modulation::variance_of, crate::specs::Modulation::mean_of, crate::specs::Modulation::total_of, crate::specs::Modulation::deviations_of))]
fn variance(xs: &[f64]) -> f64
    ensures { result ≡ variance_of xs.now }
{
    let n = std::num::nearest_usize_to_f64(xs.len());
    let mean = xs.iter().fold(0.0, |sum, x| sum + *x) / n;
    let deviations = xs.iter().fold(0.0, |sum, x| {
        let d = *x - mean;
        sum + d * d
    });
    deviations / n
}

// The standard deviation of the band power over the last 400 ms, from its history, with e.
#[tactic(auto, unfolding(crate::specs::Modulation::modulation_of))]
pub fn modulation_with(history: Latest<f64, MODULATION_FRAMES>, e: f64) -> Modulated
    ensures { result ≡ modulation_of history e }
{
    let next = history.push(e);
    let variance = variance(next.held());
    Modulated {
        next,
        variance,
        modulation: root::sqrt(variance),
    }
}
