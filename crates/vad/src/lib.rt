// The voice activity of one strand: the decision over the detector's probabilities (gate, smoothing, threshold with hysteresis, hold), its
// counts and speech power, and the strand itself, which is level, detector and decision.
#![tactic(auto)]

ghost use Rattle.std.specs.Prelude.{◌≡◌};
ghost use Rattle.vad.specs.Hold.{hold_frames};
ghost use Rattle.vad.specs.Decision.{
  heard_of,
  smoothed_of,
  off_of,
  onset_of,
  offset_of,
  switch_of,
  voiced_of,
  decide_of,
  full_of,
};
ghost use Rattle.vad.specs.State.{rounded_of, speech_level_of, state_of, numbers_of};
ghost use Rattle.vad.specs.Strand.{no_speech, fresh_of, finish_of, frame_of, stopped_of, reset_of};
ghost use Rattle.float.specs.AllFinite.{all_finite};

use detector::{FeatureDetector, Features, Frame, Heard};
use float::Lufs;
use level::{Level, Reading};

// The most onsets that a strand counts: 2^32 - 1.
const ONSET_LIMIT: u64 = 4294967295;

// A strand's settings: the threshold of the probability, the hold, ms, and the loudness below which nothing is speech.
#[derive(Clone, Copy)]
pub struct VadSettings {
    pub threshold: f64,
    pub hold_ms: f64,
    pub gate_lufs: Lufs,
}

// Whether speech is on, the smoothed probability, onsets and offsets so far, the frames left in the hold, and the speech power: the mean power of
// the frames with speech (1 s time constant), none before the first since a reset.
#[derive(Clone, Copy)]
pub struct Decision {
    pub active: bool,
    pub probability: f64,
    pub onsets: u64,
    pub offsets: u64,
    pub hold: u32,
    pub power: Option<f64>,
}

// What is answered of a strand after a frame; the speech level, dBFS, is the speech power as shown.
#[derive(Clone, Copy)]
pub struct VadState {
    pub speech_active: bool,
    pub speech_probability: f64,
    pub speech_level: Option<f64>,
    pub level_dbfs: f64,
    pub momentary_lufs: Lufs,
    pub gated: bool,
    pub short_term_lufs: Lufs,
    pub speech_onsets: u64,
    pub speech_offsets: u64,
    pub features: Features,
}

#[derive(Clone, Copy)]
pub struct Strand {
    pub level: Level,
    pub detector: FeatureDetector,
    pub decision: Decision,
}

// The strand after a frame, its loudness, and what is answered. `finite` says that every number that is stored, answered, or handed to the
// logarithm, a power, the root or the narrowing is finite; `full` that the frame takes the onsets past their limit. They are flags beside the values,
// which are promised whatever they say, since the numbers and the onsets of both strands are tested together.
#[derive(Clone, Copy)]
pub struct Framed {
    pub strand: Strand,
    pub reading: Reading,
    pub state: VadState,
    pub finite: bool,
    pub full: bool,
}

// The frame's probability as the decision hears it: 0 while the signal is below the gate.
#[tactic(auto, unfolding(crate::specs::Decision::heard_of))]
fn heard(gated: bool, probability: f64) -> f64
    ensures { result ≡ heard_of gated probability }
{
    float::pick(gated, 0.0, probability)
}

// The smoothed probability p with a frame's: half of the way up, a fifth of the way down.
#[tactic(auto, unfolding(crate::specs::Decision::smoothed_of))]
fn smoothed(p: f64, probability: f64) -> f64
    ensures { result ≡ smoothed_of p probability }
{
    float::toward(p, probability, float::pick(p < probability, 0.5, 0.2))
}

// Speech that turns on at `on` goes off strictly below this.
#[tactic(auto, unfolding(crate::specs::Decision::off_of))]
fn off_below(on: f64) -> f64
    ensures { result ≡ off_of on }
{
    float::max(on - 0.15, 0.05)
}

// The frames of a hold: a tenth of its ms, to the nearest whole number, half upward; none below 0, and at most what a u32 holds.
#[tactic(auto, unfolding(crate::specs::Hold::hold_frames))]
pub fn hold_frames(ms: f64) -> u32
    ensures { result ≡ hold_frames ms }
{
    std::num::saturating_f64_to_u32(float::round(ms / 10.0))
}

impl Decision {
    // At or above the threshold: speech turns on, or stays on, and the hold is filled.
    #[tactic(auto, unfolding(crate::specs::Decision::onset_of))]
    fn onset(mut self, frames: u32) -> Decision
        ensures { result ≡ onset_of self frames }
    {
        self.hold = frames;
        if self.active {
            return self;
        }
        self.onsets = self.onsets.wrapping_add(1);
        self.active = true;
        self
    }

    // Strictly below the lower threshold while speech is on: the hold counts down, and then speech goes off.
    #[tactic(auto, unfolding(crate::specs::Decision::offset_of))]
    fn offset(mut self) -> Decision
        ensures { result ≡ offset_of self }
    {
        if self.hold == 0 {
            self.offsets = self.offsets.wrapping_add(1);
            self.active = false;
            return self;
        }
        self.hold -= 1;
        self
    }

    // Threshold with hysteresis and hold. On is tested before off.
    #[tactic(auto, unfolding(crate::specs::Decision::switch_of))]
    fn switched(self, on: f64, off: f64, frames: u32) -> Decision
        ensures { result ≡ switch_of self on off frames }
    {
        if self.probability >= on {
            return self.onset(frames);
        }
        if self.active {
            if self.probability < off {
                return self.offset();
            }
        }
        self
    }

    // The speech power with a frame's level, dBFS, while speech is on: a hundredth of the way, which is a time constant of 1 s.
    #[tactic(auto, unfolding(crate::specs::Decision::voiced_of, crate::specs::Decision::mean_of))]
    fn voiced(self, dbfs: f64) -> Decision
        ensures { result ≡ voiced_of self dbfs }
    {
        if self.active {
            let power = power::exp10(dbfs / 10.0);
            let mean = self.power.map_or(power, |m| float::toward(m, power, 0.01));
            return Decision {
                power: Some(mean),
                ..self
            };
        }
        self
    }

    // The decision with a frame: its probability as heard, and its level, dBFS.
    #[tactic(auto, unfolding(crate::specs::Decision::decide_of))]
    pub fn decide(mut self, probability: f64, dbfs: f64, settings: VadSettings) -> Decision
        ensures { result ≡ decide_of self probability dbfs settings }
    {
        self.probability = smoothed(self.probability, probability);
        let on = settings.threshold;
        let next = self.switched(on, off_below(on), hold_frames(settings.hold_ms));
        next.voiced(dbfs)
    }

    // Whether an onset that leads to `next` takes the onsets past their limit.
    #[tactic(auto, unfolding(crate::specs::Decision::full_of))]
    fn full(self, next: Decision) -> bool
        ensures { result ≡ full_of self next }
    {
        !self.active && next.active && self.onsets >= ONSET_LIMIT
    }
}

// The features as shown.
#[tactic(auto, unfolding(crate::specs::State::rounded_of, crate::specs::State::hundredths_of))]
fn rounded(f: Features) -> Features
    ensures { result ≡ rounded_of f }
{
    Features {
        over_floor_db: float::round_to(f.over_floor_db, 100.0),
        modulation_db: float::round_to(f.modulation_db, 100.0),
        voicing: float::round_to(f.voicing, 100.0),
        anti: float::round_to(f.anti, 100.0),
    }
}

// The speech level from the stored speech power, whether speech is on or off.
#[tactic(auto, unfolding(crate::specs::State::speech_level_of, crate::specs::State::tenths_of))]
fn speech_level(p: Option<f64>) -> Option<f64>
    ensures { result ≡ speech_level_of p }
{
    p.map(|m| float::round_to(detector::db(m), 10.0))
}

// What is answered, with the decision d after the frame.
#[tactic(auto, unfolding(crate::specs::State::state_of, crate::specs::State::tenths_of))]
fn state(d: Decision, gated: bool, frame: Frame, reading: Reading) -> VadState
    ensures { result ≡ state_of d gated frame reading }
{
    VadState {
        speech_active: d.active,
        speech_probability: d.probability,
        speech_level: speech_level(d.power),
        level_dbfs: frame.level_dbfs,
        momentary_lufs: Lufs(float::round_to(reading.momentary.0, 10.0)),
        gated,
        short_term_lufs: Lufs(float::round_to(reading.short_term.0, 10.0)),
        speech_onsets: d.onsets,
        speech_offsets: d.offsets,
        features: rounded(frame.features),
    }
}

// Whether every number that the decision d stores, answers as s, or hands to the power or the logarithm is finite.
fn numbers_finite(d: Decision, s: VadState) -> bool
    ensures { result ≡ all_finite (numbers_of d s) }
{
    let f = s.features;
    let numbers = [
        d.probability,
        d.power.unwrap_or(0.0),
        float::pick(d.active, s.level_dbfs / 10.0, 0.0),
        s.speech_level.unwrap_or(0.0),
        s.level_dbfs,
        s.momentary_lufs.0,
        s.short_term_lufs.0,
        f.over_floor_db,
        f.modulation_db,
        f.voicing,
        f.anti,
    ];
    float::all_finite(&numbers)
}

// What follows level and detector over a frame: the decision, and what is answered.
pub fn finish(d: Decision, l: level::Framed, h: Heard, settings: VadSettings) -> Framed
    ensures { result ≡ finish_of d l h settings }
{
    let reading = l.reading;
    let frame = h.frame;
    let gated = reading.momentary.0 < settings.gate_lufs.0;
    let decision = d.decide(heard(gated, frame.probability), frame.level_dbfs, settings);
    let shown = state(decision, gated, frame, reading);
    Framed {
        strand: Strand {
            level: l.level,
            detector: h.detector,
            decision,
        },
        reading,
        state: shown,
        finite: l.finite & h.finite & numbers_finite(decision, shown),
        full: d.full(decision),
    }
}

impl Decision {
    // No speech yet.
    pub fn new() -> Self
        ensures { result ≡ no_speech }
    {
        Self {
            active: false,
            probability: 0.0,
            onsets: 0,
            offsets: 0,
            hold: 0,
            power: None,
        }
    }

    // Speech that was active ends; the counts stay, and the rest is new.
    #[tactic(auto, unfolding(crate::specs::Strand::stopped_of))]
    pub fn stopped(self) -> Decision
        ensures { result ≡ stopped_of self }
    {
        Decision {
            onsets: self.onsets,
            offsets: self.offsets.wrapping_add(u64::from(self.active)),
            ..Decision::new()
        }
    }
}

impl Strand {
    // A strand that has heard nothing.
    pub fn new() -> Self
        ensures { result ≡ fresh_of }
    {
        Self {
            level: Level::new(),
            detector: FeatureDetector::new(),
            decision: Decision::new(),
        }
    }

    // One frame: level, detector, then the decision.
    #[tactic(auto, unfolding(crate::specs::Strand::frame_of))]
    pub fn frame(self, xs: &[f32], settings: VadSettings) -> Framed
        ensures { result ≡ frame_of self xs.now settings }
    {
        finish(
            self.decision,
            self.level.frame(xs),
            self.detector.frame(xs),
            settings,
        )
    }

    // A new strand with the counts of this one; speech that was active counts as ended.
    #[tactic(auto, unfolding(crate::specs::Strand::reset_of))]
    pub fn reset(self) -> Strand
        ensures { result ≡ reset_of self }
    {
        Strand {
            level: Level::new(),
            detector: FeatureDetector::new(),
            decision: self.decision.stopped(),
        }
    }
}
