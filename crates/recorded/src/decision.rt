// The decision against the recorded answers. A list: threshold, hold_ms, gate_lufs, count of frames; then for each frame 8 inputs
// (probability, level_dbfs, 4 features, momentary, short_term), the 14 words of the answer, the frames left in the hold, and the speech
// power as flag and value.
use super::file::{EndsEarly, Words};
use super::lists::List;
use super::replay::Replay;
use detector::{FeatureDetector, Features, Frame, Heard};
use float::Lufs;
use level::{Level, Reading};
use vad::{Decision, VadSettings};

#[derive(Clone, Copy)]
pub struct Decisions {
    settings: VadSettings,
    decision: Decision,
}

// What the detector answers, from its words.
fn heard(words: [u64; 6]) -> Heard {
    let [
        probability,
        level_dbfs,
        over_floor_db,
        modulation_db,
        voicing,
        anti,
    ] = words.map(float::from_bits);
    Heard {
        detector: FeatureDetector::new(),
        frame: Frame {
            probability,
            level_dbfs,
            features: Features {
                over_floor_db,
                modulation_db,
                voicing,
                anti,
            },
        },
        finite: true,
    }
}

// What the level answers, from its words. The decision reads neither the power nor the fast loudness.
fn loudness(words: [u64; 2]) -> level::Framed {
    let [momentary, short_term] = words.map(float::from_bits);
    level::Framed {
        level: Level::new(),
        reading: Reading {
            power: 0.0,
            momentary: Lufs(momentary),
            short_term: Lufs(short_term),
            fast: Lufs(0.0),
        },
        finite: true,
    }
}

// The frames left in the hold, and the speech power as flag and value.
fn stored(d: Decision) -> [u64; 3] {
    [
        u64::from(d.hold),
        u64::from(d.power.is_some()),
        float::to_bits(d.power.unwrap_or(0.0)),
    ]
}

impl List for Decisions {
    fn begin(words: &mut Words) -> Result<(Decisions, u64), EndsEarly> {
        let [threshold, hold_ms, gate_lufs, count] = words.array::<4>()?;
        let decisions = Decisions {
            settings: words::strand_settings(threshold, hold_ms, gate_lufs),
            decision: Decision::new(),
        };
        Ok((decisions, count))
    }

    fn step(&mut self, replay: &mut Replay, i: u64) -> Result<(), EndsEarly> {
        let (frame, first) = replay.words.padded();
        let (readings, second) = replay.words.padded();
        let f = vad::finish(
            self.decision,
            loudness(readings),
            heard(frame),
            self.settings,
        );
        self.decision = f.strand.decision;
        let mut answer = replay.answer(i);
        let state = answer.compare(&words::strand(f.state));
        let after = answer.compare(&stored(self.decision));
        answer.accept(f.finite);
        first.and(second).and(state).and(after)?;
        answer.count();
        Ok(())
    }
}
