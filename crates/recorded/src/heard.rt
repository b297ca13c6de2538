// The modules that hear a signal frame by frame, against what the Rust read. A list: signal (3 words), count of frames; then the words of the
// frames that are recorded: the first 50 are, then one in ten.
use super::file::{EndsEarly, Words};
use super::lists::List;
use super::replay::Replay;
use super::signal;
use super::signal::Signal;
use detector::FeatureDetector;
use level::{FRAME, Level};

// A module that hears frames of a signal.
pub trait Hears: Copy {
    fn new() -> Self;

    // Hears frame i, and compares what it reads.
    fn hear(&mut self, x: &[f32; FRAME], replay: &mut Replay, i: u64) -> Result<(), EndsEarly>;
}

// A module within a list: the signal that it hears.
#[derive(Clone, Copy)]
pub struct Heard<H> {
    signal: Signal,
    module: H,
}

// Compares the words of frame i, where it is recorded.
fn compare(replay: &mut Replay, i: u64, words: &[u64], finite: bool) -> Result<(), EndsEarly> {
    if i < 50 || i % 10 == 0 {
        let mut answer = replay.answer(i);
        let compared = answer.compare(words);
        answer.accept(finite);
        compared?;
        answer.count();
    }
    Ok(())
}

// Its words: power, momentary, short_term and fast.
impl Hears for Level {
    fn new() -> Level {
        Level::new()
    }

    fn hear(&mut self, x: &[f32; FRAME], replay: &mut Replay, i: u64) -> Result<(), EndsEarly> {
        let f = self.frame(x);
        *self = f.level;
        let reading = f.reading;
        let words = [
            float::to_bits(reading.power),
            float::to_bits(reading.momentary.0),
            float::to_bits(reading.short_term.0),
            float::to_bits(reading.fast.0),
        ];
        compare(replay, i, &words, f.finite)
    }
}

// Its words: probability, level_dbfs and the four features.
impl Hears for FeatureDetector {
    fn new() -> FeatureDetector {
        FeatureDetector::new()
    }

    fn hear(&mut self, x: &[f32; FRAME], replay: &mut Replay, i: u64) -> Result<(), EndsEarly> {
        let h = self.frame(x);
        *self = h.detector;
        let features = h.frame.features;
        let words = [
            float::to_bits(h.frame.probability),
            float::to_bits(h.frame.level_dbfs),
            float::to_bits(features.over_floor_db),
            float::to_bits(features.modulation_db),
            float::to_bits(features.voicing),
            float::to_bits(features.anti),
        ];
        compare(replay, i, &words, h.finite)
    }
}

impl<H: Hears> List for Heard<H> {
    fn begin(words: &mut Words) -> Result<(Heard<H>, u64), EndsEarly> {
        let heard = Heard {
            signal: Signal::from(words.array()?),
            module: H::new(),
        };
        Ok((heard, words.word()?))
    }

    fn step(&mut self, replay: &mut Replay, i: u64) -> Result<(), EndsEarly> {
        let x = self.signal.frame(signal::frame_start(0, i));
        self.module.hear(&x, replay, i)
    }
}
