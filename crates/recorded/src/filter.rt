// The six sections against the recorded outputs. A list: section, signal (3 words), count; then the outputs of the samples 0 to
// count - 1 and the state after them, z1 and z2.
use super::file::{EndsEarly, Words};
use super::lists::List;
use super::replay::Replay;
use super::signal::Signal;
use biquad::{Coefficients, State};

#[derive(Clone, Copy)]
pub struct Filter {
    section: Coefficients,
    signal: Signal,
    state: State,
}

// A section by its place in the image. An unknown place is the last one's.
fn section(place: u64) -> Coefficients {
    let sections = biquad::sections();
    sections[(place as usize).min(sections.len() - 1)]
}

impl List for Filter {
    fn begin(words: &mut Words) -> Result<(Filter, u64), EndsEarly> {
        let place = words.word()?;
        let signal = Signal::from(words.array()?);
        let filter = Filter {
            section: section(place),
            signal,
            state: State::new(),
        };
        Ok((filter, words.word()?))
    }

    fn step(&mut self, replay: &mut Replay, i: u64) -> Result<(), EndsEarly> {
        let t = self
            .state
            .tick(self.section, f64::from(self.signal.sample(i)));
        self.state = t.state;
        replay.compare(i, &[float::to_bits(t.y)])
    }

    fn end(&self, replay: &mut Replay, count: u64) -> Result<(), EndsEarly> {
        replay.compare(
            count,
            &[float::to_bits(self.state.z1), float::to_bits(self.state.z2)],
        )
    }
}
