// The modules whose recorded files are lists of answers, each list from a fresh state.
use super::file::{EndsEarly, Words};
use super::replay::Replay;

// A module within a list: what its next answer comes from.
pub trait List: Copy {
    // Reads the words that a list begins with: the module before the list's answers, and how many these are.
    fn begin(words: &mut Words) -> Result<(Self, u64), EndsEarly>;

    // Computes and compares answer i.
    fn step(&mut self, replay: &mut Replay, i: u64) -> Result<(), EndsEarly>;

    // Compares what the list ends with, behind its answers: nothing more, where the module doesn't say otherwise.
    fn end(&self, _replay: &mut Replay, _count: u64) -> Result<(), EndsEarly> {
        Ok(())
    }
}

// The next list of a module's file.
pub fn one<L: List>(replay: &mut Replay) -> Result<(), EndsEarly> {
    let (mut list, count) = L::begin(&mut replay.words)?;
    replay.begin();
    for i in 0..count {
        list.step(replay, i)?;
    }
    list.end(replay, count)
}
