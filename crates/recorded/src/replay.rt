// What has been compared of a recorded file of lists of answers.
use super::file;
use super::file::{EndsEarly, Words};
use std::fmt;
use std::io::Stdout;

// How many differing answers are shown.
pub const SHOWN: u64 = 5;

#[derive(Drop)]
pub struct Replay<'a> {
    out: Stdout,
    name: &'a str,
    pub words: Words,
    counts: Counts,
}

#[derive(Clone, Copy, Default)]
pub struct Counts {
    lists: u64,
    answers: u64,
    differ: u64,
}

// An answer that is being compared with the file's next words.
#[derive(Drop)]
pub struct Answer<'r, 'a> {
    replay: &'r mut Replay<'a>,
    place: u64, // in its list, counted from 0
    word: u64, // how many of its words were compared
    wrong: bool, // whether it differs so far
}

impl<'a> Replay<'a> {
    fn new(out: Stdout, name: &'a str, words: Words) -> Replay<'a> {
        Replay {
            out,
            name,
            words,
            counts: Counts::default(),
        }
    }

    // A list begins.
    pub fn begin(&mut self) {
        self.counts.lists = self.counts.lists.saturating_add(1);
    }

    // The list's answer at a place.
    pub fn answer(&mut self, place: u64) -> Answer<'_, 'a> {
        Answer {
            replay: self,
            place,
            word: 0,
            wrong: false,
        }
    }

    // Lets `next` go over the file behind its text, a record at a time. That the closure can be called is asked, here and below, wherever it is handed on.
    fn all<F: FnMut(&mut Replay<'a>) -> Result<(), EndsEarly>>(
        &mut self,
        mut next: F,
    ) -> Result<(), EndsEarly>
        requires { F.IsAlwaysCallable next }
    {
        self.words.text()?;
        // No `while`: nothing says that each turn reads a word. The count says that the loop ends.
        for _ in 0..u64::MAX {
            if self.words.is_at_end()? {
                break;
            }
            next(self)?;
        }
        Ok(())
    }

    // Compares the list's next words with those of a whole answer.
    pub fn compare(&mut self, place: u64, words: &[u64]) -> Result<(), EndsEarly> {
        let mut answer = self.answer(place);
        answer.compare(words)?;
        answer.count();
        Ok(())
    }
}

impl<'r, 'a> Answer<'r, 'a> {
    // It differs, as `how` says: that is shown while few have been. Lists are counted from 0.
    fn differs(&mut self, how: impl fmt::Display + Drop) {
        if self.replay.counts.differ < SHOWN {
            let name = self.replay.name;
            let list = self.replay.counts.lists.wrapping_sub(1);
            let place = self.place;
            let _ = println!(self.replay.out; "{name}: list {list}, place {place}{how}");
        }
        self.wrong = true;
    }

    // The next recorded word, compared with the computed one.
    pub fn word(&mut self, computed: u64) -> Result<u64, EndsEarly> {
        let recorded = self.replay.words.word()?;
        if recorded != computed {
            let word = self.word;
            self.differs(format_args!(
                ", word {word}: recorded {recorded:016x}, computed {computed:016x}"
            ));
        }
        self.word = self.word.saturating_add(1);
        Ok(recorded)
    }

    // Compares the next words with a part of the computed ones.
    pub fn compare(&mut self, words: &[u64]) -> Result<(), EndsEarly> {
        for computed in words {
            self.word(*computed)?;
        }
        Ok(())
    }

    // The Rust accepted each recorded frame, so one that runs away differs, also where the file ends within the frame. A flag, as each step has it beside its
    // values: its words are compared all the same.
    pub fn accept(&mut self, finite: bool) {
        if !finite {
            self.differs(": runs away");
        }
    }

    // The answer is whole.
    pub fn count(self) {
        let Answer { replay, wrong, .. } = self;
        replay.counts.answers = replay.counts.answers.saturating_add(1);
        replay.counts.differ = replay.counts.differ.saturating_add(u64::from(wrong));
    }
}

// Lets `next` replay the file with this name, a record at a time, and says why where that doesn't come to the file's end. What was counted.
pub fn records<F: FnMut(&mut Replay) -> Result<(), EndsEarly>>(
    rt: &HostRuntime,
    name: &str,
    next: F,
) -> Counts
    requires { F.IsAlwaysCallable next }
{
    let out = rt.stdout();
    match file::open(rt, name) {
        Ok(words) => {
            let mut replay = Replay::new(out, name, words);
            if let Err(why) = replay.all(next) {
                let _ = println!(out; "{name}: {why}");
            }
            replay.counts
        }
        Err(_) => {
            let _ = println!(out; "{name}: no such file");
            Counts::default()
        }
    }
}

// Lets `next` replay the file of a module, a record at a time, and says what its lists and its answers came to.
pub fn module<F: FnMut(&mut Replay) -> Result<(), EndsEarly>>(
    rt: &HostRuntime,
    name: &str,
    lists: &str,
    answers: &str,
    next: F,
)
    requires { F.IsAlwaysCallable next }
{
    let counts = records(rt, name, next);
    let list_count = counts.lists;
    let answer_count = counts.answers;
    let differ = counts.differ;
    let _ = println!(rt; "{name}: {list_count} {lists}, {answer_count} {answers}, {differ} differ");
}
