// Whole frames, settings calls, resets and layout calls through a chain, against what the Rust answered. The file is calls up to its end, each its
// number, its arguments, then what it answers: a code (0 passed, else the refusal), and 41 words after a frame's code 0 where they are
// recorded. compare/src/calls.rs has the arguments.
use super::file::EndsEarly;
use super::replay::Replay;
use super::strands::Strands;
use super::{file, replay, signal};
use chain::{Answer, Chain, Changed};
use layout::MOST;
use level::FRAME;
use refusal::Refusal;

// Words of an answer.
const ANSWER: usize = 41;

// Samples that the key of an odd frame has room for.
const KEY: usize = 512;

// Samples of a frame of as many channels as a bed has at most.
const BED_FRAME: usize = FRAME * MOST;

// Samples that the bed of an odd frame has room for: such a frame's, and one more.
const BED: usize = BED_FRAME + 1;

#[derive(Clone, Copy)]
enum Call {
    // A fresh chain: a list begins.
    Fresh,
    // Frames that follow one another, of a bed of one channel.
    Frames,
    // One frame of any lengths, in which a sample may be replaced, of such a bed.
    OddFrame,
    Set,
    Reset,
    Layout,
    // Frames of a bed of several channels.
    SurroundFrames,
    // An odd frame of such a bed.
    OddSurroundFrame,
}

// A call by its number in a recorded file, which counts as ended at an unknown one.
impl TryFrom<u64> for Call {
    type Error = EndsEarly;

    fn try_from(number: u64) -> Result<Call, EndsEarly> {
        match number {
            0 => Ok(Call::Fresh),
            1 => Ok(Call::Frames),
            2 => Ok(Call::OddFrame),
            3 => Ok(Call::Set),
            4 => Ok(Call::Reset),
            5 => Ok(Call::Layout),
            6 => Ok(Call::SurroundFrames),
            7 => Ok(Call::OddSurroundFrame),
            _ => Err(EndsEarly),
        }
    }
}

// The strand of which an odd frame replaces a sample.
#[derive(Clone, Copy)]
enum Strand {
    Key,
    Bed,
}

impl Strand {
    // A strand by its number in a recorded file; none at another number, and no error as for a call, since no sample is replaced then.
    fn numbered(number: u64) -> Option<Strand> {
        match number {
            0 => Some(Strand::Key),
            1 => Some(Strand::Bed),
            _ => None,
        }
    }
}

// The chain for the next call, and how many calls its list has had.
#[derive(Clone, Copy)]
struct Calls {
    chain: Chain,
    place: u64,
}

// The words of an answer. Zeros stand for those of a frame that the port refuses.
fn answer_words(outcome: Result<Answer, Refusal>) -> [u64; ANSWER] {
    outcome.map_or([0; ANSWER], words::answer)
}

// Replaces a sample, where there is such a one, by the f32 whose bits are in a word.
fn replace(x: &mut [f32], at: u64, word: u64) {
    if let Some(sample) = x.get_mut(at as usize) {
        *sample = file::value32(word);
    }
}

impl Calls {
    fn new() -> Calls {
        Calls {
            chain: Chain::new(),
            place: 0,
        }
    }

    // The place of the call, which is over.
    fn next(&mut self) -> u64 {
        let place = self.place;
        self.place = place.saturating_add(1);
        place
    }

    // A frame: its code, and its answer where that is recorded, as it is of a frame that passed if `whole`.
    fn frame(
        &mut self,
        replay: &mut Replay,
        key: &[f32],
        bed: &[f32],
        whole: bool,
    ) -> Result<(), EndsEarly> {
        let f = self.chain.frame(key, bed);
        self.chain = f.chain;
        let mut answer = replay.answer(self.next());
        let recorded = answer.word(refusal::code(f.outcome))?;
        if whole && recorded == 0 {
            answer.compare(&answer_words(f.outcome))?;
        }
        answer.count();
        Ok(())
    }

    // Frames, of which one in `every` is recorded whole; none where that is 0.
    fn frames(&mut self, replay: &mut Replay, strands: Strands) -> Result<(), EndsEarly> {
        let [first, count, every] = replay.words.array::<3>()?;
        let mut room = [0.0; BED_FRAME];
        let bed = &mut room[..strands.bed_length()];
        for i in 0..count {
            let start = signal::frame_start(first, i);
            strands.fill_bed(start, bed);
            let whole = i.checked_rem(every) == Some(0);
            self.frame(replay, &strands.key.frame(start), bed, whole)?;
        }
        Ok(())
    }

    // One frame of any lengths, in which a sample of a strand may be replaced.
    fn odd_frame(&mut self, replay: &mut Replay, strands: Strands) -> Result<(), EndsEarly> {
        let [first, key_length, bed_length, strand, at, sample] = replay.words.array::<6>()?;
        let mut key_room = [0.0; KEY];
        let mut bed_room = [0.0; BED];
        let key = key_room.get_mut(..key_length as usize).ok_or(EndsEarly)?;
        let bed = bed_room.get_mut(..bed_length as usize).ok_or(EndsEarly)?;
        strands.key.fill(first, key);
        strands.fill_bed(first, bed);
        match Strand::numbered(strand) {
            Some(Strand::Key) => replace(key, at, sample),
            Some(Strand::Bed) => replace(bed, at, sample),
            None => {}
        }
        self.frame(replay, key, bed, true)
    }

    // The code of a settings call, of a reset or of a layout call.
    fn changed(&mut self, replay: &mut Replay, c: Changed) -> Result<(), EndsEarly> {
        self.chain = c.chain;
        replay.compare(self.next(), &[refusal::code(c.outcome)])
    }

    fn set(&mut self, replay: &mut Replay) -> Result<(), EndsEarly> {
        let settings = words::settings(&replay.words.array()?);
        self.changed(replay, self.chain.set(settings))
    }

    fn reset(&mut self, replay: &mut Replay) -> Result<(), EndsEarly> {
        let strand = replay.words.word()?;
        self.changed(replay, self.chain.reset(strand))
    }

    fn layout(&mut self, replay: &mut Replay) -> Result<(), EndsEarly> {
        let count = replay.words.word()?;
        let layout = words::layout(count, &replay.words.array()?);
        self.changed(replay, self.chain.layout(layout))
    }

    fn call(&mut self, replay: &mut Replay, call: Call) -> Result<(), EndsEarly> {
        match call {
            Call::Fresh => {
                replay.begin();
                *self = Calls::new();
                Ok(())
            }
            Call::Frames => {
                let strands = Strands::of_one(&mut replay.words)?;
                self.frames(replay, strands)
            }
            Call::OddFrame => {
                let strands = Strands::of_one(&mut replay.words)?;
                self.odd_frame(replay, strands)
            }
            Call::Set => self.set(replay),
            Call::Reset => self.reset(replay),
            Call::Layout => self.layout(replay),
            Call::SurroundFrames => {
                let strands = Strands::of_several(&mut replay.words)?;
                self.frames(replay, strands)
            }
            Call::OddSurroundFrame => {
                let strands = Strands::of_several(&mut replay.words)?;
                self.odd_frame(replay, strands)
            }
        }
    }
}

// Replays the calls of the file with this name.
pub fn module(rt: &HostRuntime, name: &str) {
    let mut calls = Calls::new();
    replay::module(rt, name, "lists", "calls", |replay| {
        let call = Call::try_from(replay.words.word()?)?;
        calls.call(replay, call)
    });
}
