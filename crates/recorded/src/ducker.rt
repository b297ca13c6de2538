// The ratio duck against the recorded answers. A list: count of frames; then for each frame the duck's 6 settings and 6 inputs, the 13
// words of the answer and the 4 loops after it.
use super::file::{EndsEarly, Words};
use super::lists::List;
use super::replay::Replay;
use comis::loop_bank::Loops;
use float::{Db, Lufs};
use ratio::{Duck, Inputs};

#[derive(Clone, Copy)]
pub struct Ducker {
    loops: Loops,
}

// The duck's settings from their words. A flag is on where its word is 1; a call's, of crate words, where it isn't 0.
fn settings(w: [u64; 6]) -> Duck {
    let [enabled, target, overvoice, max_reduction, speed, bed_voice] = w;
    Duck {
        enabled: enabled == 1,
        target_lu: float::from_bits(target),
        overvoice_lu: float::from_bits(overvoice),
        max_reduction_db: Db(float::from_bits(max_reduction)),
        speed: float::from_bits(speed),
        bed_voice: bed_voice == 1,
    }
}

// The inputs of a frame from their words.
fn inputs(w: [u64; 6]) -> Inputs {
    let [
        key_voice,
        target_voice,
        dialogue_short_term,
        bed_short_term,
        bed_momentary,
        bed_fast,
    ] = w;
    Inputs {
        key_voice: key_voice == 1,
        target_voice: target_voice == 1,
        dialogue_short_term: Lufs(float::from_bits(dialogue_short_term)),
        bed_short_term: Lufs(float::from_bits(bed_short_term)),
        bed_momentary: Lufs(float::from_bits(bed_momentary)),
        bed_fast: Lufs(float::from_bits(bed_fast)),
    }
}

fn stored(l: Loops) -> [u64; 4] {
    [
        float::to_bits(l.slow.0),
        float::to_bits(l.mid.0),
        float::to_bits(l.fast.0),
        float::to_bits(l.hold_remaining_seconds),
    ]
}

impl List for Ducker {
    fn begin(words: &mut Words) -> Result<(Ducker, u64), EndsEarly> {
        let loops = Loops::new();
        Ok((Ducker { loops }, words.word()?))
    }

    fn step(&mut self, replay: &mut Replay, i: u64) -> Result<(), EndsEarly> {
        let (duck, first) = replay.words.padded();
        let (heard, second) = replay.words.padded();
        let f = ratio::frame(self.loops, settings(duck), inputs(heard));
        self.loops = f.loops;
        let mut answer = replay.answer(i);
        let status = answer.compare(&words::status(f.reduction, f.status));
        let after = answer.compare(&stored(self.loops));
        answer.accept(f.finite);
        first.and(second).and(status).and(after)?;
        answer.count();
        Ok(())
    }
}
