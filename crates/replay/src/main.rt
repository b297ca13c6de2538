// Runs the calls of standard input on one chain, from fresh, and writes each answer to standard output before it reads on. Numbers are
// little-endian; a word has 64 bits.
//
// Calls: F, a frame: two counts of 32 bits, then that many samples, f32, of the key and of the bed, the bed's channels one after the other. S,
// settings: 12 words in the image's order, of which words 7 and 12 are flags, 0 or not. R, a reset: one word, the strand. B, a layout: a count of 32
// bits, then that many times three words: azimuth and elevation in degrees, in two's complement, and the LFE flag, 0 or 1. V, a save: a count of 32
// bits, the bytes of the lent buffer. L, a restore: a count of 32 bits, then that many bytes.
//
// Answers: one word, 0 or the refusal's number. After a save's 0 comes the image, 11,264 bytes. After a frame's 0 come 41 words: state (0 release,
// 1 duck, 2 interview, 3 overvoice), the unrounded reduction, reduction_db, slow_db, mid_db, fast_db, target_lu; ratio_lu, dialogue_lufs and
// bed_lufs, each as flag and value; then for key and bed active, probability, speech_level as flag and value, level_dbfs, momentary_lufs, gated,
// short_term_lufs, onsets, offsets, over_floor_db, modulation_db, voicing, anti. A float is its bits, and an absent value 0.
#![tactic(auto)]

mod answers;
mod input;

use chain::{Chain, Changed};
use input::{IMAGE, STRAND, Short};
use std::io::ErrorKind;
use std::{fmt, io};

// Why a call isn't answered.
#[derive(Drop)]
enum Failure {
    Unknown,
    // The input ends within the call.
    Short,
    Unwritten(io::Error),
}

impl From<Short> for Failure {
    fn from(_: Short) -> Failure {
        Failure::Short
    }
}

impl From<io::Error> for Failure {
    fn from(why: io::Error) -> Failure {
        Failure::Unwritten(why)
    }
}

// The call that isn't answered, counted from 1.
#[derive(Drop)]
struct Stopped {
    call: u64,
    why: Failure,
}

impl fmt::Display for Stopped {
    fn fmt<W: fmt::Write>(&self, f: &mut fmt::Formatter<W>) -> fmt::Result {
        let call = self.call;
        match &self.why {
            Failure::Unknown => write!(f, "call {call} is none of F, S, R, B, V and L"),
            Failure::Short => write!(f, "the input ends within call {call}"),
            Failure::Unwritten(_) => write!(f, "the answer to call {call} could not be written"),
        }
    }
}

// F. Of a strand of more than 3,841 samples 3,841 are kept, and the chain refuses these alike.
fn frame(rt: &HostRuntime, chain: Chain) -> Result<Chain, Failure> {
    let mut key = [0.0f32; STRAND];
    let mut bed = [0.0f32; STRAND];
    let key_count = input::next_count(rt)?;
    let bed_count = input::next_count(rt)?;
    let key = input::next_strand(rt, key_count, &mut key)?;
    let bed = input::next_strand(rt, bed_count, &mut bed)?;
    let f = freightpetal::frame(chain, key, bed);
    answers::frame(rt, f.outcome)?;
    Ok(f.chain)
}

// The answer to a settings call, a reset, a layout call or a restore.
fn changed(rt: &HostRuntime, c: Changed) -> Result<Chain, Failure> {
    answers::code(rt, c.outcome)?;
    Ok(c.chain)
}

// S.
fn set(rt: &HostRuntime, chain: Chain) -> Result<Chain, Failure> {
    let w = input::next_words(rt)?;
    changed(rt, freightpetal::set(chain, words::settings(&w)))
}

// R.
fn reset(rt: &HostRuntime, chain: Chain) -> Result<Chain, Failure> {
    let strand = input::next_word(rt)?;
    changed(rt, freightpetal::reset(chain, strand))
}

// B. Of more than eight channels the places of eight are kept, and the chain refuses the layout by its count.
fn layout(rt: &HostRuntime, chain: Chain) -> Result<Chain, Failure> {
    let count = input::next_count(rt)?;
    let places = input::next_places(rt, count)?;
    let layout = words::layout(u64::from(count), &places);
    changed(rt, freightpetal::layout(chain, layout))
}

// V. Of a buffer of more than 11,265 bytes 11,265 are lent, and both are refused alike.
fn save(rt: &HostRuntime, chain: Chain) -> Result<Chain, Failure> {
    let count = input::next_count(rt)?;
    let mut lent = [0u8; IMAGE];
    let n = input::kept(u64::from(count), IMAGE);
    let verdict = freightpetal::save(chain, &mut lent[..n]);
    answers::saved(rt, verdict, &lent)?;
    Ok(chain)
}

// L. Of more than 11,265 bytes 11,265 are kept, and the restore refuses both alike.
fn restore(rt: &HostRuntime, chain: Chain) -> Result<Chain, Failure> {
    let count = input::next_count(rt)?;
    let mut bytes = [0u8; IMAGE];
    let bytes = input::next_image(rt, u64::from(count), &mut bytes)?;
    changed(rt, freightpetal::restore(chain, bytes))
}

// The call that begins with a letter: a match, and no enum or table, since each letter has a function of its own and is looked at once, here.
fn call(rt: &HostRuntime, chain: Chain, letter: u8) -> Result<Chain, Failure> {
    match letter {
        b'F' => frame(rt, chain),
        b'S' => set(rt, chain),
        b'R' => reset(rt, chain),
        b'B' => layout(rt, chain),
        b'V' => save(rt, chain),
        b'L' => restore(rt, chain),
        _ => Err(Failure::Unknown),
    }
}

// All calls, up to the one that isn't answered.
fn calls(rt: &HostRuntime) -> Result<(), Stopped> {
    let mut chain = freightpetal::new();
    // No `while`: nothing says that the input ends. The numbers say that the loop does.
    for number in 1..u64::MAX {
        let Some(letter) = input::next_letter(rt) else {
            break;
        };
        chain = call(rt, chain, letter).map_err(|why| Stopped { call: number, why })?;
    }
    Ok(())
}

// What stops the calls is said on standard error, but that nobody reads the answers any more.
fn main(rt: HostRuntime) {
    match calls(&rt) {
        Err(
            Stopped {
                why: Failure::Unwritten(e),
                ..
            },
        ) if e.kind() == ErrorKind::BrokenPipe => {}
        Err(stopped) => {
            let _ = eprintln!(rt; "replay: {stopped}");
        }
        Ok(()) => {}
    }
}
