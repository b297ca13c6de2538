// Answers on standard output, as words.
ghost use Rattle.std.specs.Prelude.{◌≡◌};
ghost use Rattle.std.specs.Int.{w64, to_le_bytes};

use super::input::IMAGE;
use chain::Answer;
use refusal::Refusal;
use std::io;

// Words of the answer to a frame that passes.
const WORDS: usize = 42;

// A word's bytes, the lowest first.
fn bytes(word: u64) -> [u8; 8]
    ensures { result ≡ to_le_bytes w64 word }
{
    word.to_le_bytes()
}

// The code of a frame that passed, 0, and the words of its answer, in one write.
fn passed(rt: &HostRuntime, a: Answer) -> io::Result<()> {
    let mut answer = [0u64; WORDS];
    answer[1..].copy_from_slice(&words::answer(a));
    rt.write_all(answer.map(bytes).as_flattened())
}

// A call's code: 0 where it passed, else the refusal's number. All that most calls are answered.
pub fn code<T: Copy>(rt: &HostRuntime, outcome: Result<T, Refusal>) -> io::Result<()> {
    rt.write_all(&bytes(refusal::code(outcome)))
}

// What a frame got.
pub fn frame(rt: &HostRuntime, outcome: Result<Answer, Refusal>) -> io::Result<()> {
    match outcome {
        Ok(a) => passed(rt, a),
        Err(_) => code(rt, outcome),
    }
}

// What a save into lent bytes got, of which the first 11,264 are the image where it passed.
pub fn saved(rt: &HostRuntime, verdict: Result<(), Refusal>, lent: &[u8; IMAGE]) -> io::Result<()> {
    code(rt, verdict)?;
    if verdict.is_ok() {
        rt.write_all(&lent[..image::BYTES])?;
    }
    Ok(())
}
