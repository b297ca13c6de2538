// duckline's lines (specs/Line.antt), put into a text that is lent: an array and the place after what was put, since duckline takes no heap while it
// runs. By hand: each byte is promised, and `write!` doesn't say which bytes it writes.
#![tactic(auto)]

ghost use Rattle.std.specs.Prelude.{◌≡◌, ◌+◌, ◌-◌, ◌^◌, ◌≤◌, min, ◌++◌, length};
ghost use Rattle.program.specs.Text.{ascii};
ghost use Rattle.line_text.specs.Line.{decimal, line, state_name, active_name, hundredths_of, answer_words, line_of, short_line, put_at};

use chain::Answer;
use comis::mix_state::MixState;
use refusal::Refusal;

// Bytes of the lines of 16 frames: at most 64 a line.
pub const TEXT: usize = 1024;

// Puts bytes at a place of the text, and answers the place after them. What has no place in the text is dropped. Here and below the
// caller shows that places don't wrap, with another n for each part: a type for text and place would need the same bound at each part.
#[tactic(auto, using(crate::proofs::Putting::laid_there))]
fn put(text: &mut [u8; TEXT], at: usize, bytes: &[u8]) -> usize
    requires { at + length bytes.now ≤ 2 ^ 32 }
    ensures { record { bytes = text.new; end = result } ≡ put_at text.old at bytes.now }
{
    let start = at.min(TEXT);
    let n = bytes.len().min(TEXT - start);
    text[start..start + n].copy_from_slice(&bytes[..n]);
    at + bytes.len()
}

// A number: at most 20 bytes.
fn put_number(text: &mut [u8; TEXT], at: usize, n: u64) -> usize
    requires { at + 20 ≤ 2 ^ 32 }
    ensures { record { bytes = text.new; end = result } ≡ put_at text.old at (decimal n) }
{
    let mut digits = [0u8; 20];
    let count = io::decimal(n, &mut digits);
    put(text, at, &digits[..count])
}

// A state's name between two spaces: at most 11 bytes.
fn state_text(state: MixState) -> &'static [u8]
    ensures { result.now ≡ ascii " " ++ ascii (state_name state) ++ ascii " " }
{
    match state {
        MixState::ReleaseToUnity => b" release ",
        MixState::DuckToTarget => b" duck ",
        MixState::InterviewPassthrough => b" interview ",
        MixState::DuckToOvervoice => b" overvoice ",
    }
}

// Whether speech is active, and a space.
fn active_text(active: bool) -> &'static [u8]
    ensures { result.now ≡ ascii (active_name active) ++ ascii " " }
{
    if active { b"1 " } else { b"0 " }
}

// A rounded reduction, dB, in hundredths, cast as Rust's `as u64` does.
#[tactic(auto, unfolding(crate::specs::Line::hundredths_of))]
fn hundredths(reduction: f64) -> u64
    ensures { result ≡ hundredths_of reduction }
{
    std::num::saturating_f64_to_u64(float::round(reduction * 100.0))
}

// What follows a frame's number: at most 36 bytes.
fn put_answer(text: &mut [u8; TEXT], at: usize, a: Answer) -> usize
    requires { at + 36 ≤ 2 ^ 32 }
    ensures { record { bytes = text.new; end = result } ≡ put_at text.old at (ascii " " ++ line (answer_words a)) }
{
    let status = a.status;
    let state = status.state;
    let reduction = status.reduction_db;
    let key = put(text, at, state_text(state));
    let bed = put(text, key, active_text(a.key.speech_active));
    let number = put(text, bed, active_text(a.bed.speech_active));
    let end = put_number(text, number, hundredths(reduction.0));
    put(text, end, b"\n")
}

// A frame's line, at most 64 bytes. The place is a u16, so that nothing is asked of a caller.
pub fn frame(text: &mut [u8; TEXT], at: u16, number: u64, outcome: Result<Answer, Refusal>) -> usize
    ensures { record { bytes = text.new; end = result } ≡ put_at text.old at (line_of number outcome) }
{
    let middle = put_number(text, at as usize, number);
    match outcome {
        Ok(a) => put_answer(text, middle, a),
        Err(refusal) => {
            let code = put(text, middle, b" refused ");
            let end = put_number(text, code, u64::from(refusal));
            put(text, end, b"\n")
        }
    }
}

// The line of leftover bytes, where there are any.
pub fn short(text: &mut [u8; TEXT], left: usize) -> usize
    ensures line { record { bytes = text.new; end = result } ≡ put_at text.old 0 (short_line left) }
    ensures room { result ≤ 64 }
{
    if left == 0 {
        return 0;
    }
    let number = put(text, 0, b"short ");
    let end = put_number(text, number, left as u64);
    put(text, end, b"\n")
}
