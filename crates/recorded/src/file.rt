// A recorded file: 256 bytes of text, then words of 64 bits, little-endian, in lists. It is read as it is gone over.
ghost use Rattle.std.specs.Prelude.{◌≡◌, ◌↔◌, ◌-◌, ◌<◌, ◌≤◌, ◌%◌, ◌^◌, ⊤, [], length, take, drop, slice_range, from_bits, MatchResult, OnOk, IsOk, IsErr, IsTrue};
ghost use Rattle.std.specs.Int.{w64, from_le_bytes};
ghost use Rattle.std.specs.Float.{binary32};
ghost use Rattle.std.specs.Io.KnownBytes.{IsAtEnd};
ghost use Rattle.recorded.specs.Reads.{ReadOn};

use program::input;
use std::fs::File;
use std::io::Read;
use std::{fmt, io};

// The text's length, bytes.
const TEXT: usize = 256;

// How many bytes are held at most.
const BUFFER: usize = 4096;

// What is left of a file: the bytes that are held, at..end of the buffer, then those that its reader has left.
#[derive(Drop)]
pub struct Words<R = File> {
    from: R,
    buffer: [u8; BUFFER],
    at: usize,
    end: usize,
    whole: Result<(), EndsEarly>, // an error where a read has failed: then nothing more is read
    ghost in_buffer: { (at ≤ end) × (end ≤ 4096) },
}

// The file ends within a word or a list, can't be read to its end, or goes on with something unknown: nothing more can be read of it.
#[derive(Clone, Copy)]
pub struct EndsEarly;

impl fmt::Display for EndsEarly {
    fn fmt<W: fmt::Write>(&self, f: &mut fmt::Formatter<W>) -> fmt::Result {
        write!(f, "the file ends early")
    }
}

// The file with this name. An error says that it can't be opened.
pub fn open(rt: &HostRuntime, name: &str) -> io::Result<Words> {
    Ok(Words::new(File::open(rt, name)?))
}

// The f32 whose bits are the low half of a word.
pub fn value32(word: u64) -> f32
    ensures { result ≡ from_bits binary32 (word % 2 ^ 32) }
{
    float::from_bits32((word % (1 << 32)) as u32)
}

// Moves the bytes that are held, at..end of the buffer, to its start: how many they are.
fn to_front(buffer: &mut [u8], at: usize, end: usize) -> usize
    requires { (at ≤ end) × (end ≤ length buffer.old) }
    ensures { (result ≡ end - at) × (take result buffer.new ≡ slice_range buffer.old at end) }
{
    buffer.copy_within(at..end, 0);
    end - at
}

// Reads behind the bytes that are held, the first ones of the buffer, until n are held, the input ends or a read fails: how many are held then, and
// how the last read failed.
fn read_on<R: Read>(
    from: &mut R,
    buffer: &mut [u8],
    held: usize,
    n: usize,
) -> (usize, io::Result<()>)
    requires { (held ≤ length buffer.old) × (n ≤ length buffer.old) }
    ensures within { result.0 ≤ length buffer.new }
    ensures kept { ReadOn (R.remaining from.old) (R.remaining from.new) (take held buffer.old) (take result.0 buffer.new) }
    ensures whole { result.0 < n → OnOk result.1 (IsAtEnd (R.remaining from.new)) }
{
    let mut end = held;
    // No `while`: each read but the last brings a byte, so n - held of them are enough.
    for _ in held..n {
        if n <= end {
            break;
        }
        match input::read(from, buffer, end) {
            Ok(0) => return (end, Ok(())),
            Ok(read) => end += read,
            Err(why) => return (end, Err(why)),
        }
    }
    (end, Ok(()))
}

// Each call that reads on says what became of the bytes that were held, and of those that the reader had left where these are known. That a read failed
// no clause can say: `whole` does.
impl<R: Read> Words<R> {
    ghost use Rattle.recorded.specs.Words.{held_bytes, ReadsOn, IsAllRead, Takes};

    // A file of which nothing has been read.
    pub fn new(from: R) -> Words<R>
        ensures { (result.from ≡ from) × (held_bytes result ≡ []) × IsOk result.whole }
    {
        Words {
            from,
            buffer: [0; BUFFER],
            at: 0,
            end: 0,
            whole: Ok(()),
        }
    }

    // The bytes that are held.
    fn held(&self) -> &[u8]
        ensures bytes { result.now ≡ held_bytes self.now }
        ensures count { length result.now ≡ self.now.end - self.now.at }
    {
        &self.buffer[self.at..self.end]
    }

    // Reads on until n bytes are held, the file ends or a read fails.
    fn hold(&mut self, n: usize)
        requires { n ≤ 4096 }
        ensures kept { ReadsOn R.remaining self.old self.new }
        ensures whole { length (held_bytes self.new) < n → IsAllRead R.remaining self.new }
    {
        if self.whole.is_err() || n <= self.held().len() {
            return;
        }
        let held = to_front(&mut self.buffer, self.at, self.end);
        let (end, read) = read_on(&mut self.from, &mut self.buffer, held, n);
        self.at = 0;
        self.end = end;
        self.whole = read.or(Err(EndsEarly));
    }

    // The next N bytes, of those that are held.
    fn held_chunk<const N: usize>(&mut self) -> Result<[u8; N], EndsEarly>
        ensures bytes { MatchResult result
            (λ b. (b ≡ take N (held_bytes self.old)) × (held_bytes self.new ≡ drop N (held_bytes self.old)))
            (λ _. length (held_bytes self.old) < N) }
        ensures there { MatchResult result (λ _. N ≤ length (held_bytes self.old)) (λ _. held_bytes self.new ≡ held_bytes self.old) }
        ensures others { (self.new.from ≡ self.old.from) × (self.new.whole ≡ self.old.whole) }
    {
        let held = &self.buffer[self.at..self.end];
        let bytes = *held.first_chunk::<N>().ok_or(EndsEarly)?;
        self.at += N;
        Ok(bytes)
    }

    // The next N bytes.
    fn chunk<const N: usize>(&mut self) -> Result<[u8; N], EndsEarly>
        requires { N ≤ 4096 }
        ensures { Takes R.remaining N self.old self.new result (λ b bytes. b ≡ bytes) }
    {
        self.hold(N);
        self.held_chunk()
    }

    // Goes past the file's text.
    pub fn text(&mut self) -> Result<(), EndsEarly>
        ensures { Takes R.remaining 256 self.old self.new result (λ _ _. ⊤) }
    {
        let _ = self.chunk::<TEXT>()?;
        Ok(())
    }

    // Whether nothing is left. An error says that a read has failed.
    pub fn is_at_end(&mut self) -> Result<bool, EndsEarly>
        ensures kept { ReadsOn R.remaining self.old self.new }
        ensures end { MatchResult result
            (λ b. IsTrue b ↔ (length (held_bytes self.new) ≡ 0))
            (λ _. length (held_bytes self.new) ≡ 0) }
        ensures whole { MatchResult result
            (λ b. IsTrue b → IsAtEnd (R.remaining self.new.from))
            (λ _. IsErr self.new.whole) }
    {
        self.hold(1);
        let end = self.held().is_empty();
        if end {
            self.whole?;
        }
        Ok(end)
    }

    pub fn word(&mut self) -> Result<u64, EndsEarly>
        ensures { Takes R.remaining 8 self.old self.new result (λ w bytes. w ≡ from_le_bytes w64 bytes) }
    {
        let bytes = self.chunk()?;
        Ok(u64::from_le_bytes(bytes))
    }

    // Reads words until one isn't there: it and those behind it stay as they are.
    fn fill(&mut self, words: &mut [u64]) -> Result<(), EndsEarly> {
        for word in words {
            *word = self.word()?;
        }
        Ok(())
    }

    // The next N words, 0 for those that aren't there, and whether all are.
    pub fn padded<const N: usize>(&mut self) -> ([u64; N], Result<(), EndsEarly>) {
        let mut words = [0; N];
        let whole = self.fill(&mut words);
        (words, whole)
    }

    // The next N words.
    pub fn array<const N: usize>(&mut self) -> Result<[u64; N], EndsEarly> {
        let (words, whole) = self.padded();
        whole?;
        Ok(words)
    }
}
