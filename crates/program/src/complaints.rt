// What a program says where something is wrong: lines on standard error that begin with its name. What can't be written is let go.
// Each promises that the name stays.
ghost use Rattle.std.specs.Prelude.{◌≡◌};

use std::io;
use std::io::{Cursor, ErrorKind, Write};

// Bytes that a reason has room for.
const REASON: usize = 128;

// An error's text up to the system's number for it, where it has one.
fn words(text: &str) -> &str {
    text.split_once(" (os error ")
        .map_or(text, |(words, _)| words)
}

// Standard error, and the program's name.
#[derive(Drop)]
pub struct Complaints<'a, E> {
    pub errors: E,
    pub program: &'a [u8],
}

impl<'a, E: Write> Complaints<'a, E> {
    // Goes on with a line.
    pub fn add(&mut self, text: &[u8])
        ensures { self.new.program.now ≡ self.old.program.now }
    {
        let _ = self.errors.write_all(text);
    }

    // Begins a line with what is wrong, behind the program's name.
    pub fn begin(&mut self, what: &[u8])
        ensures { self.new.program.now ≡ self.old.program.now }
    {
        self.add(self.program);
        self.add(b": ");
        self.add(what);
    }

    // The same with the word that it is about.
    pub fn refuse(&mut self, what: &[u8], word: &[u8])
        ensures { self.new.program.now ≡ self.old.program.now }
    {
        self.begin(what);
        self.add(b" '");
        self.add(word);
        self.add(b"'");
    }

    // Ends a line with where to read more.
    pub fn hint(&mut self)
        ensures { self.new.program.now ≡ self.old.program.now }
    {
        self.add(b" (");
        self.add(self.program);
        self.add(b" --help says what it takes)\n");
    }

    // A line with what failed, and why in the system's own words.
    fn tell(&mut self, what: &[u8], why: &io::Error)
        ensures { self.new.program.now ≡ self.old.program.now }
    {
        let mut text = Cursor::new([0u8; REASON]);
        let _ = write!(text, "{why}");
        let n = text.position().min(REASON as u64) as usize;
        let bytes = text.into_inner();
        self.begin(what);
        self.add(b": ");
        if let Ok(whole) = str::from_utf8(&bytes[..n]) {
            self.add(words(whole).as_bytes());
        }
        self.add(b"\n");
    }

    // Says why a read failed.
    pub fn unread(&mut self, why: &io::Error)
        ensures { self.new.program.now ≡ self.old.program.now }
    {
        self.tell(b"cannot read standard input", why);
    }

    // Says why a write failed. A non-blocking output that is full is such a failure. That nobody reads any more isn't said.
    pub fn unwritten(&mut self, why: &io::Error)
        ensures { self.new.program.now ≡ self.old.program.now }
    {
        match why.kind() {
            ErrorKind::BrokenPipe => {}
            ErrorKind::WouldBlock => {
                self.begin(b"cannot write standard output: it is non-blocking and full\n");
            }
            _ => self.tell(b"cannot write standard output", why),
        }
    }
}
