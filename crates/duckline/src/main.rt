// Reads frames from standard input (the key, then the bed's channels, 480 samples each, f32 little-endian), runs them through a chain with fresh
// settings and the layout that is asked for, and writes a line for each. One read takes what is there, up to 16 frames of one channel or 3 of eight;
// their lines are written before the next read can wait. What fails is told on standard error, and ends the program.
#![tactic(auto)]

mod help;

ghost use Rattle.std.specs.Prelude.{◌≡◌, Ok, Err, MatchResult};

use beds::Bed;
use frame_bytes::BUFFER;
use line_text::TEXT;
use program::arguments::Request;
use program::complaints::Complaints;
use program::{arguments, input};
use std::io;
use std::io::{Stderr, Stdin, Stdout, Write};

// Why the lines end before the input does.
#[derive(Drop)]
enum Failure {
    // A read failed.
    Unread(io::Error),
    // A write failed.
    Unwritten(io::Error),
}

// How many bytes a read brought, none at the end of the input: one that failed isn't that end.
fn brought(read: io::Result<usize>) -> Result<usize, Failure>
    ensures { MatchResult read (λ n. result ≡ Ok n) (λ why. result ≡ Err (Failure.Unread why)) }
{
    read.map_err(Failure::Unread)
}

// The lines of all whole frames, and how many bytes are left over. Buffer and text are arrays, with counts of what they hold: no heap while it runs.
fn all_frames(
    bed: Bed,
    from: &mut Stdin,
    buffer: &mut [u8; BUFFER],
    text: &mut [u8; TEXT],
    to: &mut Stdout,
) -> Result<usize, Failure> {
    let mut run = ducklines::fresh_run(bed.layout());
    let mut held: usize = 0;
    // No `while`: nothing says that the input ends. The count says that the loop does.
    for _ in 0..u64::MAX {
        let count = brought(input::read(from, buffer, held))?;
        if count == 0 {
            break;
        }
        let next = ducklines::after_read(run, buffer, held + count, text);
        run = next.run;
        held = next.held;
        to.write_all(&text[..run.end]).map_err(Failure::Unwritten)?;
    }
    Ok(held)
}

// All of the input: the lines of its frames, then that of the bytes that are left over, if there are any.
fn lines(bed: Bed, from: &mut Stdin, to: &mut Stdout) -> Result<(), Failure> {
    let mut buffer = [0u8; BUFFER];
    let mut text = [0u8; TEXT];
    let left = all_frames(bed, from, &mut buffer, &mut text, to)?;
    let end = line_text::short(&mut text, left);
    to.write_all(&text[..end]).map_err(Failure::Unwritten)
}

// What is said on standard error.
fn complaints(rt: &HostRuntime) -> Complaints<'static, Stderr> {
    Complaints {
        errors: rt.stderr(),
        program: b"duckline",
    }
}

// All of the input, and what is said where that fails.
fn run(rt: &HostRuntime, bed: Bed) {
    match lines(bed, &mut rt.stdin(), &mut rt.stdout()) {
        Ok(()) => {}
        Err(Failure::Unread(why)) => complaints(rt).unread(&why),
        Err(Failure::Unwritten(why)) => complaints(rt).unwritten(&why),
    }
}

// ---- arguments

// Bytes that are kept of an argument.
const WORD: usize = 4096;

// Argument i, of no bytes where there is none.
fn argument<'a>(rt: &HostRuntime, i: usize, word: &'a mut [u8; WORD]) -> &'a [u8] {
    arguments::get(rt, i, word).unwrap_or(&[])
}

// Ends a line of standard error with the names of the beds and the hint at the help.
fn hint_at_names(mut line: Complaints<'static, Stderr>) {
    line.add(b": mono, stereo, 5.1 or 7.1");
    line.hint();
}

// All of the input, with the bed that the second argument names.
fn run_named(rt: &HostRuntime) {
    let mut word = [0u8; WORD];
    let name = argument(rt, 2, &mut word);
    match beds::find(name) {
        Some(bed) => run(rt, bed),
        None => {
            let mut line = complaints(rt);
            line.refuse(b"unknown bed", name);
            hint_at_names(line);
        }
    }
}

// `--bed` stands alone.
fn ask_for_a_name(rt: &HostRuntime) {
    let mut line = complaints(rt);
    line.begin(b"--bed needs a bed");
    hint_at_names(line);
}

// Refuses an argument.
fn refuse(rt: &HostRuntime, why: &[u8], word: &[u8]) {
    let mut line = complaints(rt);
    line.refuse(why, word);
    line.hint();
}

// More than a name follows `--bed`.
fn refuse_the_third(rt: &HostRuntime) {
    let mut word = [0u8; WORD];
    let third = argument(rt, 3, &mut word);
    refuse(rt, b"one argument too many:", third);
}

fn main(rt: HostRuntime) {
    let mut word = [0u8; WORD];
    let first = argument(&rt, 1, &mut word);
    match arguments::asked(arguments::count(&rt), first, b"--bed") {
        Request::Run => run(&rt, Bed::Mono),
        Request::Help => help::print(&rt),
        Request::Option => run_named(&rt),
        Request::OptionAlone => ask_for_a_name(&rt),
        Request::OptionAndMore => refuse_the_third(&rt),
        Request::Unknown => refuse(&rt, b"unknown argument", first),
    }
}
