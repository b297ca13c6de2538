// What bytes that were read lead to: the frames among them run through a chain, and each gets a line (specs/Frames.antt). That the text doesn't
// depend on how the input is cut into reads is specs/Reads.antt, which `promises` holds.
#![tactic(auto)]

ghost use Rattle.std.specs.Prelude.{◌≡◌, ◌+◌, ◌<◌, ◌≤◌, take};
ghost use Rattle.chain.specs.Chain.{frame_of};
ghost use Rattle.frame_bytes.specs.Bytes.{bed_samples};
ghost use Rattle.line_text.specs.Line.{text_bytes};
ghost use Rattle.ducklines.specs.Frames.{count_of, fresh_run, frame_in, frames_in, after_read_in};

use chain::{Chain, Framed};
use frame_bytes::{BED, BUFFER, Frame};
use layout::Layout;
use line_text::TEXT;

// A chain, the number of the frame that comes next, and the end of the text of the frames before it, which is lent, for the reason at `line_text`.
#[derive(Clone, Copy)]
pub struct Run {
    pub chain: Chain,
    pub number: u64,
    pub end: usize,
}

// A fresh chain with this layout of the bed, or with one channel where the layout is refused; frames are counted from 1.
pub fn fresh_run(layout: Layout) -> Run
    ensures { result ≡ fresh_run layout }
{
    Run {
        chain: Chain::new().layout(layout).chain,
        number: 1,
        end: 0,
    }
}

// A frame whose bed is at the start of some samples.
#[tactic(auto, using(frame_bytes::proofs::Sizes::bed_most))]
fn heard(chain: Chain, key: &[f32; level::FRAME], bed: &[f32; BED]) -> Framed
    ensures { result ≡ frame_of chain key.now (take (bed_samples (count_of chain)) bed.now) }
{
    let n = frame_bytes::bed_samples(chain.surround.layout.count);
    chain.frame(key, &bed[..n])
}

// Frame i of the buffer; its line goes behind those of the frames before it. `bed` is lent for the bed's samples. Here and below what is lent stands by
// itself: the buffer is read, the text written, and the run handed back.
fn frame(
    run: Run,
    buffer: &[u8; BUFFER],
    i: u16,
    bed: &mut [f32; BED],
    text: &mut [u8; TEXT],
) -> Run
    requires { run.end + 64 ≤ text_bytes }
    ensures { record { run = result; bytes = text.new } ≡ frame_in run buffer.now i text.old }
{
    let at = Frame {
        channels: run.chain.surround.layout.count,
        place: i,
    };
    let key = at.key(buffer);
    at.bed(buffer, bed);
    let f = heard(run.chain, &key, bed);
    Run {
        chain: f.chain,
        number: run.number.wrapping_add(1),
        end: line_text::frame(text, run.end as u16, run.number, f.outcome),
    }
}

// The frames at the start of the buffer; their lines, at the start of the text.
#[tactic(auto, using(crate::proofs::Ran::frames_zero), unfolding(crate::specs::Frames::frames_in))]
fn frames(run: Run, buffer: &[u8; BUFFER], count: u16, text: &mut [u8; TEXT]) -> Run
    requires { count ≤ 16 }
    ensures { record { run = result; bytes = text.new } ≡ frames_in run buffer.now count text.old }
{
    let mut bed = [0.0; BED];
    let mut s = Run { end: 0, ..run };
    for i in 0..count {
        s = frame(s, buffer, i, &mut bed, text);
    }
    s
}

// A run after a read, and how many bytes of the buffer are left: an array and a count, since duckline takes no heap while it runs.
#[derive(Clone, Copy)]
pub struct Next {
    pub run: Run,
    pub held: usize,
}

// What a read leads to: `held` bytes are at the start of the buffer, or all of it where that is fewer. The whole frames among them get their
// lines, and what is left goes to the start.
pub fn after_read(run: Run, buffer: &mut [u8; BUFFER], held: usize, text: &mut [u8; TEXT]) -> Next
    ensures next { record { next = result; buffer = buffer.new; text = text.new } ≡ after_read_in run buffer.old held text.old }
    ensures room { result.run.end ≤ text_bytes }
    ensures left { result.held < 17280 }
{
    let there = held.min(BUFFER);
    let channels = run.chain.surround.layout.count;
    let count = (there / frame_bytes::size(channels)) as u16;
    let next = frames(run, buffer, count, text);
    let behind = Frame {
        channels,
        place: count,
    };
    let left = behind.keep(buffer, there);
    Next {
        run: next,
        held: left,
    }
}
