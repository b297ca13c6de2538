// The samples in a buffer of frames, and what is left behind some of them (specs/Bytes.antt). A frame is 480 samples of the key, then 480 of each
// of the bed's channels, one channel after the other, each an f32, the lowest byte first. A byte past the end of the buffer counts as 0.
#![tactic(auto)]

ghost use Rattle.std.specs.Prelude.{◌≡◌, ◌+◌, ◌-◌, ◌*◌, ◌^◌, ◌≤◌, ◌<◌, length};
ghost use Rattle.sequence.specs.History.{laid};
ghost use Rattle.frame_bytes.specs.Bytes.{bed_samples, frame_bytes, sample_at, samples_at, strand_at, key_at, bed_at, kept_of};

use blocks::little_endian::read4;
use layout::channel_count;

// Samples of a strand.
const SAMPLES: usize = level::FRAME;

// Bytes of a strand.
const STRAND: usize = 4 * SAMPLES;

// Samples of a bed of eight channels.
pub const BED: usize = layout::MOST * SAMPLES;

// Bytes of the buffer: 16 frames of one channel.
pub const BUFFER: usize = 32 * STRAND;

// The samples that a frame has of a bed of so many channels.
#[tactic(auto, unfolding(crate::specs::Bytes::bed_samples))]
pub fn bed_samples(count: u64) -> usize
    ensures { result ≡ bed_samples count }
{
    channel_count(count) * SAMPLES
}

// The bytes of a frame whose bed has so many channels.
#[tactic(auto, unfolding(crate::specs::Bytes::frame_bytes))]
pub fn size(count: u64) -> usize
    ensures { result ≡ frame_bytes count }
{
    (1 + channel_count(count)) * STRAND
}

// The sample whose first byte is at `at`.
pub fn sample(bytes: &[u8], at: usize) -> f32
    ensures { result ≡ sample_at bytes.now at }
{
    float::from_bits32(read4(bytes, at))
}

// Puts the samples at the start of some bytes into all places of x.
#[tactic(auto, using(crate::proofs::Samples::sample_read, crate::proofs::Samples::samples_read))]
pub fn read_samples(bytes: &[u8], x: &mut [f32])
    ensures { x.new ≡ samples_at bytes.now 0 (length x.old) }
{
    for (k, y) in x.iter_mut().enumerate() {
        *y = sample(bytes, 4 * k);
    }
}

// The strand whose first byte is at `first`, in x. Of a part that is as long as a strand the compiler knows that no byte is missing. x is a slice with
// a clause on its length, and no array, since `strands` hands on a part of a slice.
#[tactic(auto, using(crate::proofs::Samples::samples_part, crate::proofs::Samples::samples_tail))]
fn strand(buffer: &[u8; BUFFER], first: usize, x: &mut [f32])
    requires { length x.old ≡ 480 }
    ensures { x.new ≡ strand_at buffer.now first }
{
    if first <= BUFFER - STRAND {
        read_samples(&buffer[first..first + STRAND], x);
    } else {
        read_samples(&buffer[first.min(BUFFER)..], x);
    }
}

// n strands from byte `first` on, in the first places of x; the others stay. By place: of a slice whose chunks are lent std doesn't say what it ends as.
#[tactic(auto, using(crate::proofs::Samples::none_yet, crate::proofs::Samples::strand_next))]
fn strands(buffer: &[u8; BUFFER], first: usize, n: usize, x: &mut [f32])
    requires { (first < 2 ^ 32) × (n ≤ 8) × (n * 480 ≤ length x.old) }
    ensures { x.new ≡ laid (samples_at buffer.now first (n * 480)) x.old }
{
    for c in 0..n {
        let to = c * SAMPLES;
        strand(buffer, first + c * STRAND, &mut x[to..to + SAMPLES]);
    }
}

// A frame of a buffer: how many channels its bed has, and its place among the frames, from 0.
#[derive(Clone, Copy)]
pub struct Frame {
    pub channels: u64,
    pub place: u16,
}

impl Frame {
    // Its first byte.
    #[tactic(auto, using(crate::proofs::Sizes::place_most))]
    fn first(self) -> usize
        ensures first { result ≡ self.place * frame_bytes self.channels }
        ensures most { result < 2 ^ 31 }
    {
        usize::from(self.place) * size(self.channels)
    }

    // Its key.
    pub fn key(self, buffer: &[u8; BUFFER]) -> [f32; SAMPLES]
        ensures { result ≡ key_at self.channels buffer.now self.place }
    {
        let mut x = [0.0; SAMPLES];
        strand(buffer, self.first(), &mut x);
        x
    }

    // Its bed, in the first places of x; the others stay as they are.
    #[tactic(auto, unfolding(crate::specs::Bytes::bed_samples))]
    pub fn bed(self, buffer: &[u8; BUFFER], x: &mut [f32; BED])
        ensures { x.new ≡ laid (bed_at self.channels buffer.now self.place) x.old }
    {
        let n = channel_count(self.channels);
        strands(buffer, self.first() + STRAND, n, x);
    }

    // Of `held` bytes those from this frame on are left: moves to the start what the buffer has of them, and answers how many they are.
    #[tactic(auto, using(crate::proofs::Kept::kept_bytes, crate::proofs::Kept::kept_none), unfolding(crate::specs::Bytes::kept_of))]
    pub fn keep(self, buffer: &mut [u8], held: usize) -> usize
        ensures { record { bytes = buffer.new; held = result } ≡ kept_of self.channels buffer.old self.place held }
    {
        let first = self.first();
        let there = held.min(buffer.len());
        if first < there {
            buffer.copy_within(first..there, 0);
        }
        held.saturating_sub(first)
    }
}
