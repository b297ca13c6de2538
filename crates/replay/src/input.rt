// The calls of standard input. Nothing is read ahead of a call's end, so that its answer can be written before the next one is there. What the input
// doesn't have is an error, but that no call begins.
ghost use Rattle.std.specs.Prelude.{◌≡◌, ◌*◌, ◌<◌, ◌≤◌, min, length};
ghost use Rattle.std.specs.Int.{w32, w64, from_le_bytes};
ghost use Rattle.frame_bytes.specs.Bytes.{sample_at, samples_at};

use std::io::Read;

// Samples that are kept of a strand: those of a bed of eight channels, and one more.
pub const STRAND: usize = frame_bytes::BED + 1;

// Their bytes.
const BYTES: usize = 4 * STRAND;

// Bytes that are kept of an image: an image's, and one more.
pub const IMAGE: usize = image::BYTES + 1;

// Words of the places that are kept of a layout: those of eight channels.
pub const PLACES: usize = 24;

// The input ends within a call, or can't be read on.
#[derive(Clone, Copy)]
pub struct Short;

// Fills a slice.
fn fill(rt: &HostRuntime, b: &mut [u8]) -> Result<(), Short> {
    rt.stdin().read_exact(b).map_err(|_| Short)
}

// The next N bytes.
fn next<const N: usize>(rt: &HostRuntime) -> Result<[u8; N], Short> {
    let mut b = [0u8; N];
    fill(rt, &mut b)?;
    Ok(b)
}

// The letter that the next call begins with, where there is one.
pub fn next_letter(rt: &HostRuntime) -> Option<u8> {
    next(rt).map(u8::from_le_bytes).ok()
}

// The number of 32 bits with these bytes, the lowest first.
fn count(bytes: [u8; 4]) -> u32
    ensures { result ≡ from_le_bytes w32 bytes }
{
    u32::from_le_bytes(bytes)
}

// The number of 64 bits with these bytes, the lowest first.
fn word(bytes: [u8; 8]) -> u64
    ensures { result ≡ from_le_bytes w64 bytes }
{
    u64::from_le_bytes(bytes)
}

// The next number of 32 bits.
pub fn next_count(rt: &HostRuntime) -> Result<u32, Short> {
    next(rt).map(count)
}

// The next number of 64 bits.
pub fn next_word(rt: &HostRuntime) -> Result<u64, Short> {
    next(rt).map(word)
}

// The next N words.
pub fn next_words<const N: usize>(rt: &HostRuntime) -> Result<[u64; N], Short> {
    let mut words = [0u64; N];
    for w in &mut words {
        *w = next_word(rt)?;
    }
    Ok(words)
}

// How many of `count` are kept where there is room for `most`.
pub fn kept(count: u64, most: usize) -> usize
    ensures { result ≡ min count most }
{
    count.min(most as u64) as usize
}

// Reads past bytes, as many at a time as there is room for.
fn skip(rt: &HostRuntime, b: &mut [u8; BYTES], count: u64) -> Result<(), Short> {
    for _ in 0..count / BYTES as u64 {
        fill(rt, b)?;
    }
    fill(rt, &mut b[..(count % BYTES as u64) as usize])
}

// The next `count` times three words, of which those of the first eight channels are kept.
pub fn next_places(rt: &HostRuntime, count: u32) -> Result<[u64; PLACES], Short> {
    let mut places = [0u64; PLACES];
    let count = 3 * u64::from(count);
    let n = kept(count, PLACES);
    for w in &mut places[..n] {
        *w = next_word(rt)?;
    }
    skip(rt, &mut [0u8; BYTES], 8 * (count - n as u64))?;
    Ok(places)
}

// Sample k.
fn sample(b: &[u8; BYTES], k: usize) -> f32
    requires { k < 3841 }
    ensures { result ≡ sample_at b.now (4 * k) }
{
    frame_bytes::sample(b, 4 * k)
}

// Puts the first samples into all places of x. A loop of its own beside `frame_bytes::read_samples`: a must-fail edit is made in its step.
#[tactic(auto, using(frame_bytes::proofs::Samples::sample_read, frame_bytes::proofs::Samples::samples_read))]
fn samples(b: &[u8; BYTES], x: &mut [f32])
    requires { length x.old ≤ 3841 }
    ensures { x.new ≡ samples_at b.now 0 (length x.old) }
{
    for (k, y) in x.iter_mut().enumerate() {
        *y = sample(b, k);
    }
}

// The next strand, of which the first `kept(count, STRAND)` samples are kept: they are put at the start of `to`.
pub fn next_strand<'a>(
    rt: &HostRuntime,
    count: u32,
    to: &'a mut [f32; STRAND],
) -> Result<&'a [f32], Short> {
    let mut b = [0u8; BYTES];
    let count = u64::from(count);
    let n = kept(count, STRAND);
    fill(rt, &mut b[..4 * n])?;
    samples(&b, &mut to[..n]);
    skip(rt, &mut b, 4 * (count - n as u64))?;
    Ok(&to[..n])
}

// The next `count` bytes, of which the first `kept(count, IMAGE)` are kept: they are put at the start of `to`.
pub fn next_image<'a>(
    rt: &HostRuntime,
    count: u64,
    to: &'a mut [u8; IMAGE],
) -> Result<&'a [u8], Short> {
    let mut b = [0u8; BYTES];
    let n = kept(count, IMAGE);
    fill(rt, &mut to[..n])?;
    skip(rt, &mut b, count - n as u64)?;
    Ok(&to[..n])
}
