// Words of some bytes, the lowest byte first. A byte past the end counts as 0 where a word is read; where one is written, it is dropped.
ghost use Rattle.std.specs.Prelude.{◌≡◌, ℕ, ◌+◌, ◌<◌, slice_index};
ghost use Rattle.blocks.specs.Lists.{Laid};
ghost use Rattle.blocks.specs.Words.{word4, word8, bytes8};

// The N bytes from place i on, of which some may be missing.
fn bytes<const N: usize>(b: &[u8], i: usize) -> [u8; N]
    ensures { (k : ℕ) → k < N → slice_index result k ≡ slice_index b.now (i + k) }
{
    let from = i.min(b.len());
    let rest = &b[from..];
    if let Some((bytes, _)) = rest.split_first_chunk::<N>() {
        return *bytes;
    }
    let mut bytes = [0; N];
    bytes[..rest.len()].copy_from_slice(rest);
    bytes
}

// The number that the four bytes from place i on stand for. A frame's samples are read by it: named one by one, the bytes become one
// load (docs/PERFORMANCE.md). `bytes` serves where some are missing.
pub fn read4(b: &[u8], i: usize) -> u32
    ensures { result ≡ word4 b.now i }
{
    let n = b.len();
    if 4 <= n && i <= n - 4 {
        return u32::from_le_bytes([b[i], b[i + 1], b[i + 2], b[i + 3]]);
    }
    u32::from_le_bytes(bytes(b, i))
}

// The same for eight bytes.
pub fn read8(b: &[u8], i: usize) -> u64
    ensures { result ≡ word8 b.now i }
{
    u64::from_le_bytes(bytes(b, i))
}

// The eight bytes of a word, from place i on.
pub fn write8(b: &mut [u8], i: usize, w: u64)
    ensures { Laid b.old i (bytes8 w) b.new }
{
    let bytes = w.to_le_bytes();
    let room = b.len().saturating_sub(i);
    if 8 <= room {
        b[i..i + 8].copy_from_slice(&bytes);
    } else if 0 < room {
        b[i..].copy_from_slice(&bytes[..room]);
    }
}
