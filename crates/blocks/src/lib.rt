// Images of any number of blocks: their words, their bytes and the check of each block. What the words mean is said elsewhere.
#![tactic(auto)]

ghost use Rattle.std.specs.Prelude.{◌≡◌, ◌+◌, ◌*◌, ◌<◌, ◌≤◌, length, take, drop, slice_index};
ghost use Rattle.blocks.specs.Lists.{laid, Laid};
ghost use Rattle.blocks.specs.Words.{
  checked_words,
  rotated,
  mixed,
  bad_of,
  blocks_in,
};
ghost use Rattle.blocks.specs.Image.{image_of, payload_of};

pub mod little_endian;

pub const BLOCK_BYTES: usize = 512;

const BLOCK_WORDS: usize = 64;

pub const CHECKED_WORDS: usize = 63; // a block's words before its check

// x rotated left by one bit: by its own shifts, as the specification has a rotation of the program's own.
fn rotated(x: u64) -> u64
    ensures { result ≡ rotated x }
{
    (x << 1) | (x >> 63)
}

// One word more in a check.
#[tactic(auto, unfolding(crate::specs::Words::mixed))]
fn mixed(c: u64, w: u64) -> u64
    ensures { result ≡ mixed c w }
{
    rotated(c).wrapping_add(w)
}

// The first of the whole blocks of b whose check is wrong. Loops over blocks and words, left by a label, as the specification's reading stops there.
pub fn first_bad(b: &[u8]) -> Option<usize>
    ensures { result ≡ bad_of b.now }
{
    let (words, _) = b.as_chunks::<8>();
    let mut bad = None;
    'blocks: for block in 0..b.len() / BLOCK_BYTES {
        let mut check = block as u64;
        for j in 0..BLOCK_WORDS {
            let w = u64::from_le_bytes(words[BLOCK_WORDS * block + j]);
            if j < CHECKED_WORDS {
                check = mixed(check, w);
            } else if check != w {
                bad = Some(block);
                break 'blocks;
            }
        }
    }
    bad
}

// The payload's word k; one that is missing counts as 0. `codec` has the like for a sum of two places, which may not fit.
fn word_or_zero(p: &[u64], k: usize) -> u64
    ensures { result ≡ slice_index p.now k }
{
    p.get(k).copied().unwrap_or(0)
}

// The image of the payload p, in the whole blocks of b. Bytes after them stay. By place, here and below: of a slice whose chunks are lent, or that a zip
// writes, std doesn't say what it ends as.
pub fn write_image(p: &[u64], b: &mut [u8])
    ensures { b.new ≡ laid b.old 0 (image_of (blocks_in b.old) p.now) }
{
    for block in 0..b.len() / BLOCK_BYTES {
        let mut check: u64 = block as u64;
        for j in 0..CHECKED_WORDS {
            let w = word_or_zero(p, CHECKED_WORDS * block + j);
            check = mixed(check, w);
            little_endian::write8(b, 8 * (BLOCK_WORDS * block + j), w);
        }
        little_endian::write8(b, 8 * (BLOCK_WORDS * block + CHECKED_WORDS), check);
    }
}

// The first n words of a block of b, in their places of a payload in w.
fn block_payload(b: &[u8], block: usize, n: usize, w: &mut [u64])
    requires { (block < blocks_in b.now) × (n ≤ checked_words) × (checked_words * block + n ≤ length w.old) }
    ensures { Laid w.old (checked_words * block) (take n (drop (checked_words * block) (payload_of b.now))) w.new }
{
    let (words, _) = b.as_chunks::<8>();
    for j in 0..n {
        w[CHECKED_WORDS * block + j] = u64::from_le_bytes(words[BLOCK_WORDS * block + j]);
    }
}

// The payload of the whole blocks of b, in the first places of w. Places after it stay, and words without a place are dropped.
pub fn payload(b: &[u8], w: &mut [u64])
    ensures { w.new ≡ laid w.old 0 (payload_of b.now) }
{
    let n = w.len().min(CHECKED_WORDS * (b.len() / BLOCK_BYTES));
    for block in 0..n.div_ceil(CHECKED_WORDS) {
        block_payload(b, block, CHECKED_WORDS.min(n - CHECKED_WORDS * block), w);
    }
}
