// Images of a chain: saved into lent bytes, and restored from them. An image is 22 blocks of 512 bytes; the words between the
// checks are the chain's numbers by their bits. That is edition 2. An image of edition 1, 21 blocks, has no words for the bed's
// channels: it restores as a chain whose bed is one channel at 0, 0.
#![tactic(auto)]

ghost use Rattle.std.specs.Prelude.{◌≡◌, ◌+◌, ◌^◌, ◌≤◌};
ghost use Rattle.blocks.specs.Lists.{laid};
ghost use Rattle.codec.specs.Run.{Run};
ghost use Rattle.image.specs.Chain.{
  strand_settings,
  duck,
  signed_of,
  signed_strand,
  signed_duck,
  signed_settings,
  numbers,
  settings,
  loops,
  body,
  with_surround,
  chain,
};
ghost use Rattle.chain.specs.Base.{base_of};
ghost use Rattle.image.specs.Layout.{body_words, payload_words};
ghost use Rattle.image.specs.Edition1 as first;
ghost use Rattle.image.specs.Image.{edition_of, words_by, read_by, save_verdict, saved_in, restore_of};

use blocks::{BLOCK_BYTES, CHECKED_WORDS};
use chain::{After, Chain, Changed};
use channels::Surround;
use comis::loop_bank::Loops;
use float::{Db, Lufs};
use ratio::Duck;
use refusal::Refusal;
use settings::Settings;
use vad::VadSettings;

const BLOCKS: usize = 22;

pub const BYTES: usize = BLOCK_BYTES * BLOCKS;

const WORDS: usize = CHECKED_WORDS * BLOCKS; // of a payload

// Edition 1.
const OLD_BLOCKS: usize = 21;

const OLD_BYTES: usize = BLOCK_BYTES * OLD_BLOCKS;

const OLD_WORDS: usize = CHECKED_WORDS * OLD_BLOCKS;

// Where the parts of a payload begin, after the edition; in edition 1 the words from the bed's channels on are zero.
const SETTINGS: usize = 1;

const KEY: u16 = 13;

const BED: u16 = 641;

const LOOPS: usize = 1269;

const SURROUND: u16 = 1273;

const UNUSED: usize = SURROUND as usize + 88;

const UNUSED_WORDS: usize = WORDS - UNUSED; // zero

const OLD_UNUSED: usize = SURROUND as usize;

const OLD_UNUSED_WORDS: usize = OLD_WORDS - OLD_UNUSED;

// Which edition an image is, by its number.
#[derive(Clone, Copy)]
enum EditionNumber {
    One = 1,
    Two = 2,
}

// The edition of an image so many bytes long.
fn edition_of(length: usize) -> Option<EditionNumber>
    ensures { result ≡ edition_of length }
{
    match length {
        BYTES => Some(EditionNumber::Two),
        OLD_BYTES => Some(EditionNumber::One),
        _ => None,
    }
}

// ---- writing, from place `at` on
//
// Each function says how far its words reach, so that the places of its parts, sums of `at`, fit a usize; every caller hands it a constant.
// A type for a place, or the slice from it on, would need the same bound at each sum. The functions that read say the same. A function for each type and no
// trait: nothing here is generic over these types, as rows are in `surround_image`.

fn put_strand_settings(w: &mut [u64], at: usize, s: VadSettings)
    requires { at + 3 ≤ 2 ^ 64 }
    ensures { Run w.old at 3 (strand_settings.enc s) w.new }
{
    codec::put(w, at, s.threshold);
    codec::put(w, at + 1, s.hold_ms);
    codec::put(w, at + 2, s.gate_lufs.0);
}

fn put_duck(w: &mut [u64], at: usize, s: Duck)
    requires { at + 6 ≤ 2 ^ 64 }
    ensures { Run w.old at 6 (duck.enc s) w.new }
{
    codec::put(w, at, s.enabled);
    codec::put(w, at + 1, s.target_lu);
    codec::put(w, at + 2, s.overvoice_lu);
    codec::put(w, at + 3, s.max_reduction_db.0);
    codec::put(w, at + 4, s.speed);
    codec::put(w, at + 5, s.bed_voice);
}

fn put_settings(w: &mut [u64], at: usize, s: Settings)
    requires { at + 12 ≤ 2 ^ 64 }
    ensures { Run w.old at 12 (settings.enc s) w.new }
{
    put_strand_settings(w, at, s.key);
    put_strand_settings(w, at + 3, s.bed);
    put_duck(w, at + 6, s.duck);
}

fn put_loops(w: &mut [u64], at: usize, s: Loops)
    requires { at + 4 ≤ 2 ^ 64 }
    ensures { Run w.old at 4 (loops.enc s) w.new }
{
    codec::put(w, at, s.slow.0);
    codec::put(w, at + 1, s.mid.0);
    codec::put(w, at + 2, s.fast.0);
    codec::put(w, at + 3, s.hold_remaining_seconds);
}

// Words 1 to 1,272: settings, key strand, bed strand, loops.
fn put_body(w: &mut [u64], c: Chain)
    ensures { Run w.old 1 body_words (body.enc (base_of c)) w.new }
{
    put_settings(w, SETTINGS, c.settings);
    strand_image::put_strand(w, KEY, c.key);
    strand_image::put_strand(w, BED, c.bed);
    put_loops(w, LOOPS, c.loops);
}

fn put_chain(w: &mut [u64], c: Chain)
    ensures { Run w.old 0 payload_words (chain.enc c) w.new }
{
    codec::put(w, 0, EditionNumber::Two as u64);
    put_body(w, c);
    surround_image::put_surround(w, SURROUND, c.surround);
    codec::put_zeros(w, UNUSED, UNUSED_WORDS);
}

// The words of edition 1, which leaves the bed's channels out.
fn put_base(w: &mut [u64], c: Chain)
    ensures { Run w.old 0 first.payload_words ((first.base).enc (base_of c)) w.new }
{
    codec::put(w, 0, EditionNumber::One as u64);
    put_body(w, c);
    codec::put_zeros(w, OLD_UNUSED, OLD_UNUSED_WORDS);
}

// The words of this edition.
fn put_either(w: &mut [u64], edition: EditionNumber, c: Chain)
    ensures { w.new ≡ laid w.old 0 (words_by edition c) }
{
    match edition {
        EditionNumber::One => put_base(w, c),
        EditionNumber::Two => put_chain(w, c),
    }
}

// ---- reading, from place `at` on

fn get_strand_settings(w: &[u64], at: usize) -> VadSettings
    requires { at + 3 ≤ 2 ^ 64 }
    ensures { result ≡ strand_settings.dec w.now at }
{
    let threshold = codec::get(w, at);
    let hold_ms = codec::get(w, at + 1);
    let gate_lufs = codec::get(w, at + 2);
    VadSettings {
        threshold,
        hold_ms,
        gate_lufs: Lufs(gate_lufs),
    }
}

fn get_duck(w: &[u64], at: usize) -> Duck
    requires { at + 6 ≤ 2 ^ 64 }
    ensures { result ≡ duck.dec w.now at }
{
    let enabled = codec::get(w, at);
    let target_lu = codec::get(w, at + 1);
    let overvoice_lu = codec::get(w, at + 2);
    let max_reduction_db = codec::get(w, at + 3);
    let speed = codec::get(w, at + 4);
    let bed_voice = codec::get(w, at + 5);
    Duck {
        enabled,
        target_lu,
        overvoice_lu,
        max_reduction_db: Db(max_reduction_db),
        speed,
        bed_voice,
    }
}

fn get_numbers(w: &[u64], at: usize) -> Settings
    requires { at + 12 ≤ 2 ^ 64 }
    ensures { result ≡ numbers.dec w.now at }
{
    let key = get_strand_settings(w, at);
    let bed = get_strand_settings(w, at + 3);
    let duck = get_duck(w, at + 6);
    Settings { key, bed, duck }
}

// Whether x is negative zero.
fn signed(x: f64) -> bool
    ensures { result ≡ signed_of x }
{
    if x == 0.0 {
        return float::to_bits(x) != 0;
    }
    false
}

fn signed_strand(s: VadSettings) -> bool
    ensures { result ≡ signed_strand s }
{
    signed(s.threshold) | signed(s.hold_ms) | signed(s.gate_lufs.0)
}

fn signed_duck(s: Duck) -> bool
    ensures { result ≡ signed_duck s }
{
    signed(s.target_lu) | signed(s.overvoice_lu) | signed(s.max_reduction_db.0) | signed(s.speed)
}

fn signed_settings(s: Settings) -> bool
    ensures { result ≡ signed_settings s }
{
    signed_strand(s.key) | signed_strand(s.bed) | signed_duck(s.duck)
}

// The settings; those that are out of range or have a negative zero are read as the fresh ones.
fn get_settings(w: &[u64], at: usize) -> Settings
    requires { at + 12 ≤ 2 ^ 64 }
    ensures { result ≡ settings.dec w.now at }
{
    let s = get_numbers(w, at);
    if s.outside_image() {
        return Settings::new();
    }
    if signed_settings(s) {
        return Settings::new();
    }
    s
}

fn get_loops(w: &[u64], at: usize) -> Loops
    requires { at + 4 ≤ 2 ^ 64 }
    ensures { result ≡ loops.dec w.now at }
{
    let slow = codec::get(w, at);
    let mid = codec::get(w, at + 1);
    let fast = codec::get(w, at + 2);
    let hold_remaining_seconds = codec::get(w, at + 3);
    Loops {
        slow: Db(slow),
        mid: Db(mid),
        fast: Db(fast),
        hold_remaining_seconds,
    }
}

// The settings, strands and loops, beside the bed's channels. It stays a function of its own in the machine code: inlined, a frame through the library
// took 3 % longer.
#[inline(never)]
fn get_body(w: &[u64], surround: Surround) -> Chain
    ensures { result ≡ with_surround (body.dec w.now 1) surround }
{
    let settings = get_settings(w, SETTINGS);
    let key = strand_image::get_strand(w, KEY);
    let bed = strand_image::get_strand(w, BED);
    let loops = get_loops(w, LOOPS);
    Chain {
        settings,
        key,
        bed,
        loops,
        surround,
    }
}

// The chain that a payload of this edition is read as.
fn get_either(w: &[u64], edition: EditionNumber) -> Chain
    ensures { result ≡ read_by edition w.now }
{
    let surround = match edition {
        EditionNumber::One => Surround::new(),
        EditionNumber::Two => surround_image::get_surround(w, SURROUND),
    };
    get_body(w, surround)
}

// ---- the two calls

// Saves a chain into b. Refusal 6: b isn't 11,264 bytes long; then none of them is changed.
pub fn save(c: Chain, b: &mut [u8]) -> Result<(), Refusal>
    ensures { (result ≡ save_verdict b.old) × (b.new ≡ saved_in c b.old) }
{
    if b.len() != BYTES {
        return Err(Refusal::WrongLength);
    }
    let mut w = [0u64; WORDS];
    put_chain(&mut w, c);
    blocks::write_image(&w, b);
    Ok(())
}

// Restores a chain: the one that b means, or the old one and why not. Refusals 6: b is neither 11,264 bytes long nor 10,752; 7: a block's
// check is wrong; 8: a word breaks the image rules, so that writing what was read gives other words.
// A function inside that answers a `Result<Chain, Refusal>` was tried: `freightpetal_check` took 1.2 times as long, a frame 3 % longer.
pub fn restore(old: Chain, b: &[u8]) -> Changed
    ensures { result ≡ restore_of old b.now }
{
    let Some(edition) = edition_of(b.len()) else {
        return old.refused(Refusal::WrongLength);
    };
    if blocks::first_bad(b).is_some() {
        return old.refused(Refusal::BadCheck);
    }
    let mut w = [0u64; WORDS];
    blocks::payload(b, &mut w);
    let new = get_either(&w, edition);
    let mut again = [0u64; WORDS];
    put_either(&mut again, edition, new);
    if again != w {
        return old.refused(Refusal::ForeignImage);
    }
    After {
        chain: new,
        outcome: Ok(()),
    }
}
