// Numbers as words of a slice, and words as numbers. Each function is total: a word without a place is dropped, one that
// isn't there reads as 0, and a word that breaks a rule is read as some good value. No Option: whether all words were good is told once, when what was
// read is written again and compared. `at` says where a value begins in the one slice: a part of it would have to be cut, with its bound, for each value.
#![tactic(auto)]

ghost use Rattle.std.specs.Prelude.{◌≡◌, ◌∷◌, [], suc, ◌+◌, length, get_or, set, replicate};
ghost use Rattle.blocks.specs.Lists.{Laid};
ghost use Rattle.codec.specs.Fields.{capped};
ghost use Rattle.codec.specs.Codec.{Cell, value_at};
ghost use Rattle.codec.specs.Forms.{word, f64, f32, flag, counted, maybe};

const SIGN64: u64 = 0x8000_0000_0000_0000;

const SIGN32: u64 = 0x8000_0000;

const INFINITE64: u64 = 0x7ff0_0000_0000_0000; // an infinity's bits below the sign

const INFINITE32: u64 = 0x7f80_0000;

const HALF: u64 = 0x1_0000_0000; // the low half of a word is below it

// ---- values of one word

// A value of one word: how it is written, and what a word is read as.
pub trait Coded: Copy {
    ghost cell: { Cell Self };

    fn to_word(self) -> u64
        ensures { result ≡ cell.bits self };

    fn from_word(w: u64) -> Self
        ensures { result ≡ cell.read w };

    // What stands in an unused place. Not by `Default`: std tells generic code no value of it.
    fn blank() -> Self
        ensures { result ≡ cell.blank };
}

// A word stands for itself.
impl Coded for u64 {
    ghost cell = { word };

    fn to_word(self) -> u64 {
        self
    }

    fn from_word(w: u64) -> u64 {
        w
    }

    fn blank() -> u64 {
        0
    }
}

// 1 and 0. A word that is neither is read as false.
impl Coded for bool {
    ghost cell = { flag };

    fn to_word(self) -> u64 {
        u64::from(self)
    }

    fn from_word(w: u64) -> bool {
        w == 1
    }

    fn blank() -> bool {
        false
    }
}

// The bits of a finite number. A word that stands for none is read as 0: the test is of the word, here and below, as must-fail edits turn it.
impl Coded for f64 {
    ghost cell = { f64 };

    fn to_word(self) -> u64 {
        float::to_bits(self)
    }

    #[tactic(auto, using(crate::proofs::Numbers::num64_in, crate::proofs::Numbers::num64_out, crate::proofs::Numbers::num64_no_nan))]
    fn from_word(w: u64) -> f64 {
        if w % SIGN64 < INFINITE64 {
            f64::from_bits(w)
        } else {
            0.0
        }
    }

    fn blank() -> f64 {
        0.0
    }
}

// The same in the low half of a word; the high half has to be zero.
impl Coded for f32 {
    ghost cell = { f32 };

    fn to_word(self) -> u64 {
        u64::from(float::to_bits32(self))
    }

    #[tactic(auto, using(crate::proofs::Numbers::num32_in, crate::proofs::Numbers::num32_out, crate::proofs::Numbers::num32_wide, crate::proofs::Numbers::num32_no_nan))]
    fn from_word(w: u64) -> f32 {
        if w < HALF {
            if w % SIGN32 < INFINITE32 {
                return f32::from_bits(w as u32);
            }
        }
        0.0
    }

    fn blank() -> f32 {
        0.0
    }
}

// ---- writing

// The word v at place at + k.
fn store(w: &mut [u64], at: usize, k: usize, v: u64)
    ensures { w.new ≡ set w.old (at + k) v }
{
    if let Some(i) = at.checked_add(k)
        && i < w.len()
    {
        w[i] = v;
    }
}

// The value x at place `at`.
pub fn put<T: Coded>(w: &mut [u64], at: usize, x: T)
    ensures { Laid w.old at (T.cell.bits x ∷ []) w.new }
{
    store(w, at, 0, x.to_word());
}

// A value or none: a flag and the value, or two zeros.
pub fn put_option<T: Coded>(w: &mut [u64], at: usize, x: Option<T>)
    ensures { Laid w.old at ((maybe T.cell).enc x) w.new }
{
    match x {
        Some(x) => {
            put(w, at, true);
            store(w, at, 1, x.to_word());
        }
        None => put_zeros(w, at, 2),
    }
}

// n zeros, from place `at` on, one by one, since `store` drops what has no place.
pub fn put_zeros(w: &mut [u64], at: usize, n: usize)
    ensures { Laid w.old at (replicate n 0) w.new }
{
    for k in 0..n {
        store(w, at, k, 0);
    }
}

// ---- reading

// A number below n, or 0.
#[tactic(auto, unfolding(crate::specs::Fields::capped))]
pub fn capped(n: u64, w: u64) -> u64
    ensures { result ≡ capped n w }
{
    if w < n { w } else { 0 }
}

// The word at place at + k.
fn word(w: &[u64], at: usize, k: usize) -> u64
    ensures { result ≡ get_or w.now (at + k) 0 }
{
    match at.checked_add(k) {
        Some(i) => w.get(i).copied().unwrap_or(0),
        None => 0,
    }
}

// The value at place `at`.
pub fn get<T: Coded>(w: &[u64], at: usize) -> T
    ensures { result ≡ T.cell.read (get_or w.now at 0) }
{
    T::from_word(word(w, at, 0))
}

pub fn get_capped(w: &[u64], at: usize, n: u64) -> u64
    ensures { result ≡ capped n (get_or w.now at 0) }
{
    capped(n, get(w, at))
}

// The value or none at place `at`.
#[tactic(auto, unfolding(crate::specs::Codec::maybe_of))]
pub fn get_option<T: Coded>(w: &[u64], at: usize) -> Option<T>
    ensures { result ≡ (maybe T.cell).dec w.now at }
{
    if get(w, at) {
        Some(T::from_word(word(w, at, 1)))
    } else {
        None
    }
}

// ---- lists of values: a count, and the values; blanks stand in the places after them

// The count and the places v, from place `at` on. Count and slice, here and below, so that a list of any length is written by one function.
pub fn put_list<T: Coded>(w: &mut [u64], at: usize, count: usize, v: &[T])
    ensures { Laid w.old at ((counted T.cell (length v.now)).enc (count, v.now)) w.new }
{
    put(w, at, count as u64);
    for (k, x) in v.iter().enumerate() {
        store(w, at, k + 1, x.to_word());
    }
}

// The count at place `at` of a list of at most `most` values; a larger one counts as 0.
#[tactic(auto, unfolding(crate::specs::Fields::capped))]
fn count(w: &[u64], at: usize, most: usize) -> usize
    ensures { result ≡ capped (suc most) (get_or w.now at 0) }
{
    let n: u64 = get(w, at);
    if n <= most as u64 { n as usize } else { 0 }
}

// Value k of the n behind place `at`, and a blank past them.
#[tactic(auto, unfolding(crate::specs::Codec::value_at))]
fn value<T: Coded>(w: &[u64], at: usize, n: usize, k: usize) -> T
    ensures { result ≡ value_at T.cell w.now (at + 1) n k }
{
    if k < n {
        T::from_word(word(w, at, k + 1))
    } else {
        T::blank()
    }
}

// The list from place `at` on: its count, and its values in the first places of v.
pub fn get_list<T: Coded>(w: &[u64], at: usize, v: &mut [T]) -> usize
    ensures { (result, v.new) ≡ (counted T.cell (length v.old)).dec w.now at }
{
    let n = count(w, at, v.len());
    for (k, x) in v.iter_mut().enumerate() {
        *x = value(w, at, n, k);
    }
    n
}
