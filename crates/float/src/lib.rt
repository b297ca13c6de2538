// Floats: what kind of f64 a value is, and the choices, the rounding and the finite tests that all other modules compute with.
#![tactic(auto)]

ghost use Rattle.std.specs.Prelude.{◌≡◌, ◌&&◌, Bool, List, [], ◌∷◌, true, T, length, replicate, if◌then◌else◌, from_bits, to_bits};
ghost use Rattle.std.specs.Float.{binary32, binary64};
ghost use Rattle.std.specs.Float.Ieee.Scale as scale;
ghost use Rattle.float.specs.Kind.{kind_of, field_parts};
ghost use Rattle.float.specs.AllFinite.{all_finite, all-none, all-more};
ghost use Rattle.float.specs.Same.{same_of, all_same};
ghost use Rattle.float.specs.Choice.{max_of, min_of, clamp_of};
ghost use Rattle.float.specs.Whole.{round_of, round_to};
ghost use Rattle.float.specs.Arithmetic.{toward};

// A loudness, LUFS.
#[derive(Clone, Copy)]
pub struct Lufs(pub f64);

// The loudness of silence, LUFS: no reading is below it, and one at it is no level.
pub const SILENCE_LUFS: f64 = -100.0;

// A reduction or another difference of levels, dB.
#[derive(Clone, Copy)]
pub struct Db(pub f64);

// A finite value: sig * 2^exp units of 2^-1074, with 53 digits in sig, or fewer where exp is 0. `InRange` says its bounds: it is no ghost field, since `kind_of`
// gives parts too of values that no format holds.
#[derive(Clone, Copy)]
pub struct Parts {
    pub negative: bool,
    pub sig: u64,
    pub exp: u64,
}

// What an f64 is. An infinity is negative where its bool is true: one bool needs no name in each pattern.
#[derive(Clone, Copy)]
pub enum Kind {
    NotANumber,
    Infinite(bool),
    Finite(Parts),
}

const SIGN: u64 = 9223372036854775808; // 2^63

const INFINITE: u64 = 9218868437227405312; // 2047 * 2^52

pub const HIDDEN: u64 = 4503599627370496; // 2^52, the digit that an f64 doesn't store

// The f64 with these bits. Every NaN's pattern stands for one and the same NaN. One function for each width, here and below, as in std.
pub fn from_bits(bits: u64) -> f64
    ensures { result ≡ from_bits binary64 bits }
{
    std::num::f64_from_bits_with_nan(bits)
}

// The f32 with these bits, likewise.
pub fn from_bits32(bits: u32) -> f32
    ensures { result ≡ from_bits binary32 bits }
{
    std::num::f32_from_bits_with_nan(bits)
}

// The bits of x. Every NaN has the same.
pub fn to_bits(x: f64) -> u64
    ensures { result ≡ to_bits binary64 x }
{
    std::num::f64_to_bits_with_nan(x)
}

// The bits of x, likewise.
pub fn to_bits32(x: f32) -> u32
    ensures { result ≡ to_bits binary32 x }
{
    std::num::f32_to_bits_with_nan(x)
}

// The parts that the bits a below the sign stand for.
#[tactic(auto, unfolding(crate::specs::Kind::field_parts))]
fn fields(negative: bool, a: u64) -> Parts
    ensures { result ≡ field_parts negative a }
{
    let field = a / HIDDEN;
    let digits = a % HIDDEN;
    if field == 0 {
        return Parts {
            negative,
            sig: digits,
            exp: 0,
        };
    }
    Parts {
        negative,
        sig: HIDDEN + digits,
        exp: field - 1,
    }
}

// What x is.
pub fn classify(x: f64) -> Kind
    ensures { result ≡ kind_of x }
{
    if x.is_nan() {
        return Kind::NotANumber;
    }
    let b = x.to_bits();
    let a = b % SIGN;
    if a == INFINITE {
        return Kind::Infinite(b >= SIGN);
    }
    Kind::Finite(fields(b >= SIGN, a))
}

// A float, of 64 or of 32 bits.
pub trait Real: Copy {
    // Whether a test of many ends with the first that isn't finite.
    const ENDS_EARLY: bool;

    ghost finite: { Self → Bool };

    ghost all_finite: { List Self → Bool };

    // Whether it is a number and no infinity.
    fn finite(self) -> bool
        ensures { result ≡ finite self };

    ghost none: { all_finite [] ≡ true };

    ghost more: { (x : Self) (xs : List Self) → all_finite (x ∷ xs) ≡ finite x && all_finite xs };
}

impl Real for f64 {
    const ENDS_EARLY: bool = true;

    ghost finite = { scale.finite };

    ghost all_finite = { all_finite };

    #[tactic(auto, using(crate::proofs::Finiteness::is_finite))]
    fn finite(self) -> bool {
        f64::is_finite(self)
    }

    ghost none = { all-none };

    ghost more = { all-more };
}

impl Real for f32 {
    // Not so, that the processor tests four at once: these are samples, of which few aren't finite.
    const ENDS_EARLY: bool = false;

    ghost finite = { scale.finite };

    ghost all_finite = { all_finite };

    #[tactic(auto, using(crate::proofs::Finiteness::is_finite))]
    fn finite(self) -> bool {
        f32::is_finite(self)
    }

    ghost none = { all-none };

    ghost more = { all-more };
}

// Whether x is a number and no infinity.
pub fn finite<T: Real>(x: T) -> bool
    ensures { result ≡ T.finite x }
{
    x.finite()
}

// Whether every number of v is finite.
pub fn all_finite<T: Real>(v: &[T]) -> bool
    ensures { result ≡ T.all_finite v.now }
{
    let mut all = true;
    for x in v {
        all = all & finite(*x);
        if T::ENDS_EARLY && !all {
            return false;
        }
    }
    all
}

// Whether a and b have the same bits; not where one is a NaN. Not `==`, which holds of zeros of both signs.
#[tactic(auto, unfolding(crate::specs::Same::same_of), using(crate::proofs::Sameness::by_bits))]
pub fn same(a: f64, b: f64) -> bool
    ensures { (result ≡ same_of a b) × (T result → a ≡ b) }
{
    if a.is_nan() || b.is_nan() {
        return false;
    }
    a.to_bits() == b.to_bits()
}

// Whether every value is the same as x.
pub fn all_same(x: f64, xs: &[f64]) -> bool
    ensures { (result ≡ all_same x xs.now) × (T result → xs.now ≡ replicate (length xs.now) x) }
{
    xs.iter().all(|y| same(*y, x))
}

// The first value where the test holds, else the second. A function, so that a caller's proof has no case for each.
pub fn pick(c: bool, a: f64, b: f64) -> f64
    ensures { result ≡ (if c then a else b) }
{
    if c { a } else { b }
}

// The left, unless the right is strictly greater. This, `min` and `clamp` are the Rust's own tests, in its order: std's say otherwise of a NaN and of
// zeros of both signs, and its `clamp` wants ends in order.
#[tactic(auto, unfolding(crate::specs::Choice::max_of))]
pub fn max(a: f64, b: f64) -> f64
    ensures { result ≡ max_of a b }
{
    if a < b { b } else { a }
}

// The left, unless the right is strictly smaller.
#[tactic(auto, unfolding(crate::specs::Choice::min_of))]
pub fn min(a: f64, b: f64) -> f64
    ensures { result ≡ min_of a b }
{
    if b < a { b } else { a }
}

// x, unless it is strictly below `low`, which is tried first, or strictly above `high`.
#[tactic(auto, unfolding(crate::specs::Choice::clamp_of))]
pub fn clamp(x: f64, low: f64, high: f64) -> f64
    ensures { result ≡ clamp_of x low high }
{
    if x < low {
        return low;
    }
    if high < x {
        return high;
    }
    x
}

// A share of the way from old to x.
pub fn toward(old: f64, x: f64, share: f64) -> f64
    ensures { result ≡ toward old x share }
{
    old + share * (x - old)
}

// The whole number nearest to x, half away from zero.
#[tactic(auto, using(crate::proofs::Rounding::as_std))]
pub fn round(x: f64) -> f64
    ensures { result ≡ round_of binary64 x }
{
    x.round()
}

// x to a multiple of 1 / n, half away from zero: n is 10.0 for tenths.
pub fn round_to(x: f64, n: f64) -> f64
    ensures { result ≡ round_to x n }
{
    round(x * n) / n
}
