// An f64 to the nearest f32, at a tie to the even one, by integers alone.
#![tactic(auto)]

ghost use Rattle.std.specs.Prelude.{◌≡◌, cond, ◌+◌, ◌*◌, ◌^◌, ◌≤◌, ◌<◌};
ghost use Rattle.std.specs.Float.{binary32};
ghost use Rattle.std.specs.Float.Ieee.{of_bits};
ghost use Rattle.std.specs.Float.Ieee.Nearest.{closest};
ghost use Rattle.float.specs.Kind.{InRange};
ghost use Rattle.narrow.specs.Narrow.{narrow_bits, narrow_of};

use float::{Kind, Parts};

const SIGN: u64 = 2147483648; // 2^31

const INFINITE: u64 = 2139095040; // 255 * 2^23

const HIDDEN: u64 = 8388608; // 2^23

// sig / 2^d to the nearest whole number, at a tie to the even one. `narrow_bits` shows the bounds.
fn nearest_shift(sig: u64, d: u64) -> u64
    requires { (sig < 2 ^ 53) × ((0 < d) × (d < 64)) }
    ensures { result ≡ closest sig (2 ^ d) }
{
    let half = 1u64 << (d - 1);
    let odd = (sig >> d) % 2;
    (sig + (half - 1) + odd) >> d
}

// The f32's bits below the sign, for p.sig * 2^p.exp units of 2^-1074: at most those of an infinity. `narrow` shows the bounds.
#[tactic(auto, using(crate::proofs::Rounded::no_bits))]
fn narrow_bits(p: Parts) -> u64
    requires { InRange p }
    ensures { result ≡ narrow_bits p.sig p.exp }
{
    if p.exp >= 896 {
        return ((p.exp - 896) * HIDDEN + nearest_shift(p.sig, 29)).min(INFINITE);
    }
    let d = 925 - p.exp;
    if d >= 64 {
        return 0;
    }
    nearest_shift(p.sig, d)
}

// The f32 with this sign and the bits n below it. `narrow` shows the bound.
fn signed(negative: bool, n: u64) -> f32
    requires { n ≤ 255 * 2 ^ 23 }
    ensures { result ≡ of_bits binary32 (cond negative (2 ^ 31) 0 + n) }
{
    if negative {
        f32::from_bits((SIGN + n) as u32)
    } else {
        f32::from_bits(n as u32)
    }
}

// The f32 nearest to x. std's `nearest_f64_to_f32_with_nan` says the same; it was tried, and takes 2.4 times as long.
pub fn narrow(x: f64) -> f32
    ensures { result ≡ narrow_of x }
{
    match float::classify(x) {
        Kind::NotANumber => f32::NAN,
        Kind::Infinite(negative) => signed(negative, INFINITE),
        Kind::Finite(p) => signed(p.negative, narrow_bits(p)),
    }
}
