// The logarithm of an f64 to base 2 and to base 10, by whole numbers.
#![tactic(auto)]

ghost use Rattle.std.specs.Prelude.{◌≡◌, ◌+◌, ◌*◌, ◌^◌, ◌<◌};
ghost use Rattle.float.specs.Kind.{InRange};
ghost use Rattle.std.specs.Float.Ieee.{minus};
ghost use Rattle.logarithm.specs.Logarithm.{Digits31, steps, fraction_of, whole_log_of, quotient_of, log2_of, log10_of};

use float::{Kind, Parts};

// How many bits of the logarithm follow the point.
const STEPS: u64 = 24;

// 2^24: N is the logarithm times this.
const SCALE: u64 = 1 << STEPS;

const DIVISOR: f64 = 16777216.0; // the same

// N of 2^1074, which makes the least f64 above zero 1.
const LEAST: u64 = 1074 * SCALE;

// The f64 nearest log10 2.
const LOG10_2: f64 = 0.3010299956639812;

// The bits of the logarithm of m / 2^30. `whole_log` shows the bounds. Whenever a squaring starts 2^30 <= s < 2^31, so that 32 bits hold s; only the
// product is wider. q has at most 32 bits too, but stays in the product's 64: the bit is then one shift of the product, not two.
#[tactic(auto, using(crate::proofs::Squaring::square_below, crate::proofs::Squaring::bits_below, crate::proofs::Squaring::s_next, crate::proofs::Squaring::f_next))]
fn fraction(m: u32) -> u64
    requires { Digits31 m }
    ensures { result ≡ fraction_of steps m }
{
    let mut s = m;
    let mut f = 0u64;
    for _ in 0..STEPS {
        let wide = u64::from(s);
        let q = (wide * wide) >> 30;
        let bit = q >> 31;
        f = f * 2 + bit;
        s = (q as u32) >> bit;
    }
    f
}

// N of the whole number p.sig * 2^p.exp. The leading digit of sig is brought to the top of the word, and 31 digits are kept. `log2` shows the bounds.
fn whole_log(p: Parts) -> u64
    requires { (0 < p.sig) × InRange p }
    ensures { (result ≡ whole_log_of steps (p.sig * 2 ^ p.exp)) × (result < 2 ^ (12 + steps)) }
{
    let zeros = p.sig.leading_zeros();
    let m = ((p.sig << zeros) >> 33) as u32;
    let place = 63 - u64::from(zeros) + p.exp;
    place * SCALE + fraction(m)
}

// (n - 1074 * 2^24) / 2^24, which is exact. `log2` shows the bound.
fn quotient(n: u64) -> f64
    requires { n < 2 ^ (12 + steps) }
    ensures { result ≡ quotient_of steps (minus n (1074 * 2 ^ steps)) }
{
    if n >= LEAST {
        (n - LEAST) as f64 / DIVISOR
    } else {
        (LEAST - n) as f64 / -DIVISOR
    }
}

// The logarithm of x to base 2, to 24 bits after the point: minus infinity of a zero, a NaN of a negative number.
pub fn log2(x: f64) -> f64
    ensures { result ≡ log2_of x }
{
    match float::classify(x) {
        Kind::NotANumber => x,
        Kind::Infinite(negative) => { if negative { f64::NAN } else { x } }
        Kind::Finite(p) => {
            if p.sig == 0 {
                f64::NEG_INFINITY
            } else if p.negative {
                f64::NAN
            } else {
                quotient(whole_log(p))
            }
        }
    }
}

// The logarithm of x to base 10: that to base 2, times log10 2.
#[tactic(auto, unfolding(crate::specs::Logarithm::log10_of))]
pub fn log10(x: f64) -> f64
    ensures { result ≡ log10_of x }
{
    log2(x) * LOG10_2
}
