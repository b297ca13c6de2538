// The square root of an f64, to the nearest: a guess in floats that exact integers check, and a plain loop where the guess is off.
#![tactic(auto)]

ghost use Rattle.std.specs.Prelude.{◌≡◌, true, ◌*◌, ◌^◌, ◌≤◌, ◌<◌};
ghost use Rattle.float.specs.Kind.{InRange};
ghost use Rattle.root.specs.Root.{root_of_units, sqrt_of};
ghost use Rattle.root.specs.Steps.{IsRoot, Stepped, Near};

use float::{HIDDEN, Kind, Parts};

const ONE: u64 = 4607182418800017408; // the bits of 1.0, 1023 * 2^52

const TWO: u64 = 4611686018427387904; // the bits of 2.0, 1024 * 2^52

const HALF: u64 = 67108864; // 2^26

// The root of the digits that were brought down, and what they have beyond its square.
#[derive(Clone, Copy)]
struct Part {
    root: u64,
    rem: u64,
}

impl Part {
    // Two more binary digits are brought down. `floor_root` shows the bounds.
    fn step(self, two: u64) -> Part
        requires { (self.rem ≤ 2 * self.root) × (self.root < 2 ^ 54) × (two < 4) }
        ensures { Stepped self.root self.rem two result.root result.rem }
    {
        let r = self.rem * 4 + two;
        let t = self.root * 4 + 1;
        if r >= t {
            Part {
                root: self.root * 2 + 1,
                rem: r - t,
            }
        } else {
            Part {
                root: self.root * 2,
                rem: r,
            }
        }
    }
}

// The root of a * 2^54, cut to a whole number: 54 digits of a, then 54 zeros. `Radicand::nearest_slow` shows the bound.
fn floor_root(a: u64) -> u64
    requires { a < 2 ^ 54 }
    ensures { IsRoot (a * 2 ^ 54) result }
{
    let mut part = Part { root: 0, rem: 0 };
    let mut rest = a;
    for _ in 0..54u64 {
        part = part.step(rest / HIDDEN);
        rest = rest % HIDDEN * 4;
    }
    part.root
}

// A guess at the root of y, from 1 to 4: a cubic, two of Newton's steps, and a correction by the rest of a shortened root's square.
// Only the time depends on it.
fn guess(y: f64) -> f64 {
    let s = 0.434038090129053
        + y * (0.661280787533071 + y * (0.008980238743724 * y - 0.103235591932001));
    let h = 0.5 * (s + y / s);
    let g = 0.5 * (h + y / h);
    let c = (g + 134217728.0) - 134217728.0;
    c + (y - c * c) / (c + g)
}

// 53 or 54 binary digits, of which the root is taken.
#[derive(Clone, Copy)]
struct Radicand {
    a: u64,
    ghost range: { (2 ^ 52 ≤ a) × (a < 2 ^ 54) },
}

impl Radicand {
    // The whole number nearest to the root of a * 2^52, digit by digit.
    fn nearest_slow(self) -> u64
        ensures { Near self.a result }
    {
        (floor_root(self.a) + 1) / 2
    }

    // Whether q is nearest to the root of a * 2^52: a * 2^52 - q * q is more than -q and at most q. `nearest` shows the bounds.
    // With q = h * 2^26 + l the difference is ((a - h * h) * 2^25 - h * l) * 2^27 - l * l. The bracket is below 2^30 in size, and f is
    // the bracket plus 2^30, so that no difference here is below zero; 2^57 is that 2^30 times 2^27.
    fn is_near(self, q: u64) -> bool
        requires { (2 ^ 52 ≤ q) × (q ≤ 2 ^ 53) }
        ensures { result ≡ true → Near self.a q }
    {
        let h = q / HALF;
        let l = q % HALF;
        let p = h * h;
        if self.a < p {
            return false;
        }
        let m = self.a - p;
        if m >= 1073741824 {
            return false;
        }
        let e = m * 33554432 + 1073741824;
        let x = h * l;
        if e < x {
            return false;
        }
        let f = e - x;
        if f >= 2147483648 {
            return false;
        }
        let t = f * 134217728;
        let u = l * l + 144115188075855872;
        if t + q <= u {
            return false;
        }
        t <= u + q
    }

    // The whole number nearest to the root of a * 2^52.
    fn nearest(self) -> u64
        ensures { Near self.a result }
    {
        let odd = self.a / (2 * HIDDEN);
        let g = guess(f64::from_bits((1022 + odd) * HIDDEN + (self.a >> odd)));
        if g > 0.0 {
            let b = g.to_bits();
            if (ONE..=TWO).contains(&b) {
                let q = b - (ONE - HIDDEN);
                if self.is_near(q) {
                    return q;
                }
            }
        }
        self.nearest_slow()
    }
}

// The root of p.sig * 2^p.exp units of 2^-1074. The value is a * 2^t * 2^-52 units, with 53 digits in a; where t is odd, a takes one digit of it.
// So the root is that of a * 2^52, times 2^(t / 2 + 485) units. `sqrt` shows the bounds.
fn root_of(p: Parts) -> f64
    requires { (0 < p.sig) × InRange p }
    ensures { result ≡ root_of_units (p.sig * 2 ^ p.exp) }
{
    let s = u64::from(p.sig.leading_zeros()) - 11;
    let t = p.exp + 52 - s;
    let a = (p.sig << s) * (1 + t % 2);
    let q = Radicand { a }.nearest();
    f64::from_bits((t / 2 + 485) * HIDDEN + q)
}

// The square root: nearest, ties to even. std has `f64::sqrt`; these steps stay, since the must-fail edits of this crate are made in them.
pub fn sqrt(x: f64) -> f64
    ensures { result ≡ sqrt_of x }
{
    match float::classify(x) {
        Kind::NotANumber => x,
        Kind::Infinite(negative) => { if negative { f64::NAN } else { x } }
        Kind::Finite(p) => {
            if p.sig == 0 {
                x
            } else if p.negative {
                f64::NAN
            } else {
                root_of(p)
            }
        }
    }
}
