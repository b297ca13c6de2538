// The powers 2^y, e^x, 10^u and 60^u, by integers: a product of roots for the fraction of y, and the binary exponent for the rest.
#![tactic(auto)]

ghost use Rattle.std.specs.Prelude.{◌≡◌, ◌+◌, ◌-◌, ◌*◌, ◌/◌, ◌^◌, ◌≤◌, ◌<◌};
ghost use Rattle.power.specs.Roots.{roots};
ghost use Rattle.power.specs.Power.{raise, above, floor_units, pow_at, exp2_of, exp_of, exp10_of, exp60_of};

use float::{Kind, Parts};

const ONE: u64 = 1073741824; // 2^30: 1 in the roots' units

const SCALE: u64 = 16777216; // 2^24: an exponent is counted in steps of 1 / 2^24

const THOUSAND: u64 = 1000 * SCALE;

const FIELD: u64 = 4503599627370496; // 2^52: the weight of an f64's exponent

const SPARE: u64 = 4194304; // 2^22: an f64 has 53 digits, and 31 are used

// The f64 nearest log2 e, log2 10 and log2 60.
const LOG2_E: f64 = 1.4426950408889634;

const LOG2_10: f64 = 3.321928094887362;

const LOG2_60: f64 = 5.906890595608519;

// 2^(1/2), 2^(1/4), .. 2^(1/2^24), in units of 2^-30.
const ROOTS: [u64; 24] = [
    1518500249, 1276901416, 1170923761, 1121280435, 1097253707, 1085434105, 1079572135, 1076653032,
    1075196442, 1074468886, 1074105293, 1073923543, 1073832679, 1073787250, 1073764536, 1073753179,
    1073747501, 1073744662, 1073743242, 1073742532, 1073742177, 1073742000, 1073741911, 1073741867,
];

// The roots for the bits of a fraction, the half's first. A function, so that a contract says what the table is.
#[tactic(auto, unfolding(crate::specs::Roots::roots))]
fn all_roots() -> [u64; 24]
    ensures { result ≡ roots }
{
    ROOTS
}

// 2^(f / 2^24), in units of 2^-30: the product of the roots of f's set bits. `power_at` shows the bound.
fn fraction(f: u64) -> u64
    requires { f < 2 ^ 24 }
    ensures { (result ≡ raise roots f (2 ^ 30)) × (2 ^ 30 ≤ result) × (result < 2 ^ 31) }
{
    let table = all_roots();
    let mut m = ONE;
    for (i, &root) in table.iter().enumerate() {
        let bit = (f >> (23 - i)) % 2;
        m = m * (ONE + bit * (root - ONE)) / ONE;
    }
    m
}

// 2^(k / 2^24 - 1,000). `exp2` shows the bound.
fn power_at(k: u64) -> f64
    requires { k ≤ 2000 * 2 ^ 24 }
    ensures { result ≡ pow_at k }
{
    let n = k / SCALE;
    let m = fraction(k % SCALE);
    f64::from_bits((n + 22) * FIELD + m * SPARE)
}

// sig / 2^s, cut to a whole number. `steps` shows the bound.
fn shifted(sig: u64, s: u64) -> u64
    requires { sig < 2 ^ 53 }
    ensures { result ≡ sig / 2 ^ s }
{
    if s < 53 { sig >> s } else { 0 }
}

// floor(y * 2^24) + 1,000 * 2^24 for a y of at most 1,000 in size: y * 2^24 is sig / 2^(1050 - exp). `exp2` shows the bounds.
fn steps(p: Parts) -> u64
    requires { (p.sig < 2 ^ 53) × (p.exp ≤ 1050) × (p.sig * 2 ^ p.exp ≤ 1000 * 2 ^ 1074) }
    ensures { (result ≡ above (floor_units p.negative (p.sig * 2 ^ p.exp))) × (result ≤ 2000 * 2 ^ 24) }
{
    let s = 1050 - p.exp;
    if p.negative {
        if p.sig == 0 {
            return THOUSAND;
        }
        return THOUSAND - (shifted(p.sig - 1, s) + 1);
    }
    THOUSAND + shifted(p.sig, s)
}

// 2^y. A y below -1,000 gives 0, one above 1,000 counts as 1,000; a NaN gives a NaN.
pub fn exp2(y: f64) -> f64
    ensures { result ≡ exp2_of y }
{
    if y < -1000.0 {
        return 0.0;
    }
    match float::classify(float::min(y, 1000.0)) {
        Kind::Finite(p) => power_at(steps(p)),
        Kind::Infinite(_) => y, // none: minus infinity is below -1,000, and plus infinity counts as 1,000
        Kind::NotANumber => y,
    }
}

// e^x. This and the two below are a product and `exp2`, each with a definition of its own.
#[tactic(auto, unfolding(crate::specs::Power::exp_of))]
pub fn exp(x: f64) -> f64
    ensures { result ≡ exp_of x }
{
    exp2(x * LOG2_E)
}

// 10^u.
#[tactic(auto, unfolding(crate::specs::Power::exp10_of))]
pub fn exp10(u: f64) -> f64
    ensures { result ≡ exp10_of u }
{
    exp2(u * LOG2_10)
}

// 60^u.
#[tactic(auto, unfolding(crate::specs::Power::exp60_of))]
pub fn exp60(u: f64) -> f64
    ensures { result ≡ exp60_of u }
{
    exp2(u * LOG2_60)
}
