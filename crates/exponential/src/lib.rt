// The exponential in fixed point.
#![tactic(auto)]

ghost use Rattle.std.specs.Prelude.{◌≡◌, ◌+◌, ◌*◌, ◌/◌, ◌^◌, ◌<◌, ◌≤◌, T, from_bits};
ghost use Rattle.std.specs.Float.{binary64};
ghost use Rattle.std.specs.Float.Ieee.{le};
ghost use Rattle.exponential.specs.Mantissa.{mant_of};
ghost use Rattle.exponential.specs.Exponential.{pattern_of, exp_fixed, fixed_of, exp_of, least, greatest};

use std::num::wrapping_sub_u64;
use tables::exp_tab;
use wide::{mulhi, mullo};

// c + t q / 2^64, cut to a whole number: a step of Horner's rule.
fn step(t: u64, c: u64, q: u64) -> u64
    requires { (t < 2 ^ 56) × (c ≤ 2 ^ 63) }
    ensures { result ≡ c + t * q / 2 ^ 64 }
{
    c + mulhi(t, q)
}

// e^(r / 2^64) in units of 2^-62. The square of t does not wait for the factor that it is multiplied by.
fn mant(r: u64) -> u64
    requires { r < 178 * 2 ^ 56 }
    ensures { result ≡ mant_of r }
{
    let t = r & 0xff_ffff_ffff_ffff;
    let q3 = step(t, 0x1555548444444444, 0x557333333333333);
    let q2 = step(t, 0x4000000000000000, q3);
    let p = (t >> 1) + mulhi(mulhi(t, t), q2);
    let b = exp_tab(r >> 56);
    (b >> 1) + mulhi(b, p)
}

// The whole part of x * 2^53, where that is not 0: the digits of x's pattern, shifted to their place.
pub fn whole_part(x: f64) -> u64
    requires { T (le least x) × T (le x greatest) }
    ensures { result ≡ fixed_of x }
{
    let bits = x.to_bits();
    (((bits & 0xf_ffff_ffff_ffff) + 0x10_0000_0000_0000) * 2048) >> (1033 - (bits >> 52))
}

// m * 2^(k - 62), cut to 53 digits. Where m is 2^63 or a little more, its digits are 2^53, which carries into the exponent.
fn assembled(m: u64, k: u64) -> f64
    requires { (2 ^ 62 ≤ m) × (m < 2 ^ 63 + 2 ^ 10) × (k ≤ 1010) }
    ensures { result ≡ from_bits binary64 (pattern_of m k) }
{
    f64::from_bits((k + 1022) * 0x10_0000_0000_0000 + (m >> 10))
}

// e^(x / 2^53) = 2^k e^r, with r in units of 2^-64. x * 2048 and k ln 2 may be too large for a word; their difference fits.
pub fn exp_fixed(x: u64) -> f64
    requires { x ≤ 700 * 2 ^ 53 }
    ensures { result ≡ exp_fixed x }
{
    let k = mulhi(x, 0xb8aa_3b29_5c17_f0bc) >> 52;
    let r = wrapping_sub_u64(x << 11, mullo(k, 12786308645202655659));
    assembled(mant(r), k)
}

// 2^-53, the unit of the fixed point: a number of a smaller size has no whole part in it, and e^0 is 1.
pub const UNIT: f64 = 0.00000000000000011102230246251565;

// e^x: +infinity above 700, 0 below -700, 1 near zero, NaN at NaN. The sign and the nearness to zero are one test: a number within the range meets two tests or three in all.
pub fn exp(x: f64) -> f64
    ensures { result ≡ exp_of x }
{
    if x <= -UNIT {
        if x < -700.0 {
            return 0.0;
        }
        return 1.0 / exp_fixed(whole_part(-x));
    }
    if x >= UNIT {
        if x > 700.0 {
            return f64::INFINITY;
        }
        return exp_fixed(whole_part(x));
    }
    if x.is_nan() { f64::NAN } else { 1.0 }
}
