// The power of a positive number: e to the product of the exponent and the base's logarithm, in fixed point.
#![tactic(auto)]

ghost use Rattle.std.specs.Prelude.{◌≡◌, ◌*◌, ◌^◌, ◌≤◌, T, true, cond, map, [], ◌∷◌};
ghost use Rattle.std.specs.Float.{nan};
ghost use Rattle.std.specs.Float.Ieee.{le, neg};
ghost use Rattle.exact.specs.Float64.{◌⊖◌, ◌=f◌, +0, +1};
ghost use Rattle.exponential.specs.Mantissa.{hi};
ghost use Rattle.exponential.specs.Exponential.{least, exp_fixed};
ghost use Rattle.logarithm.specs.declared.Log.TheVariants.{Above, Below};
ghost use Rattle.power.specs.Power.{four, product_of, power_of, size_of, down_of, raised_of, zero_to, pow_from, pow_of, Fractional, Digits};

use exponential::{UNIT, exp_fixed, whole_part};
use logarithm::{Log, log_of, log_size};
use wide::mulhi;

// e^(t / 2^50), or its reciprocal.
fn power(t: u64, down: bool) -> f64
    ensures { result ≡ power_of t down }
{
    if t > 788129934789836800 {
        if down {
            return 0.0;
        }
        return f64::INFINITY;
    }
    let e = exp_fixed(8 * t);
    if down {
        return 1.0 / e;
    }
    e
}

// p * v in units of 2^-50, where v is in units of 2^-53.
fn product(p: f64, v: u64) -> u64
    requires { T (le least p) × T (le p four) }
    ensures { result ≡ product_of p v }
{
    mulhi(whole_part(p) * 256, v)
}

// f64::abs would clear a zero's sign too, by another test.
fn size(p: f64) -> f64
    ensures { result ≡ size_of p }
{
    if p < 0.0 { -p } else { p }
}

// Whether the power is below 1.
fn down(below: bool, p: f64) -> bool
    ensures { result ≡ down_of below p }
{
    below != (p < 0.0)
}

// e^(p * v / 2^53), or e^(-p * v / 2^53) where the base is below 1. For an exponent below 2^-53 that is 1.
fn raised(v: u64, below: bool, p: f64) -> f64
    ensures { result ≡ cond (p =f +0) +1 (raised_of v below p) }
{
    let a = size(p);
    if a >= UNIT {
        if a > 4.0 {
            return f64::NAN;
        }
        return power(product(a, v), down(below, p));
    }
    if p.is_nan() { f64::NAN } else { 1.0 }
}

// The power of the base whose logarithm is l. The exponent 0 is tested last: it is rare.
fn pow_of(l: Log, p: f64) -> f64
    ensures { result ≡ pow_from l p }
{
    match l {
        Log::Undefined => undefined_to(p),
        Log::BaseZero => zero_to(p),
        Log::BaseOne => 1.0,
        Log::Above(v) => raised(v, false, p),
        Log::Below(v) => raised(v, true, p),
    }
}

// A base without a logarithm, not 0, to the power p.
fn undefined_to(p: f64) -> f64
    ensures { result ≡ cond (p =f +0) +1 nan }
{
    if p == 0.0 { 1.0 } else { f64::NAN }
}

// A zero to the power p.
fn zero_to(p: f64) -> f64
    ensures { result ≡ cond (p =f +0) +1 (zero_to p) }
{
    if p == 0.0 {
        return 1.0;
    }
    if p > 0.0 { 0.0 } else { f64::NAN }
}

// b to the power p, for a positive finite b and a p of size at most 4; the exact cases; NaN otherwise.
pub fn pow(b: f64, p: f64) -> f64
    ensures { result ≡ pow_of b p }
{
    pow_of(log_of(b), p)
}

// Several powers of one base, by one logarithm.
pub fn powers<const N: usize>(b: f64, exponents: [f64; N]) -> [f64; N]
    ensures { result ≡ map (pow_of b) exponents.entry }
{
    let l = log_of(b);
    let mut answers = exponents;
    for p in &mut answers {
        *p = pow_of(l, *p);
    }
    answers
}

// b^-m, b^(1 - m), b^-n and b^(1 - n): at once where b is 1, as it is at a junction without voltage, and quick where these exponents
// are fractions and the size of the logarithm is at most 700.
pub fn fractional_powers(b: f64, m: f64, n: f64) -> [f64; 4]
    ensures { result ≡ map (pow_of b) (neg m ∷ (+1 ⊖ m) ∷ neg n ∷ (+1 ⊖ n) ∷ []) }
{
    if b == 1.0 {
        return [1.0, 1.0, 1.0, 1.0];
    }
    let v = log_size(b);
    if v <= 6305039478318694400 && fractions(m) && fractions(n) {
        return by_digits(v, b < 1.0, m, n);
    }
    powers(b, [-m, 1.0 - m, -n, 1.0 - n])
}

// Whether the exponents m and 1 - m are both from 2^-53 up to 1.
fn fractions(m: f64) -> bool
    ensures { result ≡ true → Fractional m × Fractional (+1 ⊖ m) }
{
    m >= UNIT && 1.0 - m >= UNIT
}

// The four powers for such exponents, by the size v of the logarithm. All digits are taken before the first power, so that nothing waits.
fn by_digits(v: u64, below: bool, m: f64, n: f64) -> [f64; 4]
    requires { (v ≤ 700 * 2 ^ 53) × ((Fractional m × Fractional (+1 ⊖ m)) × (Fractional n × Fractional (+1 ⊖ n))) }
    ensures { result ≡ map (pow_from (cond below (Below v) (Above v))) (neg m ∷ (+1 ⊖ m) ∷ neg n ∷ (+1 ⊖ n) ∷ []) }
{
    let m_digits = exponent(m);
    let m_rest = exponent(1.0 - m);
    let n_digits = exponent(n);
    let n_rest = exponent(1.0 - n);
    let a = raise(v, m_digits);
    let c = raise(v, m_rest);
    let d = raise(v, n_digits);
    let e = raise(v, n_rest);
    if below {
        return [a, 1.0 / c, d, 1.0 / e];
    }
    [1.0 / a, c, 1.0 / d, e]
}

// An exponent from 2^-53 up to 1, in units of 2^-61.
fn exponent(a: f64) -> u64
    requires { Fractional a }
    ensures { Digits a result }
{
    whole_part(a) * 256
}

// e^(a * v / 2^53) for such an exponent a, by its digits.
fn raise(v: u64, digits: u64) -> f64
    requires { (v ≤ 700 * 2 ^ 53) × (digits ≤ 2 ^ 61) }
    ensures { result ≡ exp_fixed (8 * hi digits v) }
{
    exp_fixed(8 * mulhi(digits, v))
}
