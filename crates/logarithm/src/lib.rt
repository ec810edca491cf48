// The logarithm in fixed point: a table and a polynomial.
#![tactic(auto)]

ghost use Rattle.std.specs.Prelude.{◌≡◌, ◌+◌, ◌-◌, ◌*◌, ◌/◌, ◌%◌, ◌^◌, ◌<◌, ◌≤◌, if◌then◌else◌, nat_lt};
ghost use Rattle.exact.specs.Float64.{◌<f◌, +1};
ghost use Rattle.logarithm.specs.FixedPoint.{near_one, limit, ln_mant_of, twos_of};
ghost use Rattle.logarithm.specs.declared.Log.TheVariants.{Above, Below};
ghost use Rattle.logarithm.specs.Logarithm.{log_bits, log_of, log_size_of, rounded_of, ln_of, ln1p_of};

use exponential::UNIT;
use tables::ln_row;
use wide::mulhi;

// ln(1 + z), z and the result in units of 2^-64. The first three products do not wait for one another.
fn near_one(z: u64) -> u64
    requires { z < 2 ^ 57 }
    ensures { result ≡ near_one z }
{
    let w = mulhi(z, z);
    let low = 0x8000000000000000 - mulhi(z, 0x5555555555555555);
    let high = 0x3fff78a000000000 - mulhi(z, 0x329b333333333333);
    z - mulhi(w, low + mulhi(w, high))
}

// A number from 1 up to 2, in units of 2^-62: the digits of a float, the first of them before the point.
#[derive(Clone, Copy)]
struct Mantissa {
    units: u64,
    ghost from_one: { 2 ^ 62 ≤ units },
    ghost below_two: { units < 2 ^ 63 },
}

// The logarithm of m, in units of 2^-64. The quotient's first digit, which is 1, is shifted out.
fn ln_mant(m: Mantissa) -> u64
    ensures { (result ≡ ln_mant_of m.units) × (result < limit) }
{
    let row = ln_row((m.units >> 55) & 127);
    row.log + near_one(mulhi(m.units, row.inverse) << 3)
}

// n ln 2 in units of 2^-53, rounded up.
fn twos(n: u64) -> u64
    requires { n ≤ 1100 }
    ensures { result ≡ twos_of n }
{
    n * 6243314768165360 - n * 1621 / 2048
}

// The natural logarithm of a base as pow_of takes it, in units of 2^-53.
#[derive(Clone, Copy)]
pub enum Log {
    // of a NaN, a negative number or an infinity
    Undefined,
    // of a zero
    BaseZero,
    // of 1
    BaseOne,
    // of a number above 1
    Above(u64),
    // of a number below 1, its size
    Below(u64),
}

// The logarithm of m * 2^n, in units of 2^-53. It and the next are one line each, of which one function would be no plainer.
fn log_above(m: Mantissa, n: u64) -> u64
    requires { n ≤ 1100 }
    ensures { result ≡ twos_of n + ln_mant_of m.units / 2048 }
{
    twos(n) + ln_mant(m) / 2048
}

// The size of the logarithm of m / 2^n.
fn log_below(m: Mantissa, n: u64) -> u64
    requires { (0 < n) × (n ≤ 1100) }
    ensures { result ≡ twos_of n - ln_mant_of m.units / 2048 }
{
    twos(n) - ln_mant(m) / 2048
}

// The digits of the normal number whose pattern is bits.
fn digits(bits: u64) -> Mantissa
    ensures { result.units ≡ (bits % 2 ^ 52 + 2 ^ 52) * 1024 }
{
    let units = ((bits & 0xf_ffff_ffff_ffff) + 0x10_0000_0000_0000) * 1024;
    Mantissa { units }
}

// The size of the logarithm of the positive finite number whose pattern is bits. The functions below answer a number, not a Log, which would go through memory.
fn size_of_bits(bits: u64) -> u64
    requires { (0 < bits) × (bits < 2047 * 2 ^ 52) }
    ensures { log_bits bits ≡ (if nat_lt (bits / 2 ^ 52) 1023 then Below result else Above result) }
{
    if bits < 0x10_0000_0000_0000 {
        let z = bits.leading_zeros() as u64;
        let units = bits << (z - 1);
        return log_below(Mantissa { units }, 1011 + z);
    }
    let m = digits(bits);
    let field = bits >> 52;
    if field < 1023 {
        return log_below(m, 1023 - field);
    }
    log_above(m, field - 1023)
}

// The logarithm with its sign.
fn log_bits(bits: u64) -> Log
    requires { (0 < bits) × (bits < 2047 * 2 ^ 52) }
    ensures { result ≡ log_bits bits }
{
    let v = size_of_bits(bits);
    if bits >> 52 < 1023 {
        return Log::Below(v);
    }
    Log::Above(v)
}

// The size of the logarithm of b, and a number above every size where b is not positive, not finite, or 1 (`log_size_of`, which
// docs/PROMISES.md names, has that number too). With a size below it the sign is told by a comparison with 1.
pub fn log_size(b: f64) -> u64
    ensures { (result ≡ log_size_of b) × (result ≤ 760 * 2 ^ 53 → log_of b ≡ (if (b <f +1) then Below result else Above result)) }
{
    if b > 0.0 && b < f64::INFINITY && b != 1.0 {
        return size_of_bits(b.to_bits());
    }
    u64::MAX
}

// The logarithm of a base.
pub fn log_of(b: f64) -> Log
    ensures { result ≡ log_of b }
{
    if b > 0.0 && b < f64::INFINITY {
        if b == 1.0 {
            return Log::BaseOne;
        }
        return log_bits(b.to_bits());
    }
    if b == 0.0 {
        Log::BaseZero
    } else {
        Log::Undefined
    }
}

// v * 2^-53, rounded once.
fn rounded(v: u64) -> f64
    ensures { result ≡ rounded_of v }
{
    std::num::nearest_u64_to_f64(v) * UNIT
}

// The natural logarithm of a positive normal number; NaN otherwise. A number is below 1 where its exponent's field is below 1023; at 1 the logarithm is 0 without a test.
pub fn ln(x: f64) -> f64
    ensures { result ≡ ln_of x }
{
    if x >= f64::MIN_POSITIVE && x < f64::INFINITY {
        let bits = x.to_bits();
        let field = bits >> 52;
        if field < 1023 {
            return -rounded(log_below(digits(bits), 1023 - field));
        }
        return rounded(log_above(digits(bits), field - 1023));
    }
    f64::NAN
}

// ln(1 + a) for a finite and not negative; NaN otherwise. 1 + a is not below 1, so its logarithm needs no test of the sign, and no Log.
pub fn ln_1p(a: f64) -> f64
    ensures { result ≡ ln1p_of a }
{
    let b = 1.0 + a;
    if a >= 0.0 && b < f64::INFINITY {
        let bits = b.to_bits();
        return rounded(log_above(digits(bits), (bits >> 52) - 1023));
    }
    f64::NAN
}
