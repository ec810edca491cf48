// The methods of Rust's f64 that the model calls.
#![tactic(auto)]

ghost use Rattle.std.specs.Prelude.{◌≡◌};
ghost use Rattle.exact.specs.Float64.{absolute, signum, maximum};

pub fn abs(x: f64) -> f64
    ensures { result ≡ absolute x }
{
    x.abs()
}

// f64::signum takes ten instructions more where x is not zero.
pub fn signum(x: f64) -> f64
    ensures { result ≡ signum x }
{
    if x < 0.0 {
        return -1.0;
    }
    if x > 0.0 {
        return 1.0;
    }
    if x.is_nan() {
        return x;
    }
    if 1.0 / x < 0.0 {
        return -1.0;
    }
    1.0
}

// f64::max does not say which of two zeros it answers. In the model y is a constant at each call, and the compiler drops the test of y.
pub fn max(x: f64, y: f64) -> f64
    ensures { result ≡ maximum x y }
{
    if x >= y || y.is_nan() { x } else { y }
}
