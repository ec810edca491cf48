// The exports of the elementary functions for C.
#![tactic(auto)]

ghost use Rattle.std.specs.Prelude.{◌≡◌};
ghost use Rattle.elementary.specs.Functions.{sqrt_of, exp_of, ln_of, ln1p_of, pow_of};

#[unsafe(no_mangle)]
pub extern "C" fn elementary_sqrt(x: f64) -> f64
    ensures { result ≡ sqrt_of x }
{
    elementary::sqrt(x)
}

#[unsafe(no_mangle)]
pub extern "C" fn elementary_exp(x: f64) -> f64
    ensures { result ≡ exp_of x }
{
    elementary::exp(x)
}

#[unsafe(no_mangle)]
pub extern "C" fn elementary_ln(x: f64) -> f64
    ensures { result ≡ ln_of x }
{
    elementary::ln(x)
}

#[unsafe(no_mangle)]
pub extern "C" fn elementary_ln_1p(a: f64) -> f64
    ensures { result ≡ ln1p_of a }
{
    elementary::ln_1p(a)
}

#[unsafe(no_mangle)]
pub extern "C" fn elementary_pow(b: f64, p: f64) -> f64
    ensures { result ≡ pow_of b p }
{
    elementary::pow(b, p)
}
