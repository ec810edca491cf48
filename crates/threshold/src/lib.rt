// The limiter and the threshold voltage (the first half of `eval` in mosfet1.rs).
#![tactic(auto)]

ghost use Rattle.std.specs.Prelude.{◌≡◌};
ghost use Rattle.elementary.specs.Functions.{sqrt_of};
ghost use Rattle.threshold.specs.Limiter.{limited_vgs_of, limited_vds_of};
ghost use Rattle.threshold.specs.Threshold.{body_potential_of, threshold_of, body_slope_of};

use float::{abs, max, signum};

// fetlim: the step of vgs above the zero-bias threshold is cut to 1 V and a logarithm of the rest.
#[tactic(auto, unfolding(crate::specs::Limiter::limited_vgs_of, crate::specs::Limiter::cut_step_of))]
pub fn limit_vgs(vto: f64, vgs: f64, prev: f64) -> f64
    ensures { result ≡ limited_vgs_of vto vgs prev }
{
    let dvg = vgs - prev;
    let step = abs(dvg);
    if vgs > vto && step > 1.0 {
        prev + signum(dvg) * (1.0 + elementary::ln_1p(step - 1.0))
    } else {
        vgs
    }
}

// A vds that changes its sign is taken as a tenth of the previous one.
#[tactic(auto, unfolding(crate::specs::Limiter::limited_vds_of))]
pub fn limit_vds(vds: f64, prev: f64) -> f64
    ensures { result ≡ limited_vds_of vds prev }
{
    if abs(prev) > 1e-6 && prev * vds < 0.0 {
        0.1 * prev
    } else {
        vds
    }
}

pub fn body_potential(phi_t: f64, vbs: f64) -> f64
    ensures { result ≡ body_potential_of phi_t vbs }
{
    max(phi_t - vbs, 1e-10)
}

// The root of x. Where y is the same number, as with bulk and source at one voltage, its root is known and serves for both.
fn root_beside(x: f64, y: f64, root: f64) -> f64
    requires { root ≡ sqrt_of y }
    ensures { result ≡ sqrt_of x }
{
    if x > 0.0 && y > 0.0 && f64::to_bits(x) == f64::to_bits(y) {
        root
    } else {
        elementary::sqrt(x)
    }
}

pub fn threshold(vto: f64, gamma: f64, phi_t: f64, phi_m_vbs: f64) -> f64
    ensures { result ≡ threshold_of vto gamma phi_t phi_m_vbs }
{
    let with_bias = elementary::sqrt(phi_m_vbs);
    let without = root_beside(phi_t, phi_m_vbs, with_bias);
    vto + gamma * (with_bias - without)
}

#[tactic(auto, unfolding(crate::specs::Threshold::body_slope_of))]
pub fn body_slope(gamma: f64, phi_m_vbs: f64) -> f64
    ensures { result ≡ body_slope_of gamma phi_m_vbs }
{
    if gamma > 0.0 {
        -gamma / (2.0 * elementary::sqrt(phi_m_vbs))
    } else {
        0.0
    }
}
