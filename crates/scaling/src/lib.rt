// How potentials, junction capacitances and the threshold move with temperature (the Rust's temperature.rs, its second half).
#![tactic(auto)]

ghost use Rattle.std.specs.Prelude.{◌≡◌};
ghost use Rattle.temperature.specs.Temperature.{scaled_phi_of, scaled_junction_potential_of, junction_cap_factor_of, scaled_vto_of, phio_of, cap_term_of, body_term_of};

use elementary::sqrt;
use float::max;
use temperature::{Kelvin, REFTEMP_K, bandgap_ev, pbfact};

// The part of a potential that does not move with temperature: pbfact is taken out at tnom.
fn phio(phi_nom: f64, tnom: Kelvin) -> f64
    ensures { result ≡ phio_of phi_nom tnom }
{
    let fact1 = tnom.0 / REFTEMP_K;
    (phi_nom - pbfact(tnom)) / fact1
}

// The surface potential at t, from the nominal one.
pub fn scaled_phi(phi_nom: f64, t: Kelvin, tnom: Kelvin) -> f64
    ensures { result ≡ scaled_phi_of phi_nom t tnom }
{
    if t.0 <= 0.0 || tnom.0 <= 0.0 {
        return phi_nom;
    }
    (t.0 / REFTEMP_K) * phio(phi_nom, tnom) + pbfact(t)
}

// A junction's built-in potential at t, by the same law: docs/PORTED.md names both functions, as the Rust has them.
pub fn scaled_junction_potential(vj_nom: f64, t: Kelvin, tnom: Kelvin) -> f64
    ensures { result ≡ scaled_junction_potential_of vj_nom t tnom }
{
    scaled_phi(vj_nom, t, tnom)
}

// One half of the capacitance's law, at tnom with the nominal potential and at t with the scaled one.
fn cap_term(vj: f64, m: f64, pbo: f64, t: Kelvin) -> f64
    ensures { result ≡ cap_term_of vj m pbo t }
{
    let gma = (vj - pbo) / pbo;
    1.0 + m * (4e-4 * (t.0 - REFTEMP_K) - gma)
}

// The factor of a zero-bias junction capacitance. The divisor can be negative, and close to 0.
pub fn junction_cap_factor(vj_nom: f64, m: f64, t: Kelvin, tnom: Kelvin) -> f64
    ensures { result ≡ junction_cap_factor_of vj_nom m t tnom }
{
    if t.0 <= 0.0 || tnom.0 <= 0.0 || vj_nom <= 0.0 {
        return 1.0;
    }
    let pbo = phio(vj_nom, tnom);
    if pbo == 0.0 {
        return 1.0;
    }
    let vj_t = scaled_junction_potential(vj_nom, t, tnom);
    let denom = cap_term(vj_nom, m, pbo, tnom);
    if denom == 0.0 {
        return 1.0;
    }
    cap_term(vj_t, m, pbo, t) / denom
}

// The body effect's part of a threshold, ty the sign of the polarity.
fn body_term(ty: f64, gamma: f64, phi: f64) -> f64
    ensures { result ≡ body_term_of ty gamma phi }
{
    ty * gamma * sqrt(max(phi, 0.0))
}

// The threshold at t.
pub fn scaled_vto(
    vto: f64,
    gamma: f64,
    phi_nom: f64,
    phi_t: f64,
    t: Kelvin,
    tnom: Kelvin,
    is_pmos: bool,
) -> f64
    ensures { result ≡ scaled_vto_of vto gamma phi_nom phi_t t tnom is_pmos }
{
    let ty = if is_pmos { -1.0 } else { 1.0 };
    let vbi = vto - body_term(ty, gamma, phi_nom)
        + 0.5 * (bandgap_ev(tnom) - bandgap_ev(t))
        + ty * 0.5 * (phi_t - phi_nom);
    vbi + body_term(ty, gamma, phi_t)
}
