// The temperature scales, silicon's bandgap, and the factors that rest on it (the Rust's temperature.rs). The potentials, junction
// capacitances and the threshold are in `scaling`; all of their definitions are here.
#![tactic(auto)]

ghost use Rattle.std.specs.Prelude.{◌≡◌};
ghost use Rattle.temperature.specs.Temperature.{kelvin_of, tnom_default, bandgap_ev_of, mos_junction_is_factor_of, pbfact_of, mobility_factor_of};

use elementary::{exp, ln, pow};

// SPICE3's Boltzmann constant and electron charge: the fits below were made with these digits.
const BOLTZ: f64 = 1.3806226e-23;

const CHARGE: f64 = 1.6021918e-19;

// The temperature that the fits refer to, 27 °C.
pub const REFTEMP_K: f64 = 300.15;

// A temperature in degrees Celsius, as a card gives it.
#[derive(Clone, Copy)]
pub struct Celsius(pub f64);

// A temperature in kelvin, as everything else takes it.
#[derive(Clone, Copy)]
pub struct Kelvin(pub f64);

// The one place where degrees Celsius become kelvin: docs/DECISIONS.md names it, so no From.
pub fn to_kelvin(c: Celsius) -> Kelvin
    ensures { result ≡ kelvin_of c }
{
    Kelvin(c.0 + 273.15)
}

// The nominal temperature of a card that gives none, as a card would give it (the Rust's `TNOM_DEFAULT_K`, 300.15 K).
pub fn tnom_default() -> Celsius
    ensures { result ≡ tnom_default }
{
    Celsius(27.0)
}

// Silicon's bandgap in eV, the SPICE3 fit.
pub fn bandgap_ev(t: Kelvin) -> f64
    ensures { result ≡ bandgap_ev_of t }
{
    let t = t.0;
    1.16 - (7.02e-4 * t * t) / (t + 1108.0)
}

// The factor of a bulk junction's saturation current. It and the functions below take t and tnom one by one, as docs/PORTED.md names them from the Rust.
pub fn mos_junction_is_factor(t: Kelvin, tnom: Kelvin) -> f64
    ensures { result ≡ mos_junction_is_factor_of t tnom }
{
    if t.0 <= 0.0 || tnom.0 <= 0.0 {
        return 1.0;
    }
    let vt = t.0 * BOLTZ / CHARGE;
    let vtnom = tnom.0 * BOLTZ / CHARGE;
    exp(bandgap_ev(tnom) / vtnom - bandgap_ev(t) / vt)
}

// The built-in potential's temperature term.
pub fn pbfact(t: Kelvin) -> f64
    ensures { result ≡ pbfact_of t }
{
    let vt = t.0 * BOLTZ / CHARGE;
    let arg = -bandgap_ev(t) / (2.0 * BOLTZ * t.0) + 1.1150877 / (BOLTZ * 2.0 * REFTEMP_K);
    -2.0 * vt * (1.5 * ln(t.0 / REFTEMP_K) + CHARGE * arg)
}

// The factor of KP.
pub fn mobility_factor(t: Kelvin, tnom: Kelvin) -> f64
    ensures { result ≡ mobility_factor_of t tnom }
{
    if t.0 <= 0.0 || tnom.0 <= 0.0 {
        return 1.0;
    }
    pow(t.0 / tnom.0, -1.5)
}
