// The bulk junctions: `SimContext::vt` of device.rs and `bulk_junction` of mosfet1.rs.
#![tactic(auto)]

ghost use Rattle.std.specs.Prelude.{◌≡◌};
ghost use Rattle.junction.specs.Junction.{thermal_voltage_of, junction_exponential_of, junction_at_of, bulk_junction_of, junction_offset_of};

use temperature::Kelvin;

// device.rs's constants; temperature.rs has others.
const K_BOLTZMANN: f64 = 1.380649e-23;

const Q_ELECTRON: f64 = 1.602176634e-19;

// A junction's current and conductance.
#[derive(Clone, Copy)]
pub struct Junction {
    pub i: f64,
    pub g: f64,
}

pub fn vt(temperature: Kelvin) -> f64
    ensures { result ≡ thermal_voltage_of temperature }
{
    K_BOLTZMANN * temperature.0 / Q_ELECTRON
}

// e^(v / vt). With isat not above 0 nothing reads it, and it is not computed. It stands by itself because it is slow and rests on
// nothing but the voltage: an evaluation begins with both junctions' and has the channel computed meanwhile.
pub fn junction_exponential(isat: f64, v: f64, vt: f64) -> f64
    ensures { result ≡ junction_exponential_of isat v vt }
{
    if isat <= 0.0 {
        return 0.0;
    }
    elementary::exp(v / vt)
}

// The junction from its exponential e.
pub fn junction_at(isat: f64, e: f64, v: f64, vt: f64, gmin: f64) -> Junction
    ensures { result ≡ junction_at_of isat e v vt gmin }
{
    if isat <= 0.0 {
        return Junction {
            i: gmin * v,
            g: gmin,
        };
    }
    Junction {
        i: isat * (e - 1.0) + gmin * v,
        g: isat * e / vt + gmin,
    }
}

pub fn bulk_junction(isat: f64, v: f64, vt: f64, gmin: f64) -> Junction
    ensures { result ≡ bulk_junction_of isat v vt gmin }
{
    let e = junction_exponential(isat, v, vt);
    junction_at(isat, e, v, vt, gmin)
}

// The Norton offset, back in real terms.
pub fn junction_offset(pol: f64, i: f64, g: f64, v: f64) -> f64
    ensures { result ≡ junction_offset_of pol i g v }
{
    pol * (i - g * v)
}
