// The channel's noise densities (`noise_sources` of mosfet1.rs).
#![tactic(auto)]

ghost use Rattle.std.specs.Prelude.{◌≡◌};
ghost use Rattle.noise.specs.Noise.{thermal_noise_of, flicker_noise_of};

use float::abs;
use temperature::Kelvin;

const K_BOLTZMANN: f64 = 1.380649e-23;

#[tactic(auto, unfolding(crate::specs::Noise::thermal_noise_of))]
pub fn thermal_noise(gm: f64, temperature: Kelvin) -> f64
    ensures { result ≡ thermal_noise_of gm temperature }
{
    let size = abs(gm);
    if size < 1e-18 {
        0.0
    } else {
        8.0 / 3.0 * K_BOLTZMANN * temperature.0 * size
    }
}

#[tactic(auto, unfolding(crate::specs::Noise::flicker_noise_of))]
pub fn flicker_noise(kf: f64, af: f64, ids: f64, freq: f64, norm: f64) -> f64
    ensures { result ≡ flicker_noise_of kf af ids freq norm }
{
    if kf > 0.0 && freq > 0.0 {
        kf * elementary::pow(abs(ids), af) / (freq * norm)
    } else {
        0.0
    }
}
