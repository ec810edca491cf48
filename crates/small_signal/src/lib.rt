// Noise and reactances at the operating point (`noise_sources` and `small_signal_reactances` of mosfet1.rs).
#![tactic(auto)]

ghost use Rattle.std.specs.Prelude.{◌≡◌};
ghost use Rattle.device.specs.Refusals.{outcome};
ghost use Rattle.model.specs.SmallSignal.{density_of, noise_of, reactance_of, five_of, reactances_of};

use device::{Charges, Mosfet1, NodeId, Refusal, Terminals};
use model::small_signal::{Capacitor, NoiseSource, Reactances};
use temperature::Kelvin;

// Thermal and flicker noise are not correlated, so the densities add up.
#[tactic(auto, unfolding(model::specs::SmallSignal::density_of))]
fn density(d: Mosfet1, temperature: Kelvin, freq: f64) -> f64
    ensures { result ≡ density_of d temperature freq }
{
    let thermal = noise::thermal_noise(d.point.gm, temperature);
    let norm = d.geometry.w * d.geometry.l * d.card.cox;
    thermal + noise::flicker_noise(d.card.kf, d.card.af, d.point.ids_eval, freq, norm)
}

// One source from drain to source, or none. A density that is NaN is one.
pub fn noise_sources(
    d: Mosfet1,
    temperature: Kelvin,
    freq: f64,
) -> Result<Option<NoiseSource>, Refusal>
    ensures { outcome result ≡ noise_of d temperature freq }
{
    rows::noise_row(d.stage, temperature)?;
    let density = density(d, temperature, freq);
    if density <= 0.0 {
        return Ok(None);
    }
    Ok(Some(NoiseSource {
        pos: d.terminals.drain,
        neg: d.terminals.source,
        density,
    }))
}

#[tactic(auto, unfolding(model::specs::SmallSignal::reactance_of))]
fn reactance_of(pos: NodeId, neg: NodeId, capacitance: f64) -> Option<Capacitor>
    ensures { result ≡ reactance_of pos neg capacitance }
{
    if capacitance != 0.0 {
        Some(Capacitor {
            pos,
            neg,
            capacitance,
        })
    } else {
        None
    }
}

#[tactic(auto, unfolding(model::specs::SmallSignal::five_of))]
fn reactances_at(t: Terminals, q: Charges) -> Reactances
    ensures { result ≡ five_of t q }
{
    Reactances {
        gs: reactance_of(t.gate, t.source, q.cgs_eval),
        gd: reactance_of(t.gate, t.drain, q.cgd_eval),
        gb: reactance_of(t.gate, t.bulk, q.cgb_eval),
        bs: reactance_of(t.bulk, t.source, q.cbs_eval),
        bd: reactance_of(t.bulk, t.drain, q.cbd_eval),
    }
}

#[tactic(auto, unfolding(model::specs::SmallSignal::reactances_of))]
pub fn small_signal_reactances(d: Mosfet1) -> Result<Reactances, Refusal>
    ensures { outcome result ≡ reactances_of d }
{
    if d.stage.is_unevaluated() {
        return Err(Refusal::Stage);
    }
    Ok(reactances_at(d.terminals, d.charges))
}
