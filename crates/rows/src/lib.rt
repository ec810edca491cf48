// The row that refuses a noise call, and reading the lent voltages. The rows of an evaluation and a commit are in `step_rows`; the
// definition of each row, and of each call's rows as a whole, is here.
#![tactic(auto)]

ghost use Rattle.std.specs.Prelude.{◌≡◌};
ghost use Rattle.device.specs.Refusals.{number, outcome};
ghost use Rattle.rows.specs.Rows.{node_voltage_of, voltages_of, noise_row_of};

use bias::Voltages;
use device::{NodeId, Refusal, Stage, Terminals};
use temperature::Kelvin;

// What a node is at: 0 at ground.
#[tactic(auto, unfolding(crate::specs::Rows::node_voltage_of))]
fn voltage(x: &[f64], node: NodeId) -> f64
    ensures { result ≡ node_voltage_of x.now node }
{
    match node {
        NodeId::At(i) if i < x.len() => x[i],
        _ => 0.0,
    }
}

#[tactic(auto, unfolding(crate::specs::Rows::voltages_of))]
pub fn voltages(x: &[f64], t: Terminals) -> Voltages
    ensures { result ≡ voltages_of x.now t }
{
    Voltages {
        vd: voltage(x, t.drain),
        vg: voltage(x, t.gate),
        vs: voltage(x, t.source),
        vb: voltage(x, t.bulk),
    }
}

#[tactic(auto, unfolding(crate::specs::Rows::noise_row_of))]
pub fn noise_row(stage: Stage, temperature: Kelvin) -> Result<(), Refusal>
    ensures { number (outcome result) ≡ noise_row_of stage temperature }
{
    if device::outside_temperatures(temperature) {
        return Err(Refusal::Temperature);
    }
    if stage.is_unevaluated() {
        return Err(Refusal::Stage);
    }
    Ok(())
}
