// Evaluation and commit (`eval` and `commit_timestep` of mosfet1.rs).
ghost use Rattle.std.specs.Prelude.{◌≡◌};
ghost use Rattle.device.specs.Refusals.{outcome};
ghost use Rattle.model.specs.Calls.{eval_of, commit_of};

use device::{Mosfet1, Refusal};
use mosfet1::steps::{Conditions, Evaluated};

// The device after the evaluation with what it answers.
pub fn eval(d: Mosfet1, x: &[f64], transient: bool, k: Conditions) -> Result<Evaluated, Refusal>
    ensures { outcome result ≡ eval_of d x.now transient k }
{
    step_rows::first_row(d.stage, d.terminals, x.len(), k.temperature, k.gmin)?;
    let v = rows::voltages(x, d.terminals);
    step_rows::last_row(v, k.method)?;
    Ok(mosfet1::steps::evaluate(d, v, transient, k))
}

// The device after the commit.
pub fn commit_timestep(d: Mosfet1, x: &[f64]) -> Result<Mosfet1, Refusal>
    ensures { outcome result ≡ commit_of d x.now }
{
    step_rows::commit_row(d.stage, d.terminals, x)?;
    Ok(commit::committed(d, rows::voltages(x, d.terminals)))
}
