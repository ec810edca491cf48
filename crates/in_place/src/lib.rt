// The commit of a device where it lies.
#![tactic(auto)]

ghost use Rattle.std.specs.Prelude.{◌≡◌};
ghost use Rattle.device.specs.Refusals.{number, outcome, values_or};
ghost use Rattle.model.specs.Calls.{commit_of};

use device::{Mosfet1, Refusal};

// `commit_timestep(&mut self, x)` of the Rust. The device stays as it was where the commit is refused.
pub fn commit_in_place(d: &mut Mosfet1, x: &[f64]) -> Result<(), Refusal>
    ensures { (number (outcome result) ≡ number (commit_of d.old x.now))
        × (d.new ≡ values_or d.old (commit_of d.old x.now)) }
{
    *d = model::calls::commit_timestep(*d, x)?;
    Ok(())
}
