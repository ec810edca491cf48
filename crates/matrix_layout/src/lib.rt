// What a builder asks of a device before it is evaluated: how many nodes a binding takes, and the matrix that every load of the bound device
// fits into.
#![tactic(auto)]

ghost use Rattle.std.specs.Prelude.{◌≡◌};
ghost use Rattle.device.specs.Refusals.{outcome};
ghost use Rattle.matrix_layout.specs.MatrixLayout.{
  extra_nodes_of,
  Layout,
};

use cell_pattern::Needed;
use cells::BoundTerminals;
use device::{Mosfet1, Refusal, Stage};

// How many nodes beyond the four terminals a binding will take. Before the first geometry call a sheet resistance counts for nothing yet.
pub fn extra_nodes(device: Mosfet1) -> Result<usize, Refusal>
    ensures { outcome result ≡ extra_nodes_of device }
{
    let stage = device.stage;
    if device::before(stage, Stage::Geometry) {
        return Err(Refusal::Stage);
    }
    Ok(setup::num_extra_nodes(device))
}

// Writes the pattern of every cell that the bound device may ever load in front of what the three slices hold; nothing where one is short.
pub fn matrix_layout(
    device: Mosfet1,
    columns: &mut [u32],
    offsets: &mut [usize],
    lengths: &mut [usize],
) -> Result<Needed, Refusal>
    ensures { Layout device columns.old offsets.old lengths.old (outcome result) columns.new offsets.new lengths.new }
{
    let stage = device.stage;
    let t = device.terminals;
    if loading::nodes_outside(stage, t, 4294967296, 4294967296) {
        return Err(Refusal::Node);
    }
    if device::before(stage, Stage::Bound) {
        return Err(Refusal::Stage);
    }
    let bound = BoundTerminals { terminals: t };
    Ok(cell_pattern::lay_out(bound, columns, offsets, lengths))
}
