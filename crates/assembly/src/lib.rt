// Adding a device's contributions to the matrix and the right-hand side (`load_jacobian`, `load_residual` and their transient
// forms of mosfet1.rs, over the pattern of mna.rs). All needed cells are looked up before the first is written.
#![tactic(auto)]

ghost use Rattle.std.specs.Prelude.{◌≡◌};
ghost use Rattle.pattern.specs.Pattern.{lists};
ghost use Rattle.places.specs.Places.{nodes_of, terminals_at};
ghost use Rattle.assembly.specs.Assembly.{source_contributions, matrix_contributions, Assembled};

use device::Terminals;
use pattern::WellFormed;
use stamps::{ChargeBranches, Residual};

// Adds a device's contributions to the matrix values and the right-hand side, or answers false where a needed cell is not in
// the pattern. Every needed cell is looked up before the first is written. It serves the next layer: the nodes have passed
// row 8's test, so that none has the index that stands for ground.
pub fn assemble(
    t: Terminals,
    jacobian: [f64; 24],
    o: Residual,
    b: ChargeBranches,
    values: &mut [f64],
    rhs: &mut [f64],
    pattern: WellFormed<'_>,
) -> bool
    requires { terminals_at (nodes_of t) ≡ t }
    ensures { Assembled (lists pattern.entry.pattern) (matrix_contributions t jacobian b) (source_contributions t o b) values.old rhs.old result values.new rhs.new }
{
    let n = places::indices(t);
    match places::look_up(pattern, n, b) {
        None => false,
        Some(cells) => {
            adding::add_matrix(values, cells.places, cells.gate, jacobian, b);
            adding::add_sources(rhs, n, o, b);
            true
        }
    }
}
