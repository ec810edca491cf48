// A load by cells that were looked up before, whole: the static part (`load_resolved`) and what a transient load adds to it, the charge
// branches (`load_residual_tran` and `load_jacobian_tran` of mosfet1.rs over `jac_cells`). The rows are tested before the first write
// (`resolved_rows`). The definitions of the steps and their laws are those of `load_resolved`.
#![tactic(auto)]

ghost use Rattle.std.specs.Prelude.{◌<◌, ◌≡◌, true, length, get_or};
ghost use Rattle.device.specs.Refusals.{outcome};
ghost use Rattle.stamps.specs.Stamps.{charge_branches_of};
ghost use Rattle.places.specs.Places.{nodes_of};
ghost use Rattle.adding.specs.Adding.{add_sources};
ghost use Rattle.resolved_rows.specs.LoadResolved.{LoadedResolved};
ghost use Rattle.resolved_rows.specs.ByNumbers.{branch_stored, branches_stored, conducting_stored};
ghost use Rattle.load_resolved.specs.ByNumbers.{add_conductance, add_branch, add_branches_stored, history_sources};

use device::{Mosfet1, Refusal};
use loading::LoadKind;
use places::Nodes;
use stamps::{ChargeBranch, ChargeBranches};

// A conductance at its four cells, in the order of `stamp_g_pair`. Ground is asked for once, as in `add_pair` of `load_resolved`.
fn add_four(xs: &mut [f64], a: usize, b: usize, g: f64, aa: usize, ab: usize, bb: usize, ba: usize)
    requires { branch_stored (length xs.old) true a b aa ab bb ba ≡ true }
    ensures { xs.new ≡ add_conductance a b g aa ab bb ba xs.old }
{
    if load_resolved::either_ground(a, b) {
        load_resolved::add_cell(xs, a, a, aa, g);
        load_resolved::add_cell(xs, a, b, ab, -g);
        load_resolved::add_cell(xs, b, b, bb, g);
        load_resolved::add_cell(xs, b, a, ba, -g);
    } else {
        load_resolved::add_known(xs, aa, g);
        load_resolved::add_known(xs, ab, -g);
        load_resolved::add_known(xs, bb, g);
        load_resolved::add_known(xs, ba, -g);
    }
}

// A charge branch, where it conducts, by the indices of its four places. Reading them here keeps the caller short.
fn branch_at(
    xs: &mut [f64],
    br: ChargeBranch,
    a: usize,
    b: usize,
    cells: &[usize; 37],
    aa: usize,
    ab: usize,
    bb: usize,
    ba: usize,
)
    requires { (aa < 37) × ((ab < 37) × ((bb < 37) × ((ba < 37)
        × (branch_stored (length xs.old) br.conducts a b (get_or cells.now aa 0) (get_or cells.now ab 0) (get_or cells.now bb 0) (get_or cells.now ba 0) ≡ true)))) }
    ensures { xs.new ≡ add_branch br a b (get_or cells.now aa 0) (get_or cells.now ab 0) (get_or cells.now bb 0) (get_or cells.now ba 0) xs.old }
{
    if br.conducts {
        let g = br.conductance;
        add_four(xs, a, b, g, cells[aa], cells[ab], cells[bb], cells[ba]);
    }
}

fn add_branches(xs: &mut [f64], n: Nodes, cells: &[usize; 37], b: ChargeBranches)
    requires { conducting_stored (length xs.old) n cells.now b ≡ true }
    ensures { xs.new ≡ add_branches_stored n cells.now b xs.old }
{
    let Nodes {
        drain,
        gate,
        source,
        bulk,
        ..
    } = n;
    branch_at(xs, b.gs, gate, source, cells, 32, 33, 14, 12);
    branch_at(xs, b.gd, gate, drain, cells, 32, 34, 9, 8);
    branch_at(xs, b.gb, gate, bulk, cells, 32, 35, 24, 36);
    branch_at(xs, b.bs, bulk, source, cells, 24, 25, 14, 15);
    branch_at(xs, b.bd, bulk, drain, cells, 24, 29, 9, 11);
}

// The history currents of gs, gd, gb, bs, bd.
fn add_histories(xs: &mut [f64], n: Nodes, b: ChargeBranches)
    ensures { xs.new ≡ add_sources (history_sources n b) xs.old }
{
    let Nodes {
        drain,
        gate,
        source,
        bulk,
        ..
    } = n;
    adding::add_history(xs, gate, source, b.gs.remembers, b.gs.history);
    adding::add_history(xs, gate, drain, b.gd.remembers, b.gd.history);
    adding::add_history(xs, gate, bulk, b.gb.remembers, b.gb.history);
    adding::add_history(xs, bulk, source, b.bs.remembers, b.bs.history);
    adding::add_history(xs, bulk, drain, b.bd.remembers, b.bd.history);
}

fn charge_branches(d: Mosfet1, alpha: f64) -> ChargeBranches
    ensures { result ≡ charge_branches_of d alpha }
{
    ChargeBranches {
        gs: stamps::gs_branch(d, alpha),
        gd: stamps::gd_branch(d, alpha),
        gb: stamps::gb_branch(d, alpha),
        bs: stamps::bs_branch(d, alpha),
        bd: stamps::bd_branch(d, alpha),
    }
}

// What `load_jacobian_tran` and `load_residual_tran` add to that: the charge branches.
pub fn add_charges(
    n: Nodes,
    d: Mosfet1,
    alpha: f64,
    cells: &[usize; 37],
    rhs: &mut [f64],
    values: &mut [f64],
)
    requires { (n ≡ nodes_of d.terminals) × (branches_stored (length values.old) (nodes_of d.terminals) cells.now d.charges ≡ true) }
    ensures { (values.new ≡ add_branches_stored (nodes_of d.terminals) cells.now (charge_branches_of d alpha) values.old)
        × (rhs.new ≡ add_sources (history_sources (nodes_of d.terminals) (charge_branches_of d alpha)) rhs.old) }
{
    let b = charge_branches(d, alpha);
    add_branches(values, n, cells, b);
    add_histories(rhs, n, b);
}

// A load by cells that were looked up before, where nothing is known of the nodes. A refused load leaves both slices as they were.
pub fn load_resolved(
    d: Mosfet1,
    kind: LoadKind,
    cells: &[usize; 37],
    rhs: &mut [f64],
    values: &mut [f64],
) -> Result<(), Refusal>
    ensures { LoadedResolved d kind cells.now rhs.old values.old (outcome result) rhs.new values.new }
{
    let n = places::indices(d.terminals);
    resolved_rows::resolved_row(n, d, kind, false, cells, rhs.len(), values.len())?;
    load_resolved::add_static(n, d, cells, rhs, values);
    match kind {
        LoadKind::DirectCurrent => {}
        LoadKind::Transient(alpha) => add_charges(n, d, alpha, cells, rhs, values),
    }
    Ok(())
}
