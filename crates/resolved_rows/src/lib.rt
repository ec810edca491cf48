// The tests of a load by cells that were looked up before: what refuses it, all of it asked before the first write. The cells are 37
// numbers of the caller's, in the order of `resolve`; `load_resolved` and `charges_resolved` have the additions.
#![tactic(auto)]

ghost use Rattle.std.specs.Prelude.{◌+◌, ◌<◌, ◌≡◌, true, false, not, get_or, eqb};
ghost use Rattle.device.specs.Refusals.{number, outcome};
ghost use Rattle.device.specs.Stages.{unevaluated};
ghost use Rattle.stamps.specs.Stamps.{jac_pairs_of};
ghost use Rattle.places.specs.Places.{nodes_of, terminals_at};
ghost use Rattle.loading.specs.Loading.{nodes_outside, alpha_outside, early_row};
ghost use Rattle.resolved_rows.specs.LoadResolved.{numbers_from, resolved_row_of};
ghost use Rattle.resolved_rows.specs.ByNumbers.{cell_there, pair_stored, row_stored, pairs_stored, branch_stored, branches_stored, all_below, nodes_are, held, is_transient};

use device::{Charges, Mosfet1, Refusal, Stage, Terminals};
use loading::LoadKind;
use places::{Nodes, SKIPPED};

// A cell has a ground end, or its place is among the values.
#[tactic(auto, unfolding(crate::specs::ByNumbers::cell_there, crate::specs::LoadResolved::grounded, places::specs::Places::node_at))]
fn cell_there(row: usize, column: usize, place: usize, len: usize) -> bool
    ensures { result ≡ cell_there len row column place }
{
    row == SKIPPED || column == SKIPPED || place < len
}

// The cell of the k-th number. Reading it here keeps the callers short.
fn cell_at(row: usize, column: usize, cells: &[usize; 37], k: usize, len: usize) -> bool
    requires { k < 37 }
    ensures { result ≡ cell_there len row column (get_or cells.now k 0) }
{
    cell_there(row, column, cells[k], len)
}

// The four cells from k on of a conductance between the nodes a and b.
#[tactic(auto, unfolding(crate::specs::ByNumbers::pair_stored, crate::specs::ByNumbers::pairs_stored, crate::specs::ByNumbers::cell_there))]
fn four_there(a: usize, b: usize, cells: &[usize; 37], k: usize, len: usize) -> bool
    requires { k + 3 < 37 }
    ensures { result ≡ pair_stored len a b (get_or cells.now k 0) (get_or cells.now (k + 1) 0) (get_or cells.now (k + 2) 0) (get_or cells.now (k + 3) 0) }
{
    cell_at(a, a, cells, k, len)
        && cell_at(a, b, cells, k + 1, len)
        && cell_at(b, a, cells, k + 2, len)
        && cell_at(b, b, cells, k + 3, len)
}

// The channel's four cells from k on in a node's row.
#[tactic(auto, unfolding(crate::specs::ByNumbers::row_stored, crate::specs::ByNumbers::pairs_stored, crate::specs::ByNumbers::cell_there))]
fn row_there(row: usize, n: Nodes, cells: &[usize; 37], k: usize, len: usize) -> bool
    requires { k + 3 < 37 }
    ensures { result ≡ row_stored len row n (get_or cells.now k 0) (get_or cells.now (k + 1) 0) (get_or cells.now (k + 2) 0) (get_or cells.now (k + 3) 0) }
{
    cell_at(row, n.gate, cells, k, len)
        && cell_at(row, n.drain, cells, k + 1, len)
        && cell_at(row, n.source, cells, k + 2, len)
        && cell_at(row, n.bulk, cells, k + 3, len)
}

// The 24 pairs' cells.
#[tactic(auto, using(crate::proofs::Folds::pairs_parts))]
fn pairs_there(n: Nodes, cells: &[usize; 37], len: usize) -> bool
    ensures { result ≡ pairs_stored len (jac_pairs_of (terminals_at n)) (numbers_from cells.now 8 24) }
{
    row_there(n.drain, n, cells, 8, len)
        && row_there(n.source, n, cells, 12, len)
        && four_there(n.drain_ext, n.drain, cells, 16, len)
        && four_there(n.source_ext, n.source, cells, 20, len)
        && four_there(n.bulk, n.source, cells, 24, len)
        && four_there(n.bulk, n.drain, cells, 28, len)
}

// A charge branch's four cells, where it conducts, by the indices of their numbers.
#[tactic(auto, unfolding(crate::specs::ByNumbers::branch_stored))]
fn branch_there(
    conducts: bool,
    a: usize,
    b: usize,
    cells: &[usize; 37],
    aa: usize,
    ab: usize,
    bb: usize,
    ba: usize,
    len: usize,
) -> bool
    requires { (aa < 37) × ((ab < 37) × ((bb < 37) × (ba < 37))) }
    ensures { result ≡ branch_stored len conducts a b (get_or cells.now aa 0) (get_or cells.now ab 0) (get_or cells.now bb 0) (get_or cells.now ba 0) }
{
    !conducts
        || (cell_at(a, a, cells, aa, len)
            && cell_at(a, b, cells, ab, len)
            && cell_at(b, b, cells, bb, len)
            && cell_at(b, a, cells, ba, len))
}

#[tactic(auto, unfolding(crate::specs::ByNumbers::branches_stored))]
fn branches_there(n: Nodes, cells: &[usize; 37], len: usize, q: Charges) -> bool
    ensures { result ≡ branches_stored len n cells.now q }
{
    let Nodes {
        drain,
        gate,
        source,
        bulk,
        ..
    } = n;
    branch_there(q.cgs_eval != 0.0, gate, source, cells, 32, 33, 14, 12, len)
        && branch_there(q.cgd_eval != 0.0, gate, drain, cells, 32, 34, 9, 8, len)
        && branch_there(q.cgb_eval != 0.0, gate, bulk, cells, 32, 35, 24, 36, len)
        && branch_there(q.cbs_eval != 0.0, bulk, source, cells, 24, 25, 14, 15, len)
        && branch_there(q.cbd_eval != 0.0, bulk, drain, cells, 24, 29, 9, 11, len)
}

// Every place is among the values: then it does not matter which are ground's.
fn all_below(cells: &[usize; 37], len: usize) -> bool
    ensures { result ≡ all_below len (numbers_from cells.now 8 29) }
{
    cells[8..].iter().all(|place| *place < len)
}

#[tactic(auto, unfolding(crate::specs::ByNumbers::nodes_are))]
fn nodes_are(n: Nodes, cells: &[usize; 37]) -> bool
    ensures { result ≡ nodes_are cells.now n }
{
    n.drain_ext == cells[0]
        && n.source_ext == cells[1]
        && n.drain == cells[2]
        && n.gate == cells[3]
        && n.source == cells[4]
        && n.bulk == cells[5]
}

// Row 13 does not apply. The usual case, all places among the values, is asked first.
fn cells_held(n: Nodes, cells: &[usize; 37], len: usize, q: Charges, transient: bool) -> bool
    ensures { result ≡ held len n cells.now q transient }
{
    nodes_are(n, cells)
        && (all_below(cells, len)
            || (pairs_there(n, cells, len) && (!transient || branches_there(n, cells, len, q))))
}

fn is_transient(kind: LoadKind) -> bool
    ensures { result ≡ is_transient kind }
{
    matches!(kind, LoadKind::Transient(_))
}

// Row 8. `inside` says that it is known not to apply; then the nodes are not asked again.
fn outside(inside: bool, stage: Stage, t: Terminals, len: usize, rows: usize) -> bool
    requires { inside ≡ true → nodes_outside stage t len rows ≡ false }
    ensures { result ≡ nodes_outside stage t len rows }
{
    !inside && loading::nodes_outside(stage, t, len, rows)
}

// Rows 8, 10, 11 and 12 in this order. The stored row and value counts stand for the pattern's.
#[tactic(auto, unfolding(loading::specs::Loading::early_row))]
fn early_row(
    d: Mosfet1,
    kind: LoadKind,
    inside: bool,
    rhs: usize,
    values: usize,
    rows: usize,
    count: usize,
) -> Result<(), Refusal>
    requires { inside ≡ true → nodes_outside d.stage d.terminals rhs rows ≡ false }
    ensures { number (outcome result) ≡ early_row (nodes_outside d.stage d.terminals rhs rows) (unevaluated d.stage) (alpha_outside d.disc kind) (not (eqb values count)) }
{
    if outside(inside, d.stage, d.terminals, rhs, rows) {
        return Err(Refusal::Node);
    }
    if d.stage.is_unevaluated() {
        return Err(Refusal::Stage);
    }
    if loading::alpha_outside(d.disc, kind) {
        return Err(Refusal::Step);
    }
    if values != count {
        return Err(Refusal::Pattern);
    }
    Ok(())
}

// The row that refuses a load into a right-hand side of so many rows and so many values. `inside` says that the
// caller knows that row 8 does not apply; where it is false, nothing is known, and the nodes are asked. The nodes' numbers n are the
// caller's, who may have a shorter way to them.
pub fn resolved_row(
    n: Nodes,
    d: Mosfet1,
    kind: LoadKind,
    inside: bool,
    cells: &[usize; 37],
    rhs: usize,
    values: usize,
) -> Result<(), Refusal>
    requires { (n ≡ nodes_of d.terminals) × (inside ≡ true → nodes_outside d.stage d.terminals rhs (get_or cells.now 6 0) ≡ false) }
    ensures { number (outcome result) ≡ resolved_row_of d kind cells.now rhs values }
{
    early_row(d, kind, inside, rhs, values, cells[6], cells[7])?;
    if cells_held(n, cells, values, d.charges, is_transient(kind)) {
        Ok(())
    } else {
        Err(Refusal::MissingCell)
    }
}
