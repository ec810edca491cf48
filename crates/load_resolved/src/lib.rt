// The static part of a load by cells that were looked up before: no pattern, no search (`load_residual` and `load_jacobian` of mosfet1.rs
// over `jac_cells`). The cells are 37 numbers of the caller's, in the order of `resolve`; all of them is tested before the first write
// (`resolved_rows`). The charge branches and the whole load are `charges_resolved`; what both are defined by, and the laws, stand here.
// `adding` and `stamps` have the same sums for the load that searches: there each large function must keep its one caller, or the
// compiler makes calls of them, and a load takes a third longer.
#![tactic(auto)]

ghost use Rattle.std.specs.Prelude.{◌+◌, ◌<◌, ◌≡◌, true, ◌||◌, [], ◌∷◌, length, get_or, eqb};
ghost use Rattle.std.specs.Float.Ieee.{neg};
ghost use Rattle.exact.specs.Float64.{◌⊕◌, +0};
ghost use Rattle.stamps.specs.Stamps.{position, jac_pairs_of, jac_values_of, residual_of, series_of, channel_values};
ghost use Rattle.places.specs.Places.{skipped_number, node_at, nodes_of, terminals_at};
ghost use Rattle.adding.specs.Adding.{add_at, add_all, add_sources, offset_sources};
ghost use Rattle.assembly.specs.Assembly.{add_place, paired};
ghost use Rattle.resolved_rows.specs.LoadResolved.{numbers_from, stored_place, add_stored};
ghost use Rattle.resolved_rows.specs.ByNumbers.{pairs_stored, pair_stored, all_below};
ghost use Rattle.load_resolved.specs.ByNumbers.{place_between, channel_pairs, add_channel, add_row, add_pair};

use device::{Mosfet1, OperatingPoint};
use places::{Nodes, SKIPPED};

// Ground's number is that of a place that is skipped.
#[tactic(auto, unfolding(crate::specs::ByNumbers::place_between))]
fn place_between(row: usize, column: usize, place: usize) -> usize
    ensures { result ≡ place_between row column place }
{
    if row == SKIPPED || column == SKIPPED {
        SKIPPED
    } else {
        place
    }
}

// One of two nodes is ground.
pub fn either_ground(a: usize, b: usize) -> bool
    ensures { result ≡ (eqb a skipped_number || eqb b skipped_number) }
{
    a == SKIPPED || b == SKIPPED
}

fn any_ground(a: usize, b: usize, c: usize, d: usize) -> bool
    ensures { result ≡ ((eqb a skipped_number || eqb b skipped_number) || (eqb c skipped_number || eqb d skipped_number)) }
{
    either_ground(a, b) || either_ground(c, d)
}

// A value added at a place that is known to be among the values: the rows were asked for before the first write.
pub fn add_known(xs: &mut [f64], place: usize, x: f64)
    requires { place < length xs.old }
    ensures { xs.new ≡ add_at xs.old place x }
{
    xs[place] += x;
}

// A value added at a stored place, unless an end of its position is ground.
pub fn add_cell(xs: &mut [f64], row: usize, column: usize, place: usize, x: f64)
    ensures { xs.new ≡ add_place (stored_place (position (node_at row) (node_at column)) place) x xs.old }
{
    let at = place_between(row, column, place);
    adding::add_at(xs, at, x);
}

// The channel's four values in one row, at the cells from k on, where a node may be ground.
fn row_by_cell(
    xs: &mut [f64],
    row: usize,
    n: Nodes,
    cells: &[usize; 37],
    k: usize,
    g: f64,
    d: f64,
    s: f64,
    b: f64,
)
    requires { k + 3 < 37 }
    ensures { xs.new ≡ add_row n row g d s b (get_or cells.now k 0) (get_or cells.now (k + 1) 0) (get_or cells.now (k + 2) 0) (get_or cells.now (k + 3) 0) xs.old }
{
    add_cell(xs, row, n.gate, cells[k], g);
    add_cell(xs, row, n.drain, cells[k + 1], d);
    add_cell(xs, row, n.source, cells[k + 2], s);
    add_cell(xs, row, n.bulk, cells[k + 3], b);
}

fn add_channel_by_cell(xs: &mut [f64], n: Nodes, cells: &[usize; 37], p: OperatingPoint)
    ensures { xs.new ≡ add_channel n cells.now p xs.old }
{
    let OperatingPoint { gm, gds, gmbs, .. } = p;
    let gms = gm + gds + gmbs;
    row_by_cell(xs, n.drain, n, cells, 8, gm, gds, -gms, gmbs);
    row_by_cell(xs, n.source, n, cells, 12, -gm, -gds, gms, -gmbs);
}

// The same where none is: every place counts, and is known to be there.
fn row_plain(xs: &mut [f64], cells: &[usize; 37], k: usize, g: f64, d: f64, s: f64, b: f64)
    requires { (k + 3 < 37) × (all_below (length xs.old) (get_or cells.now k 0 ∷ get_or cells.now (k + 1) 0 ∷ get_or cells.now (k + 2) 0 ∷ get_or cells.now (k + 3) 0 ∷ []) ≡ true) }
    ensures { xs.new ≡ add_at (add_at (add_at (add_at xs.old (get_or cells.now k 0) g) (get_or cells.now (k + 1) 0) d) (get_or cells.now (k + 2) 0) s) (get_or cells.now (k + 3) 0) b }
{
    add_known(xs, cells[k], g);
    add_known(xs, cells[k + 1], d);
    add_known(xs, cells[k + 2], s);
    add_known(xs, cells[k + 3], b);
}

fn add_channel_plain(xs: &mut [f64], cells: &[usize; 37], p: OperatingPoint)
    requires { all_below (length xs.old) (numbers_from cells.now 8 8) ≡ true }
    ensures { xs.new ≡ add_all xs.old (numbers_from cells.now 8 8) (channel_values p []) }
{
    let OperatingPoint { gm, gds, gmbs, .. } = p;
    let gms = gm + gds + gmbs;
    row_plain(xs, cells, 8, gm, gds, -gms, gmbs);
    row_plain(xs, cells, 12, -gm, -gds, gms, -gmbs);
}

// The channel's eight values. Ground is asked for once for all of them, not at each.
fn add_channel(xs: &mut [f64], n: Nodes, cells: &[usize; 37], p: OperatingPoint)
    requires { pairs_stored (length xs.old) (channel_pairs n) (numbers_from cells.now 8 8) ≡ true }
    ensures { xs.new ≡ add_channel n cells.now p xs.old }
{
    if any_ground(n.drain, n.gate, n.source, n.bulk) {
        add_channel_by_cell(xs, n, cells, p);
    } else {
        add_channel_plain(xs, cells, p);
    }
}

// A conductance between the nodes a and b at the four places from k on, in the order of `jac_pairs`. Reading the places here keeps the
// callers short. Ground is asked for once; where there is none, the places are known to be there.
fn add_pair(xs: &mut [f64], a: usize, b: usize, g: f64, cells: &[usize; 37], k: usize)
    requires { (k + 3 < 37) × (pair_stored (length xs.old) a b (get_or cells.now k 0) (get_or cells.now (k + 1) 0) (get_or cells.now (k + 2) 0) (get_or cells.now (k + 3) 0) ≡ true) }
    ensures { xs.new ≡ add_pair a b g (get_or cells.now k 0) (get_or cells.now (k + 1) 0) (get_or cells.now (k + 2) 0) (get_or cells.now (k + 3) 0) xs.old }
{
    if either_ground(a, b) {
        add_cell(xs, a, a, cells[k], g);
        add_cell(xs, a, b, cells[k + 1], -g);
        add_cell(xs, b, a, cells[k + 2], -g);
        add_cell(xs, b, b, cells[k + 3], g);
    } else {
        add_known(xs, cells[k], g);
        add_known(xs, cells[k + 1], -g);
        add_known(xs, cells[k + 2], -g);
        add_known(xs, cells[k + 3], g);
    }
}

// Adding -0 leaves a number as it is. Nothing is compiled of this.
fn kept(x: f64)
    ensures { x ⊕ neg +0 ≡ x }
{}

// Adding -0 at a place changes nothing. The entry is read because it is then known to be a number of the format, to which that
// applies; nothing is compiled of it.
fn keep(xs: &mut [f64], place: usize)
    ensures { (xs.new ≡ xs.old) × (add_at xs.old place (neg +0) ≡ xs.old) }
{
    if place < xs.len() {
        kept(xs[place]);
    }
}

fn zero_added(x: f64) -> f64
    ensures { (result ≡ x ⊕ +0) × (result ⊕ +0 ≡ result) }
{
    x + 0.0
}

// Zero added at a place, which makes 0 of -0. A second zero changes nothing more.
fn add_zero(xs: &mut [f64], place: usize)
    ensures { (xs.new ≡ add_at xs.old place +0) × (add_at xs.new place +0 ≡ xs.new) }
{
    if place < xs.len() {
        xs[place] = zero_added(xs[place]);
    }
}

// A conductance of zero: of the four additions the two of -0 change nothing, nor does the last where it is at the place of the first.
fn add_no_conductance(xs: &mut [f64], a: usize, b: usize, cells: &[usize; 37], k: usize)
    requires { k + 3 < 37 }
    ensures { xs.new ≡ add_pair a b +0 (get_or cells.now k 0) (get_or cells.now (k + 1) 0) (get_or cells.now (k + 2) 0) (get_or cells.now (k + 3) 0) xs.old }
{
    let first = place_between(a, a, cells[k]);
    let last = place_between(b, b, cells[k + 3]);
    add_zero(xs, first);
    keep(xs, place_between(a, b, cells[k + 1]));
    keep(xs, place_between(b, a, cells[k + 2]));
    if first != last {
        add_zero(xs, last);
    }
}

// A series resistance; most devices have none.
fn add_series(xs: &mut [f64], a: usize, b: usize, r: f64, cells: &[usize; 37], k: usize)
    requires { (k + 3 < 37) × (pair_stored (length xs.old) a b (get_or cells.now k 0) (get_or cells.now (k + 1) 0) (get_or cells.now (k + 2) 0) (get_or cells.now (k + 3) 0) ≡ true) }
    ensures { xs.new ≡ add_pair a b (series_of r) (get_or cells.now k 0) (get_or cells.now (k + 1) 0) (get_or cells.now (k + 2) 0) (get_or cells.now (k + 3) 0) xs.old }
{
    if r > 0.0 {
        add_pair(xs, a, b, 1.0 / r, cells, k);
    } else {
        add_no_conductance(xs, a, b, cells, k);
    }
}

// `load_jacobian`: the channel, the series resistances, the junctions.
fn add_jacobian(xs: &mut [f64], n: Nodes, cells: &[usize; 37], d: Mosfet1)
    requires { pairs_stored (length xs.old) (jac_pairs_of (terminals_at n)) (numbers_from cells.now 8 24) ≡ true }
    ensures { xs.new ≡ add_stored (paired (jac_pairs_of (terminals_at n)) (jac_values_of d)) (numbers_from cells.now 8 24) xs.old }
{
    add_channel(xs, n, cells, d.point);
    add_series(xs, n.drain_ext, n.drain, d.geometry.rd, cells, 16);
    add_series(xs, n.source_ext, n.source, d.geometry.rs, cells, 20);
    add_pair(xs, n.bulk, n.source, d.point.gbs, cells, 24);
    add_pair(xs, n.bulk, n.drain, d.point.gbd, cells, 28);
}

// `load_jacobian` and `load_residual`. The rows were asked for before, so every place that counts is there.
pub fn add_static(n: Nodes, d: Mosfet1, cells: &[usize; 37], rhs: &mut [f64], values: &mut [f64])
    requires { (n ≡ nodes_of d.terminals) × (pairs_stored (length values.old) (jac_pairs_of (terminals_at (nodes_of d.terminals))) (numbers_from cells.now 8 24) ≡ true) }
    ensures { (values.new ≡ add_stored (paired (jac_pairs_of (terminals_at (nodes_of d.terminals))) (jac_values_of d)) (numbers_from cells.now 8 24) values.old)
        × (rhs.new ≡ add_sources (offset_sources (terminals_at (nodes_of d.terminals)) (residual_of d)) rhs.old) }
{
    add_jacobian(values, n, cells, d);
    let o = stamps::residual_values(d);
    adding::add_offsets(rhs, n, o);
}
