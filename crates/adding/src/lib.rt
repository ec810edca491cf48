// Adding a device's contributions to the matrix and the right-hand side, at places that are known (`load_jacobian`,
// `load_residual`, `stamp_g_pair` and `stamp_hist` of mosfet1.rs).
#![tactic(auto)]

ghost use Rattle.std.specs.Prelude.{◌≡◌, cond, []};
ghost use Rattle.places.specs.Places.{node_at, terminals_at};
ghost use Rattle.adding.specs.Adding.{add_at, add_node, add_sources, current_pair, offset_sources, source_contributions, add_all, add_four, add_branches};

use places::{GatePlaces, Nodes};
use stamps::{ChargeBranch, ChargeBranches, Residual};

// A value added to an entry; a place behind the end is skipped.
pub fn add_at(xs: &mut [f64], place: usize, x: f64)
    ensures { xs.new ≡ add_at xs.old place x }
{
    if place < xs.len() {
        xs[place] += x;
    }
}

// A value added to a node's entry. Ground's index lies behind the end.
fn add_node(xs: &mut [f64], node: usize, x: f64)
    ensures { xs.new ≡ add_node (node_at node) x xs.old }
{
    add_at(xs, node, x);
}

// Values added at places, in turn.
fn add_all(xs: &mut [f64], places: &[usize], values: &[f64])
    ensures { xs.new ≡ add_all xs.old places.now values.now }
{
    for (place, value) in places.iter().zip(values) {
        add_at(xs, *place, *value);
    }
}

// A branch's conductance at its four cells, in the order of `stamp_g_pair`.
fn add_four(xs: &mut [f64], br: ChargeBranch, aa: usize, ab: usize, bb: usize, ba: usize)
    ensures { xs.new ≡ add_four br.conducts br.conductance aa ab bb ba xs.old }
{
    if br.conducts {
        let g = br.conductance;
        add_at(xs, aa, g);
        add_at(xs, ab, -g);
        add_at(xs, bb, g);
        add_at(xs, ba, -g);
    }
}

// `load_jacobian_tran` behind the 24 values: the branches gs, gd, gb, bs, bd. The places p are those of the 24 values.
fn add_branches(xs: &mut [f64], p: &[usize; 24], q: GatePlaces, b: ChargeBranches)
    ensures { xs.new ≡ add_branches p.now q b xs.old }
{
    add_four(xs, b.gs, q.gg, q.gs, p[6], p[4]);
    add_four(xs, b.gd, q.gg, q.gd, p[1], p[0]);
    add_four(xs, b.gb, q.gg, q.gb, p[16], q.bg);
    add_four(xs, b.bs, p[16], p[17], p[6], p[7]);
    add_four(xs, b.bd, p[16], p[21], p[1], p[3]);
}

// `load_jacobian` and, behind the 24 values, the branches of `load_jacobian_tran`.
pub fn add_matrix(
    xs: &mut [f64],
    places: [usize; 24],
    gate: GatePlaces,
    jacobian: [f64; 24],
    b: ChargeBranches,
)
    ensures { xs.new ≡ add_branches places gate b (add_all xs.old places jacobian) }
{
    add_all(xs, &places, &jacobian);
    add_branches(xs, &places, gate, b);
}

// `stamp_hist`: the history current into the node a and out of the node b.
pub fn add_history(xs: &mut [f64], a: usize, b: usize, loaded: bool, i_hist: f64)
    ensures { xs.new ≡ add_sources (cond loaded (current_pair (node_at a) (node_at b) i_hist) []) xs.old }
{
    if loaded {
        add_node(xs, a, i_hist);
        add_node(xs, b, -i_hist);
    }
}

// `load_residual`.
pub fn add_offsets(xs: &mut [f64], n: Nodes, o: Residual)
    ensures { xs.new ≡ add_sources (offset_sources (terminals_at n) o) xs.old }
{
    add_node(xs, n.drain, -o.jeq);
    add_node(xs, n.source, o.jeq);
    add_node(xs, n.bulk, -o.ibs_eq);
    add_node(xs, n.source, o.ibs_eq);
    add_node(xs, n.bulk, -o.ibd_eq);
    add_node(xs, n.drain, o.ibd_eq);
}

// `load_residual_tran`: the offsets, then the history currents of gs, gd, gb, bs, bd.
pub fn add_sources(xs: &mut [f64], n: Nodes, o: Residual, b: ChargeBranches)
    ensures { xs.new ≡ add_sources (source_contributions (terminals_at n) o b) xs.old }
{
    add_offsets(xs, n, o);
    add_history(xs, n.gate, n.source, b.gs.remembers, b.gs.history);
    add_history(xs, n.gate, n.drain, b.gd.remembers, b.gd.history);
    add_history(xs, n.gate, n.bulk, b.gb.remembers, b.gb.history);
    add_history(xs, n.bulk, n.source, b.bs.remembers, b.bs.history);
    add_history(xs, n.bulk, n.drain, b.bd.remembers, b.bd.history);
}
