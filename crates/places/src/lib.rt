// Looking up where a device's contributions go in the matrix (`Pattern::cell` of mna.rs for `jac_pairs` and the charge
// branches of mosfet1.rs). Nodes and places are held as numbers; two numbers behind the end of every slice stand for ground's
// and for a cell that is not in the pattern.
#![tactic(auto)]

ghost use Rattle.std.specs.Prelude.{◌≡◌, cond};
ghost use Rattle.pattern.specs.Pattern.{lists};
ghost use Rattle.stamps.specs.Stamps.{jac_pairs_of};
ghost use Rattle.places.specs.Places.{index_of, nodes_of, terminals_at, SpanIn, IsRow, span_number, numbers_of, gate_places_of, four_there, none_missing, branches_there, any_gate};
ghost use Rattle.places.specs.LookedUp.{cells_of, looked_up};

use device::{NodeId, Terminals};
use pattern::{RowSpan, WellFormed};
use stamps::ChargeBranches;

// The six nodes, each by its index; ground is the number of a skipped place.
#[derive(Clone, Copy)]
pub struct Nodes {
    pub drain_ext: usize,
    pub source_ext: usize,
    pub drain: usize,
    pub gate: usize,
    pub source: usize,
    pub bulk: usize,
}

// The places of the five cells that only the gate's branches have.
#[derive(Clone, Copy)]
pub struct GatePlaces {
    pub gg: usize,
    pub gs: usize,
    pub gd: usize,
    pub gb: usize,
    pub bg: usize,
}

// The places of the 24 Jacobian values' cells, and of the gate's.
#[derive(Clone, Copy)]
pub struct Cells {
    pub places: [usize; 24],
    pub gate: GatePlaces,
}

// A row in which lookups are made: its node's number, and its part of the columns; ground's is empty.
#[derive(Clone, Copy)]
struct Row<'a> {
    columns: &'a [u32],
    node: usize,
    span: RowSpan,
    ghost inside: { SpanIn columns.now node span.from span.len },
}

// Places behind the end of every slice: of a position of ground, and of a cell that is not in the pattern. C holds them so
// (include/mivtolgya.h), and a load adds at a place with one test for both.
pub const SKIPPED: usize = 18446744073709551615;

pub const MISSING: usize = 18446744073709551614;

#[tactic(auto, unfolding(crate::specs::Places::index_of))]
fn index(node: NodeId) -> usize
    ensures { result ≡ index_of node }
{
    match node {
        NodeId::Ground => SKIPPED,
        NodeId::At(i) => i,
    }
}

#[tactic(auto, unfolding(crate::specs::Places::nodes_of))]
pub fn indices(t: Terminals) -> Nodes
    ensures { result ≡ nodes_of t }
{
    Nodes {
        drain_ext: index(t.drain_ext),
        source_ext: index(t.source_ext),
        drain: index(t.drain),
        gate: index(t.gate),
        source: index(t.source),
        bulk: index(t.bulk),
    }
}

// A node's row in a pattern.
fn row_of(pattern: WellFormed<'_>, node: usize) -> Row<'_>
    ensures { IsRow (lists pattern.entry.pattern) node result.columns.now result.node result.span }
{
    let span = pattern.row_span(node);
    Row {
        columns: pattern.pattern.columns,
        node,
        span,
    }
}

impl Row<'_> {
    // The place of a cell that was not guessed.
    fn searched(self, column: usize) -> usize
        ensures { result ≡ span_number self.entry.columns.now self.entry.node self.entry.span.from self.entry.span.len column }
    {
        if self.node == SKIPPED {
            return SKIPPED;
        }
        if column == SKIPPED {
            return SKIPPED;
        }
        let from = self.span.from;
        match pattern::search(self.columns, from, from + self.span.len, column) {
            Some(p) => p,
            None => MISSING,
        }
    }

    // The place of a cell. A guess that names a place leaves nothing to test: ground has no place to be guessed.
    fn place(self, column: usize) -> usize
        ensures { result ≡ span_number self.entry.columns.now self.entry.node self.entry.span.from self.entry.span.len column }
    {
        let columns = self.columns;
        let RowSpan { from, len, first } = self.span;
        match pattern::guess(columns, from, len, first, column) {
            Some(p) => p,
            None => self.searched(column),
        }
    }

    // A place that is known where two nodes are the same.
    fn place_unless(self, same: bool, known: usize, column: usize) -> usize
        ensures { result ≡ cond same known (span_number self.entry.columns.now self.entry.node self.entry.span.from self.entry.span.len column) }
    {
        if same { known } else { self.place(column) }
    }
}

// The places of the 24 Jacobian values' cells (`jac_pairs`); each different cell is looked up once, and where a terminal has
// no series resistance its outer node is the inner one.
fn jacobian_places(pattern: WellFormed<'_>, n: Nodes) -> [usize; 24]
    ensures { result ≡ numbers_of (lists pattern.entry.pattern) (jac_pairs_of (terminals_at n)) }
{
    let d = n.drain;
    let g = n.gate;
    let s = n.source;
    let b = n.bulk;
    let dx = n.drain_ext;
    let sx = n.source_ext;
    let d_row = row_of(pattern, d);
    let d_g = d_row.place(g);
    let d_d = d_row.place(d);
    let d_s = d_row.place(s);
    let d_b = d_row.place(b);
    let s_row = row_of(pattern, s);
    let s_g = s_row.place(g);
    let s_d = s_row.place(d);
    let s_s = s_row.place(s);
    let s_b = s_row.place(b);
    let b_row = row_of(pattern, b);
    let b_b = b_row.place(b);
    let b_s = b_row.place(s);
    let b_d = b_row.place(d);
    let dx_row = row_of(pattern, dx);
    let dx_dx = dx_row.place_unless(dx == d, d_d, dx);
    let dx_d = dx_row.place_unless(dx == d, d_d, d);
    let d_dx = d_row.place_unless(dx == d, d_d, dx);
    let sx_row = row_of(pattern, sx);
    let sx_sx = sx_row.place_unless(sx == s, s_s, sx);
    let sx_s = sx_row.place_unless(sx == s, s_s, s);
    let s_sx = s_row.place_unless(sx == s, s_s, sx);
    [
        d_g, d_d, d_s, d_b, s_g, s_d, s_s, s_b, dx_dx, dx_d, d_dx, d_d, sx_sx, sx_s, s_sx, s_s,
        b_b, b_s, s_b, s_s, b_b, b_d, d_b, d_d,
    ]
}

// The five cells that only the gate's branches have, looked up where one of those is loaded.
fn gate_places(pattern: WellFormed<'_>, n: Nodes, any: bool) -> GatePlaces
    ensures { result ≡ gate_places_of (lists pattern.entry.pattern) (terminals_at n) any }
{
    if !any {
        return GatePlaces {
            gg: SKIPPED,
            gs: SKIPPED,
            gd: SKIPPED,
            gb: SKIPPED,
            bg: SKIPPED,
        };
    }
    let d = n.drain;
    let g = n.gate;
    let s = n.source;
    let b = n.bulk;
    let g_row = row_of(pattern, g);
    let b_row = row_of(pattern, b);
    let gg = g_row.place(g);
    let gs = g_row.place(s);
    let gd = g_row.place(d);
    let gb = g_row.place(b);
    let bg = b_row.place(g);
    GatePlaces { gg, gs, gd, gb, bg }
}

pub fn none_missing(places: &[usize]) -> bool
    ensures { result ≡ none_missing places.now }
{
    places.iter().all(|p| *p != MISSING)
}

#[tactic(auto, unfolding(crate::specs::Places::four_there))]
fn four_there(loaded: bool, aa: usize, ab: usize, bb: usize, ba: usize) -> bool
    ensures { result ≡ four_there loaded aa ab bb ba }
{
    !loaded || none_missing(&[aa, ab, bb, ba])
}

// Whether each loaded branch's four cells are in the pattern. The places p are those of the 24 values.
#[tactic(auto, unfolding(crate::specs::Places::branches_there))]
fn branches_there(p: &[usize; 24], q: GatePlaces, b: ChargeBranches) -> bool
    ensures { result ≡ branches_there p.now q b }
{
    four_there(b.gs.conducts, q.gg, q.gs, p[6], p[4])
        && four_there(b.gd.conducts, q.gg, q.gd, p[1], p[0])
        && four_there(b.gb.conducts, q.gg, q.gb, p[16], q.bg)
        && four_there(b.bs.conducts, p[16], p[17], p[6], p[7])
        && four_there(b.bd.conducts, p[16], p[21], p[1], p[3])
}

#[tactic(auto, unfolding(crate::specs::Places::any_gate))]
fn any_gate(b: ChargeBranches) -> bool
    ensures { result ≡ any_gate b }
{
    b.gs.conducts || b.gd.conducts || b.gb.conducts
}

// Looks up every needed cell; one that is not in the pattern is marked as missing.
#[tactic(auto, unfolding(crate::specs::LookedUp::cells_of))]
pub fn all_cells(pattern: WellFormed<'_>, n: Nodes, b: ChargeBranches) -> Cells
    ensures { result ≡ cells_of (lists pattern.entry.pattern) (terminals_at n) b }
{
    Cells {
        places: jacobian_places(pattern, n),
        gate: gate_places(pattern, n, any_gate(b)),
    }
}

// The same, but none where one of them is not in the pattern.
#[tactic(auto, unfolding(crate::specs::LookedUp::looked_up))]
pub fn look_up(pattern: WellFormed<'_>, n: Nodes, b: ChargeBranches) -> Option<Cells>
    ensures { result ≡ looked_up (lists pattern.entry.pattern) (terminals_at n) b }
{
    let cells = all_cells(pattern, n, b);
    if none_missing(&cells.places) && branches_there(&cells.places, cells.gate, b) {
        Some(cells)
    } else {
        None
    }
}
