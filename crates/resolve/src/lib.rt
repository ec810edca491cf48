// The cells of a bound device, looked up once (`resolve_cells` of mosfet1.rs), for loads that search no more.
#![tactic(auto)]

ghost use Rattle.std.specs.Prelude.{◌≡◌, [], ◌∷◌, ◌++◌, IfOk};
ghost use Rattle.pattern.specs.Pattern.{lists};
ghost use Rattle.device.specs.Refusals.{number as number_in, outcome};
ghost use Rattle.stamps.specs.Stamps.{jac_pairs_of};
ghost use Rattle.places.specs.Places.{number_of, numbers_of};
ghost use Rattle.resolve.specs.Resolve.{gate_pairs_of, resolve_of, early_row_of};

use device::{Mosfet1, NodeId, Refusal, Terminals};
use pattern::{Pattern, WellFormed};
use places::{MISSING, Nodes, SKIPPED};

// The place of a cell as a number.
#[tactic(auto, unfolding(places::specs::Places::place_of, places::specs::Places::place_number, places::specs::Places::found_place))]
fn number(pattern: WellFormed<'_>, row: NodeId, column: NodeId) -> usize
    ensures { result ≡ number_of (lists pattern.entry.pattern) row column }
{
    match (row, column) {
        (NodeId::At(i), NodeId::At(j)) => pattern.cell(i, j).unwrap_or(MISSING),
        _ => SKIPPED,
    }
}

// The places of the 24 pairs' cells (`jac_pairs`), as numbers.
fn pair_numbers(pattern: WellFormed<'_>, t: Terminals) -> [usize; 24]
    ensures { result ≡ numbers_of (lists pattern.entry.pattern) (jac_pairs_of t) }
{
    let d = t.drain;
    let g = t.gate;
    let s = t.source;
    let b = t.bulk;
    let dx = t.drain_ext;
    let sx = t.source_ext;
    let d_g = number(pattern, d, g);
    let d_d = number(pattern, d, d);
    let d_s = number(pattern, d, s);
    let d_b = number(pattern, d, b);
    let s_g = number(pattern, s, g);
    let s_d = number(pattern, s, d);
    let s_s = number(pattern, s, s);
    let s_b = number(pattern, s, b);
    let dx_dx = number(pattern, dx, dx);
    let dx_d = number(pattern, dx, d);
    let d_dx = number(pattern, d, dx);
    let sx_sx = number(pattern, sx, sx);
    let sx_s = number(pattern, sx, s);
    let s_sx = number(pattern, s, sx);
    let b_b = number(pattern, b, b);
    let b_s = number(pattern, b, s);
    let b_d = number(pattern, b, d);
    [
        d_g, d_d, d_s, d_b, s_g, s_d, s_s, s_b, dx_dx, dx_d, d_dx, d_d, sx_sx, sx_s, s_sx, s_s,
        b_b, b_s, s_b, s_s, b_b, b_d, d_b, d_d,
    ]
}

// The places of the five cells that only the gate's charge branches have.
fn gate_numbers(pattern: WellFormed<'_>, t: Terminals) -> [usize; 5]
    ensures { result ≡ numbers_of (lists pattern.entry.pattern) (gate_pairs_of t) }
{
    let d = t.drain;
    let g = t.gate;
    let s = t.source;
    let b = t.bulk;
    let g_g = number(pattern, g, g);
    let g_s = number(pattern, g, s);
    let g_d = number(pattern, g, d);
    let g_b = number(pattern, g, b);
    let b_g = number(pattern, b, g);
    [g_g, g_s, g_d, g_b, b_g]
}

// All 37 numbers in their order, written out: zeros to be written over would be filled in by a call of memset, and the library is to
// need no symbol but memcpy.
fn joined(n: Nodes, rows: usize, count: usize, p: [usize; 24], q: [usize; 5]) -> [usize; 37]
    ensures { result ≡ ((n.drain_ext ∷ n.source_ext ∷ n.drain ∷ n.gate ∷ n.source ∷ n.bulk ∷ []) ++ (rows ∷ count ∷ []) ++ p ++ q) }
{
    [
        n.drain_ext,
        n.source_ext,
        n.drain,
        n.gate,
        n.source,
        n.bulk,
        rows,
        count,
        p[0],
        p[1],
        p[2],
        p[3],
        p[4],
        p[5],
        p[6],
        p[7],
        p[8],
        p[9],
        p[10],
        p[11],
        p[12],
        p[13],
        p[14],
        p[15],
        p[16],
        p[17],
        p[18],
        p[19],
        p[20],
        p[21],
        p[22],
        p[23],
        q[0],
        q[1],
        q[2],
        q[3],
        q[4],
    ]
}

// Rows 8, 10 and 12 in this order; where none applies, the pattern as one that was tested.
#[tactic(auto, using(loading::proofs::Rows::outside_same), unfolding(crate::specs::Resolve::early_row_of))]
fn early_row<'a>(d: Mosfet1, pattern: Pattern<'a>) -> Result<WellFormed<'a>, Refusal>
    ensures row { number_in (outcome result) ≡ early_row_of d (lists pattern.entry) }
    ensures kept { IfOk result (λ w. lists w.pattern ≡ lists pattern.entry) }
{
    let rows = pattern.offsets.len();
    if loading::nodes_outside(d.stage, d.terminals, rows, rows) {
        return Err(Refusal::Node);
    }
    if d.stage.is_unbound() {
        return Err(Refusal::Stage);
    }
    pattern
        .tested(pattern.columns.len())
        .ok_or(Refusal::Pattern)
}

// `resolve_cells`: looks every cell of the device's binding up. A cell of a charge branch may be absent.
pub fn resolve(d: Mosfet1, pattern: Pattern<'_>) -> Result<[usize; 37], Refusal>
    ensures { outcome result ≡ resolve_of d (lists pattern.entry) }
{
    let tested = early_row(d, pattern)?;
    let pairs = pair_numbers(tested, d.terminals);
    if !places::none_missing(&pairs) {
        return Err(Refusal::MissingCell);
    }
    let gate = gate_numbers(tested, d.terminals);
    let n = places::indices(d.terminals);
    Ok(joined(n, pattern.offsets.len(), pattern.columns.len(), pairs, gate))
}
