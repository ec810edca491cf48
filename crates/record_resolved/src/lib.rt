// Looking up the cells of a device that is a record, and loading it by them.
#![tactic(auto)]

ghost use Rattle.std.specs.Prelude.{◌≡◌, ◌≤◌, true, length, nat_le};
ghost use Rattle.places.specs.Places.{index_of, nodes_of};
ghost use Rattle.from_record.specs.Devices.{node_from, terminals_from};
ghost use Rattle.from_record.specs.Tags.{good_terminals};
ghost use Rattle.device.specs.Refusals.{number, values_or};
ghost use Rattle.resolve.specs.Resolve.{no_cells};
ghost use Rattle.record_resolved.specs.Resolved.{resolve_call};
ghost use Rattle.record_resolved.specs.Steps.{resolved_number, static_side, static_matrix, charged_side, charged_matrix};

use pattern::Pattern;
use places::Nodes;
use record::{DeviceRecord, TerminalsRecord};
use std::num::wrapping_sub_u64;

// The cells, and the number of the refusal; a refused call answers zeros.
#[repr(C)]
#[derive(Clone, Copy)]
pub struct ResolveOutcome {
    pub refusal: u64,
    pub cells: [usize; 37],
}

// Zeros, and the number of a refusal. `[0; 37]` would be a call of memset, and the library is to need no symbol but memcpy.
fn refused(refusal: u64) -> ResolveOutcome
    ensures { (result.refusal ≡ refusal) × (result.cells ≡ no_cells) }
{
    ResolveOutcome {
        refusal,
        cells: [
            0, 0, 0, 0, 0, 0, 0, 0, 0, 0, 0, 0, 0, 0, 0, 0, 0, 0, 0, 0, 0, 0, 0, 0, 0, 0, 0, 0, 0,
            0, 0, 0, 0, 0, 0, 0, 0,
        ],
    }
}

#[tactic(auto, unfolding(crate::specs::Resolved::resolve_call))]
pub fn resolve(
    r: DeviceRecord,
    columns: &[u32],
    offsets: &[usize],
    lengths: &[usize],
) -> ResolveOutcome
    ensures { (result.refusal ≡ number (resolve_call r (record { columns = columns.now; offsets = offsets.now; lengths = lengths.now })))
        × (result.cells ≡ values_or no_cells (resolve_call r (record { columns = columns.now; offsets = offsets.now; lengths = lengths.now }))) }
{
    if !from_record::good_tags(r) {
        return refused(100);
    }
    let d = from_record::device_from(r);
    let pattern = Pattern {
        columns,
        offsets,
        lengths,
    };
    match resolve::resolve(d, pattern) {
        Ok(cells) => ResolveOutcome { refusal: 0, cells },
        Err(refusal) => refused(record::wide(u8::from(refusal))),
    }
}

// The number of a node whose tag is 0 or 1: its index, and for ground, whose tag is 0, all ones. Two instructions, where asking the node
// takes four.
fn node_number(tag: u64, index: usize) -> usize
    requires { nat_le tag 1 ≡ true }
    ensures { result ≡ index_of (node_from (record { tag = tag; index = index })) }
{
    let ground = wrapping_sub_u64(tag, 1);
    (ground as usize) | index
}

fn node_numbers(t: TerminalsRecord) -> Nodes
    requires { good_terminals t ≡ true }
    ensures { result ≡ nodes_of (terminals_from t) }
{
    Nodes {
        drain_ext: node_number(t.drain_ext.tag, t.drain_ext.index),
        source_ext: node_number(t.source_ext.tag, t.source_ext.index),
        drain: node_number(t.drain.tag, t.drain.index),
        gate: node_number(t.gate.tag, t.gate.index),
        source: node_number(t.source.tag, t.source.index),
        bulk: node_number(t.bulk.tag, t.bulk.index),
    }
}

// The row that refuses a load by cells into so many rows and so many values, 0 where none does; 100 where a tag is unknown. A load is
// three steps, this and the two below, so that its caller can copy the record for each: the compiler then reads of it what a step
// needs when it needs it.
pub fn row(
    r: DeviceRecord,
    transient: u64,
    alpha: f64,
    cells: &[usize; 37],
    rhs: usize,
    values: usize,
) -> u64
    ensures { result ≡ resolved_number r transient alpha cells.now rhs values }
{
    if !from_record::good_tags_at_once(r) {
        return 100;
    }
    if 1 < transient {
        return 100;
    }
    let d = from_record::device_from(r);
    let kind = record_loading::kind_from(transient, alpha);
    let n = node_numbers(r.terminals);
    let inside = from_record::indices(r.terminals) < rhs.min(cells[6]);
    record::number(resolved_rows::resolved_row(n, d, kind, inside, cells, rhs, values))
}

// The channel, the resistances and the junctions, where no row refuses. `transient` and `alpha` are asked for so that `row` can be said
// to be the load's; nothing is compiled of them.
pub fn add_static(
    row: u64,
    r: DeviceRecord,
    transient: u64,
    alpha: f64,
    cells: &[usize; 37],
    rhs: &mut [f64],
    values: &mut [f64],
)
    requires { row ≡ resolved_number r transient alpha cells.now (length rhs.old) (length values.old) }
    ensures { (rhs.new ≡ static_side row r rhs.old)
        × (values.new ≡ static_matrix row r cells.now values.old) }
{
    if row == 0 {
        let d = from_record::device_from(r);
        let n = node_numbers(r.terminals);
        load_resolved::add_static(n, d, cells, rhs, values);
    }
}

// The charge branches, where no row refuses and the load is transient.
pub fn add_charges(
    row: u64,
    r: DeviceRecord,
    transient: u64,
    alpha: f64,
    cells: &[usize; 37],
    rhs: &mut [f64],
    values: &mut [f64],
)
    requires { row ≡ resolved_number r transient alpha cells.now (length rhs.old) (length values.old) }
    ensures { (rhs.new ≡ charged_side row r transient alpha rhs.old)
        × (values.new ≡ charged_matrix row r transient alpha cells.now values.old) }
{
    if row == 0 {
        if transient == 1 {
            let d = from_record::device_from(r);
            let n = node_numbers(r.terminals);
            charges_resolved::add_charges(n, d, alpha, cells, rhs, values);
        }
    }
}
