// What the load of a whole bridge by cells does for all of a bank's devices: the numbers, asked of all of them before the first write, and the
// loads in device order. Each step makes a record of a device's words for itself: the compiler then reads of a record what the step needs, and
// copies nothing.
#![tactic(auto)]

ghost use Rattle.std.specs.Prelude.{◌≡◌, true, false, leb, length};
ghost use Rattle.resolved_rows.specs.ByNumbers.{nodes_at};
ghost use Rattle.record_loading.specs.Load.{kind_from};
ghost use Rattle.record_resolved.specs.Resolved.{resolved_side, resolved_matrix};
ghost use Rattle.record_resolved.specs.Steps.{resolved_number, static_side, static_matrix, charged_side, charged_matrix};
ghost use Rattle.record_words.specs.Words.{record_of};
ghost use Rattle.bridge_devices.specs.Steps.{first_of, lower};
ghost use Rattle.device_bank.specs.Bank.{bank_good};
ghost use Rattle.bank_resolved.specs.Resolved.{celled_of, load_celled_in_order};
ghost use Rattle.bank_resolved.specs.Steps.{celled_row, lowest_number};

use device::Refusal;
use places::Nodes;

// The lower of two numbers; 0 is none. They are numbers, and no `Refusal`s, since `record_resolved::row` answers a device's as the C interface
// has it.
#[tactic(auto, unfolding(bridge_devices::specs::Steps::lower))]
fn lower(a: u64, b: u64) -> u64
    ensures { result ≡ lower a b }
{
    if a == 0 || (b != 0 && b < a) { b } else { a }
}

// The number of one device: its row, or 100 where a tag is unknown.
fn number_of(
    w: &[f64; 113],
    transient: u64,
    alpha: f64,
    cells: &[usize; 37],
    rows: usize,
    values: usize,
) -> u64
    ensures { result ≡ resolved_number (record_of w.now) transient alpha cells.now rows values }
{
    record_resolved::row(
        record_words::record_of(w),
        transient,
        alpha,
        cells,
        rows,
        values,
    )
}

// The nodes' numbers as the cells have them: where no row refuses, they are the device's own.
#[tactic(auto, unfolding(resolved_rows::specs::ByNumbers::nodes_at))]
fn nodes_of(cells: &[usize; 37]) -> Nodes
    ensures { result ≡ nodes_at cells.now }
{
    Nodes {
        drain_ext: cells[0],
        source_ext: cells[1],
        drain: cells[2],
        gate: cells[3],
        source: cells[4],
        bulk: cells[5],
    }
}

// The channel, the resistances and the junctions of a device that no row refuses. `transient` and `alpha` are asked for so that its number can
// be said; nothing is compiled of them. That no row refuses stands in three contracts and is no type: it speaks of both slices' lengths, so a
// type would hold these too, and each contract would say in its place that they are the lengths of the slices.
fn add_static(
    w: &[f64; 113],
    transient: u64,
    alpha: f64,
    cells: &[usize; 37],
    rhs: &mut [f64],
    values: &mut [f64],
)
    requires { resolved_number (record_of w.now) transient alpha cells.now (length rhs.old) (length values.old) ≡ 0 }
    ensures { (rhs.new ≡ static_side 0 (record_of w.now) rhs.old)
        × (values.new ≡ static_matrix 0 (record_of w.now) cells.now values.old) }
{
    let d = from_record::device_from(record_words::record_of(w));
    let n = nodes_of(cells);
    load_resolved::add_static(n, d, cells, rhs, values);
}

// The charge branches, where the load is transient.
fn add_charges(
    w: &[f64; 113],
    transient: u64,
    alpha: f64,
    cells: &[usize; 37],
    rhs: &mut [f64],
    values: &mut [f64],
)
    requires { resolved_number (record_of w.now) transient alpha cells.now (length rhs.old) (length values.old) ≡ 0 }
    ensures { (rhs.new ≡ charged_side 0 (record_of w.now) transient alpha rhs.old)
        × (values.new ≡ charged_matrix 0 (record_of w.now) transient alpha cells.now values.old) }
{
    if transient == 1 {
        let d = from_record::device_from(record_words::record_of(w));
        let n = nodes_of(cells);
        charges_resolved::add_charges(n, d, alpha, cells, rhs, values);
    }
}

// The load of one device that no row refuses.
fn add_device(
    w: &[f64; 113],
    transient: u64,
    alpha: f64,
    cells: &[usize; 37],
    rhs: &mut [f64],
    values: &mut [f64],
)
    requires { resolved_number (record_of w.now) transient alpha cells.now (length rhs.old) (length values.old) ≡ 0 }
    ensures { (rhs.new ≡ resolved_side (record_of w.now) transient alpha cells.now rhs.old values.old)
        × (values.new ≡ resolved_matrix (record_of w.now) transient alpha cells.now rhs.old values.old) }
{
    add_static(w, transient, alpha, cells, rhs, values);
    add_charges(w, transient, alpha, cells, rhs, values);
}

// Row 13 by itself: a device lacks a list of cells.
#[tactic(auto, unfolding(bridge_devices::specs::Steps::first_of))]
fn lacking_row(lacking: bool) -> u64
    ensures { result ≡ first_of false false false false lacking }
{
    if lacking {
        record::wide(u8::from(Refusal::MissingCell))
    } else {
        0
    }
}

// The lowest number that refuses one of the devices, those that have a list of cells first; 0 where none does.
pub fn lowest_number(
    bank: &[[f64; 113]],
    transient: u64,
    alpha: f64,
    cells: &[[usize; 37]],
    rows: usize,
    values: usize,
) -> u64
    ensures { result ≡ lowest_number bank.now transient alpha cells.now rows values }
{
    let mut number = 0;
    for (w, list) in bank.iter().zip(cells) {
        let own = number_of(w, transient, alpha, list, rows, values);
        number = lower(number, own);
    }
    lower(number, lacking_row(cells.len() < bank.len()))
}

// The loads of the devices in device order, where no row refuses one.
pub fn add_devices(
    bank: &[[f64; 113]],
    transient: u64,
    alpha: f64,
    cells: &[[usize; 37]],
    rhs: &mut [f64],
    values: &mut [f64],
)
    requires { (bank_good bank.now ≡ true) × ((leb transient 1 ≡ true) × (celled_row bank.now (kind_from transient alpha) cells.now (length rhs.old) (length values.old) ≡ 0)) }
    ensures { record { side = rhs.new; matrix = values.new }
        ≡ load_celled_in_order (kind_from transient alpha) (celled_of bank.now cells.now) (record { side = rhs.old; matrix = values.old }) }
{
    for (w, list) in bank.iter().zip(cells) {
        add_device(w, transient, alpha, list, rhs, values);
    }
}
