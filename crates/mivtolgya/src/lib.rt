// The calls for C and Rust on x86-64 (include/mivtolgya.h). A lent slice is a pointer and a length. Each is the call of the same name
// on records, whose definitions say what is answered and what the lent slices hold afterwards.
// Evaluation, both loads and commit, the calls of the loop, stand over the record where it lies and write only what changes. Each
// large function below them has one caller, so the compiler makes one function of a call, which reads of the record what it needs and
// copies nothing. The other calls take the record by value, and one that changes it answers the record that is to take its place.
#![tactic(auto)]

ghost use Rattle.std.specs.Prelude.{◌≡◌, length};
ghost use Rattle.record_card.specs.Keys.{card_call, card_call_list, geometry_call, geometry_call_list};
ghost use Rattle.record_setup.specs.Setup.{scaling_call, binding_call, extra_nodes_call};
ghost use Rattle.record_layout.specs.Layout.{extra_nodes_needed_call, layout_call, layout_columns, layout_offsets, layout_lengths};
ghost use Rattle.record_steps.specs.Steps.{eval_call, reply_of, commit_call};
ghost use Rattle.record_small_signal.specs.SmallSignal.{noise_call, reactances_call};
ghost use Rattle.record_loading.specs.Load.{load_call, loaded_side, loaded_matrix};
ghost use Rattle.device.specs.Refusals.{number, values_or};
ghost use Rattle.resolve.specs.Resolve.{no_cells};
ghost use Rattle.record_resolved.specs.Resolved.{resolve_call, load_resolved_call, resolved_side, resolved_matrix};
ghost use Rattle.interface.specs.Interface.{interface_version, device_size};

use record::{DeviceOutcome, DeviceRecord};
use record_card::KeysOutcome;
use record_layout::LayoutOutcome;
use record_resolved::ResolveOutcome;
use record_setup::{CountOutcome, NodesRecord};
use record_small_signal::{NoiseOutcome, ReactancesOutcome};
use record_steps::{ConditionsRecord, EvaluationReply};

// What the header's inline check holds a caller's object to.
#[unsafe(no_mangle)]
pub extern "C" fn mivtolgya_version() -> u64
    ensures { result ≡ interface_version }
{
    interface::version()
}

// The size of the device's record in bytes.
#[unsafe(no_mangle)]
pub extern "C" fn mivtolgya_device_size() -> usize
    ensures { result ≡ device_size }
{
    interface::device_size()
}

#[unsafe(no_mangle)]
pub extern "C" fn mivtolgya_from_model_params(
    old: DeviceRecord,
    polarity: u64,
    bytes: &[u8],
    offsets: &[usize],
    lengths: &[usize],
    values: &[f64],
    unknown: &mut [usize],
) -> KeysOutcome
    ensures { (result ≡ card_call old polarity bytes.now offsets.now lengths.now values.now (length unknown.old))
        × (unknown.new ≡ card_call_list polarity bytes.now offsets.now lengths.now values.now unknown.old) }
{
    record_card::from_model_params(old, polarity, bytes, offsets, lengths, values, unknown)
}

#[unsafe(no_mangle)]
pub extern "C" fn mivtolgya_set_instance_params(
    device: DeviceRecord,
    bytes: &[u8],
    offsets: &[usize],
    lengths: &[usize],
    values: &[f64],
    unknown: &mut [usize],
) -> KeysOutcome
    ensures { (result ≡ geometry_call device bytes.now offsets.now lengths.now values.now (length unknown.old))
        × (unknown.new ≡ geometry_call_list device bytes.now offsets.now lengths.now values.now unknown.old) }
{
    record_card::set_instance_params(device, bytes, offsets, lengths, values, unknown)
}

#[unsafe(no_mangle)]
pub extern "C" fn mivtolgya_setup_model(device: DeviceRecord, temperature: f64) -> DeviceOutcome
    ensures { result ≡ scaling_call device temperature }
{
    record_setup::setup_model(device, temperature)
}

#[unsafe(no_mangle)]
pub extern "C" fn mivtolgya_num_extra_nodes(device: DeviceRecord) -> CountOutcome
    ensures { result ≡ extra_nodes_call device }
{
    record_setup::num_extra_nodes(device)
}

// The same number, refused before the first geometry call: until then a sheet resistance counts for nothing.
#[unsafe(no_mangle)]
pub extern "C" fn mivtolgya_extra_nodes(device: DeviceRecord) -> CountOutcome
    ensures { result ≡ extra_nodes_needed_call device }
{
    record_layout::extra_nodes(device)
}

#[unsafe(no_mangle)]
pub extern "C" fn mivtolgya_setup_instance(
    device: DeviceRecord,
    nodes: NodesRecord,
    first: usize,
) -> DeviceOutcome
    ensures { result ≡ binding_call device nodes first }
{
    record_setup::setup_instance(device, nodes, first)
}

// The pattern of every cell that the bound device may ever load, in front of what the three slices hold; nothing where one is short.
#[unsafe(no_mangle)]
pub extern "C" fn mivtolgya_matrix_layout(
    device: DeviceRecord,
    columns: &mut [u32],
    offsets: &mut [usize],
    lengths: &mut [usize],
) -> LayoutOutcome
    ensures { (result ≡ layout_call device)
        × ((columns.new ≡ layout_columns device columns.old offsets.old lengths.old)
        × ((offsets.new ≡ layout_offsets device columns.old offsets.old lengths.old)
        × (lengths.new ≡ layout_lengths device columns.old offsets.old lengths.old))) }
{
    record_layout::matrix_layout(device, columns, offsets, lengths)
}

#[unsafe(no_mangle)]
pub extern "C" fn mivtolgya_noise_sources(
    device: DeviceRecord,
    temperature: f64,
    freq: f64,
) -> NoiseOutcome
    ensures { result ≡ noise_call device temperature freq }
{
    record_small_signal::noise_sources(device, temperature, freq)
}

#[unsafe(no_mangle)]
pub extern "C" fn mivtolgya_small_signal_reactances(device: DeviceRecord) -> ReactancesOutcome
    ensures { result ≡ reactances_call device }
{
    record_small_signal::small_signal_reactances(device)
}

// ---- the calls of the loop on a record where it lies

// Only the parts that an evaluation changes are written: the charges with the transient flag alone, and nothing
// where it is refused. The stage of an evaluated device is 5.
#[unsafe(no_mangle)]
pub extern "C" fn mivtolgya_eval_in_place(
    device: &mut DeviceRecord,
    x: &[f64],
    conditions: ConditionsRecord,
) -> EvaluationReply
    ensures { (result ≡ reply_of (eval_call device.old x.now conditions))
        × (device.new ≡ (eval_call device.old x.now conditions).device) }
{
    let asked = *device;
    let at = match record_steps::read_voltages(asked, x, conditions) {
        Ok(at) => at,
        Err(refusal) => return record_steps::refused_reply(refusal),
    };
    let held = *device;
    let changes = record_steps::evaluate(held, at, conditions);
    let charged = *device;
    if let Some(charges) = record_steps::charges(charged, at, conditions, changes) {
        device.charges = charges;
    }
    device.point = changes.point;
    device.method = changes.method;
    device.stage = 5;
    EvaluationReply {
        refusal: 0,
        answer: changes.answer,
    }
}

// The record is only read.
#[unsafe(no_mangle)]
pub extern "C" fn mivtolgya_load_in_place(
    device: &DeviceRecord,
    transient: u64,
    alpha: f64,
    rhs: &mut [f64],
    values: &mut [f64],
    columns: &[u32],
    offsets: &[usize],
    lengths: &[usize],
) -> u64
    ensures { (result ≡ load_call device.now transient alpha (record { columns = columns.now; offsets = offsets.now; lengths = lengths.now }) rhs.old values.old)
        × ((rhs.new ≡ loaded_side device.now transient alpha (record { columns = columns.now; offsets = offsets.now; lengths = lengths.now }) rhs.old values.old)
        × (values.new ≡ loaded_matrix device.now transient alpha (record { columns = columns.now; offsets = offsets.now; lengths = lengths.now }) rhs.old values.old)) }
{
    let r = *device;
    record_loading::load(r, transient, alpha, rhs, values, columns, offsets, lengths)
}

// Only the parts that a commit changes are written, and none where it is refused.
#[unsafe(no_mangle)]
pub extern "C" fn mivtolgya_commit_in_place(device: &mut DeviceRecord, x: &[f64]) -> u64
    ensures { (result ≡ (commit_call device.old x.now).refusal)
        × (device.new ≡ (commit_call device.old x.now).device) }
{
    let old = *device;
    match record_steps::commit(old, x) {
        Ok(changes) => {
            device.point = changes.point;
            device.histories = changes.histories;
            0
        }
        Err(refusal) => record::wide(u8::from(refusal)),
    }
}

#[unsafe(no_mangle)]
pub extern "C" fn mivtolgya_resolve(
    device: DeviceRecord,
    columns: &[u32],
    offsets: &[usize],
    lengths: &[usize],
) -> ResolveOutcome
    ensures { (result.refusal ≡ number (resolve_call device (record { columns = columns.now; offsets = offsets.now; lengths = lengths.now })))
        × (result.cells ≡ values_or no_cells (resolve_call device (record { columns = columns.now; offsets = offsets.now; lengths = lengths.now }))) }
{
    record_resolved::resolve(device, columns, offsets, lengths)
}

// A load by the cells that `mivtolgya_resolve` answered. The record and the cells are only read. Each step has a copy of the record of its
// own, of which the compiler reads what the step needs when it needs it; the last two do nothing where a row refuses.
#[unsafe(no_mangle)]
pub extern "C" fn mivtolgya_load_resolved(
    device: &DeviceRecord,
    transient: u64,
    alpha: f64,
    cells: &[usize; 37],
    rhs: &mut [f64],
    values: &mut [f64],
) -> u64
    ensures { (result ≡ load_resolved_call device.now transient alpha cells.now rhs.old values.old)
        × ((rhs.new ≡ resolved_side device.now transient alpha cells.now rhs.old values.old)
        × (values.new ≡ resolved_matrix device.now transient alpha cells.now rhs.old values.old)) }
{
    let asked = *device;
    let row = record_resolved::row(asked, transient, alpha, cells, rhs.len(), values.len());
    let held = *device;
    record_resolved::add_static(row, held, transient, alpha, cells, rhs, values);
    let charged = *device;
    record_resolved::add_charges(row, charged, transient, alpha, cells, rhs, values);
    row
}
