// Evaluation and commit of a device that is a record.
#![tactic(auto)]

ghost use Rattle.std.specs.Prelude.{◌<◌, ◌≡◌, false, length};
ghost use Rattle.device.specs.Nodes.{any_node_beyond};
ghost use Rattle.device.specs.Refusals.{number_of, outcome};
ghost use Rattle.device.specs.Stages.{unbound};
ghost use Rattle.rows.specs.Rows.{node_voltage_of, voltages_of, row11_of};
ghost use Rattle.from_record.specs.Devices.{node_from, method_from, stage_from, terminals_from, device_from};
ghost use Rattle.record_steps.specs.Steps.{good_conditions, conditions_from, refused_reply, read_at_of, read_of, reading_of, changes_at, charges_from, commit_record_of};

use bias::{Answer, Voltages};
use device::{Charges, Mosfet1, OperatingPoint, Refusal};
use record::{DeviceRecord, HistoriesRecord, MethodRecord, NodeRecord, TerminalsRecord};
use temperature::Kelvin;

// What an evaluation is handed besides the voltages. The limiter and the transient flag are 0 or 1.
#[repr(C)]
#[derive(Clone, Copy)]
pub struct ConditionsRecord {
    pub temperature: f64,
    pub gmin: f64,
    pub limiter: u64,
    pub transient: u64,
    pub method: MethodRecord,
}

// What an evaluation answers that changes the record where it lies.
#[repr(C)]
#[derive(Clone, Copy)]
pub struct EvaluationReply {
    pub refusal: u64,
    pub answer: Answer,
}

// What an evaluation reads before it works anything out: the voltages of the inner nodes and the thermal voltage. That is a division on
// which the junctions wait, so it is begun before the rows are asked.
#[derive(Clone, Copy)]
pub struct Reading {
    pub voltages: Voltages,
    pub vt: f64,
}

// The answer of an accepted evaluation, and the parts of the record that it changes with the transient flag and without. The stage of
// an evaluated device is known, and the charges are worked out apart.
#[derive(Clone, Copy)]
pub struct EvaluationChanges {
    pub answer: Answer,
    pub point: OperatingPoint,
    pub method: MethodRecord,
}

// The parts of the record that an accepted commit changes.
#[derive(Clone, Copy)]
pub struct CommitChanges {
    pub point: OperatingPoint,
    pub histories: HistoriesRecord,
}

#[tactic(auto, unfolding(crate::specs::Steps::good_conditions))]
fn good_conditions(k: ConditionsRecord) -> bool
    ensures { result ≡ good_conditions k }
{
    k.limiter <= 1 && k.transient <= 1 && k.method.tag <= 3
}

// A refusal answers zeros.
#[tactic(auto, unfolding(crate::specs::Steps::refused_reply))]
pub fn refused_reply(refusal: Refusal) -> EvaluationReply
    ensures { result ≡ refused_reply (number_of refusal) }
{
    EvaluationReply {
        refusal: record::wide(u8::from(refusal)),
        answer: Answer {
            vgs: 0.0,
            vds: 0.0,
            vth: 0.0,
            ids: 0.0,
            gm: 0.0,
            gds: 0.0,
            gmbs: 0.0,
        },
    }
}

// Row 11 of the record's method, by its numbers: a method made to be asked takes 3 % more instructions in an evaluation. A tag above 2 is
// Gear's, as in `method_from`.
#[tactic(auto, using(crate::proofs::ByNumbers::row11_by_method))]
fn row11(m: MethodRecord) -> bool
    ensures { result ≡ row11_of (method_from m) }
{
    m.tag != 0 && (step_rows::bad_step(m.h) || 2 < m.tag && step_rows::bad_step(m.h_prev))
}

// What is read once the voltages are known: rows 9 and 11 are about them and the method.
#[tactic(auto, unfolding(crate::specs::Steps::read_at_of, step_rows::specs::StepRows::last_row_of))]
fn read_at(v: Voltages, vt: f64, method: MethodRecord) -> Result<Reading, Refusal>
    ensures { outcome result ≡ read_at_of v vt (method_from method) }
{
    if step_rows::row9(v) {
        return Err(Refusal::Voltage);
    }
    if row11(method) {
        return Err(Refusal::Step);
    }
    Ok(Reading { voltages: v, vt })
}

fn read(d: Mosfet1, x: &[f64], k: ConditionsRecord) -> Result<Reading, Refusal>
    ensures { outcome result ≡ read_of d x.now (conditions_from k) }
{
    let temperature = Kelvin(k.temperature);
    let vt = junction::vt(temperature);
    step_rows::first_row(d.stage, d.terminals, x.len(), temperature, k.gmin)?;
    let v = rows::voltages(x, d.terminals);
    read_at(v, vt, k.method)
}

// What a node is at whose index is inside, ground's too.
fn node_voltage(x: &[f64], node: NodeRecord) -> f64
    requires { node.index < length x.now }
    ensures { result ≡ node_voltage_of x.now (node_from node) }
{
    if node.tag == 0 { 0.0 } else { x[node.index] }
}

// As `rows::voltages`, of the record's own fields and with no test at each node; both stay, since one test in place of six was measured to be
// faster (docs/PERFORMANCE.md).
#[tactic(auto, unfolding(rows::specs::Rows::voltages_of, from_record::specs::Devices::terminals_from))]
fn voltages_inside(x: &[f64], t: TerminalsRecord) -> Voltages
    requires { (t.drain.index < length x.now) × ((t.gate.index < length x.now) × ((t.source.index < length x.now) × (t.bulk.index < length x.now))) }
    ensures { result ≡ voltages_of x.now (terminals_from t) }
{
    Voltages {
        vd: node_voltage(x, t.drain),
        vg: node_voltage(x, t.gate),
        vs: node_voltage(x, t.source),
        vb: node_voltage(x, t.bulk),
    }
}

// Whether the stage of that number is before binding: 1, 2 or 3. By the number, so that no stage is made first.
#[tactic(auto, using(crate::proofs::ByNumbers::unbound_by_number))]
fn unbound(stage: u64) -> bool
    ensures { result ≡ unbound (stage_from stage) }
{
    if 3 < stage {
        return false;
    }
    stage != 0
}

// The same where every index is inside: row 8 is not asked, and stage, method and voltages are read by the record's own fields.
fn read_inside(r: DeviceRecord, x: &[f64], k: ConditionsRecord) -> Result<Reading, Refusal>
    requires { (any_node_beyond (length x.now) (terminals_from r.terminals) ≡ false)
        × ((r.terminals.drain.index < length x.now) × ((r.terminals.gate.index < length x.now)
        × ((r.terminals.source.index < length x.now) × (r.terminals.bulk.index < length x.now)))) }
    ensures { outcome result ≡ read_of (device_from r) x.now (conditions_from k) }
{
    let temperature = Kelvin(k.temperature);
    let vt = junction::vt(temperature);
    if step_rows::row6(temperature, k.gmin) {
        return Err(Refusal::Temperature);
    }
    if unbound(r.stage) {
        return Err(Refusal::Stage);
    }
    let v = voltages_inside(x, r.terminals);
    read_at(v, vt, k.method)
}

// An evaluation in three steps, each with a copy of the record of its own: so the compiler reads of the record what a step needs when
// it needs it, and keeps none of it for later. The first reads the voltages and asks the rows. The usual case, every index inside,
// ground's too, is told by one test.
#[tactic(auto, unfolding(crate::specs::Steps::reading_of))]
pub fn read_voltages(r: DeviceRecord, x: &[f64], k: ConditionsRecord) -> Result<Reading, Refusal>
    ensures { outcome result ≡ reading_of r x.now k }
{
    if !from_record::good_tags_at_once(r) || !good_conditions(k) {
        return Err(Refusal::Tag);
    }
    if from_record::indices(r.terminals) < x.len() {
        return read_inside(r, x, k);
    }
    read(from_record::device_from(r), x, k)
}

// The second step: `eval` of the device that the record stands for at what was read, without the charges.
pub fn evaluate(r: DeviceRecord, at: Reading, k: ConditionsRecord) -> EvaluationChanges
    ensures { result ≡ changes_at r at k }
{
    let d = from_record::device_from(r);
    let e = mosfet1::steps::answer_and_point(d, at.voltages, at.vt, k.gmin, k.limiter == 1);
    EvaluationChanges {
        answer: e.answer,
        point: e.point,
        method: record::method_record(from_record::method_from(k.method)),
    }
}

// The third: with the transient flag the charges and capacitances at what the second answered. Without it they stay, and nobody has to
// store them.
pub fn charges(
    r: DeviceRecord,
    at: Reading,
    k: ConditionsRecord,
    c: EvaluationChanges,
) -> Option<Charges>
    ensures { result ≡ charges_from r at k c }
{
    if k.transient == 1 {
        let d = from_record::device_from(r);
        return Some(mosfet1::steps::evaluated_charges(d, at.voltages, true, c.answer));
    }
    None
}

// `commit_timestep` of the device that the record stands for: what of the record changes.
pub fn commit(r: DeviceRecord, x: &[f64]) -> Result<CommitChanges, Refusal>
    ensures { outcome result ≡ commit_record_of r x.now }
{
    if from_record::good_tags(r) {
        let after = model::calls::commit_timestep(from_record::device_from(r), x)?;
        Ok(CommitChanges {
            point: after.point,
            histories: record::histories_record(after.histories),
        })
    } else {
        Err(Refusal::Tag)
    }
}
