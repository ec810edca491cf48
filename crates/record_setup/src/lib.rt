// Scaling and binding of a device that is a record.
#![tactic(auto)]

ghost use Rattle.std.specs.Prelude.{◌≡◌};
ghost use Rattle.device.specs.Refusals.{outcome};
ghost use Rattle.record_setup.specs.Setup.{setup_outcome, scaling_call, good_nodes, bound_by, binding_call, extra_nodes_call};

use device::{Mosfet1, Refusal};
use record::{DeviceOutcome, DeviceRecord, NodeRecord};
use temperature::Kelvin;

// A count, and the number of the refusal.
#[repr(C)]
#[derive(Clone, Copy)]
pub struct CountOutcome {
    pub refusal: u64,
    pub count: usize,
}

// The nodes of a binding.
#[repr(C)]
#[derive(Clone, Copy)]
pub struct NodesRecord {
    pub drain: NodeRecord,
    pub gate: NodeRecord,
    pub source: NodeRecord,
    pub bulk: NodeRecord,
}

// Copied into its callers: as a call it would take a whole device from memory, which a refusal fills with zeros by a call of memset.
#[tactic(auto, unfolding(crate::specs::Setup::setup_outcome))]
#[inline(always)]
fn setup_outcome(r: DeviceRecord, answer: Result<Mosfet1, Refusal>) -> DeviceOutcome
    ensures { result ≡ setup_outcome r (outcome answer) }
{
    match answer {
        Ok(device) => DeviceOutcome {
            refusal: 0,
            device: DeviceRecord::from(device),
        },
        Err(refusal) => DeviceOutcome {
            refusal: record::wide(u8::from(refusal)),
            device: r,
        },
    }
}

// The temperature is in kelvin.
#[tactic(auto, unfolding(crate::specs::Setup::scaling_call, crate::specs::Setup::setup_outcome))]
pub fn setup_model(r: DeviceRecord, temperature: f64) -> DeviceOutcome
    ensures { result ≡ scaling_call r temperature }
{
    if !from_record::good_tags(r) {
        return setup_outcome(r, Err(Refusal::Tag));
    }
    let answer = setup::setup_model(from_record::device_from(r), Kelvin(temperature));
    setup_outcome(r, answer)
}

#[tactic(auto, unfolding(crate::specs::Setup::extra_nodes_call))]
pub fn num_extra_nodes(r: DeviceRecord) -> CountOutcome
    ensures { result ≡ extra_nodes_call r }
{
    if !from_record::good_tags(r) {
        return CountOutcome {
            refusal: record::wide(u8::from(Refusal::Tag)),
            count: 0,
        };
    }
    let count = setup::num_extra_nodes(from_record::device_from(r));
    CountOutcome { refusal: 0, count }
}

#[tactic(auto, unfolding(crate::specs::Setup::good_nodes))]
fn good_nodes(n: NodesRecord) -> bool
    ensures { result ≡ good_nodes n }
{
    n.drain.tag <= 1 && n.gate.tag <= 1 && n.source.tag <= 1 && n.bulk.tag <= 1
}

#[tactic(auto, unfolding(crate::specs::Setup::bound_by))]
fn bind(r: DeviceRecord, n: NodesRecord, first: usize) -> Result<Mosfet1, Refusal>
    ensures { outcome result ≡ bound_by r n first }
{
    let d = from_record::device_from(r);
    let to_drain = from_record::node_from(n.drain);
    let to_gate = from_record::node_from(n.gate);
    let to_source = from_record::node_from(n.source);
    let to_bulk = from_record::node_from(n.bulk);
    setup::setup_instance(d, to_drain, to_gate, to_source, to_bulk, first)
}

// Binds to four nodes, and to the extra nodes from `first` on.
#[tactic(auto, unfolding(crate::specs::Setup::binding_call, crate::specs::Setup::setup_outcome))]
pub fn setup_instance(r: DeviceRecord, n: NodesRecord, first: usize) -> DeviceOutcome
    ensures { result ≡ binding_call r n first }
{
    if !from_record::good_tags(r) || !good_nodes(n) {
        return setup_outcome(r, Err(Refusal::Tag));
    }
    setup_outcome(r, bind(r, n, first))
}
