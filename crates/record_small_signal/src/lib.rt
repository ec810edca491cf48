// Noise and reactances of a device that is a record.
#![tactic(auto)]

ghost use Rattle.std.specs.Prelude.{◌≡◌};
ghost use Rattle.device.specs.Refusals.{outcome};
ghost use Rattle.record_small_signal.specs.SmallSignal.{noise_refused, noise_outcome, noise_call, no_reactance, reactance_record, five_record, reactances_refused, reactances_outcome, reactances_call};

use device::Refusal;
use model::small_signal::{Capacitor, NoiseSource, Reactances};
use record::{DeviceRecord, NodeRecord};
use temperature::Kelvin;

// A noise source: tag 0 none, tag 1 from drain to source with its density; and the number of the refusal.
#[repr(C)]
#[derive(Clone, Copy)]
pub struct NoiseOutcome {
    pub refusal: u64,
    pub tag: u64,
    pub drain: NodeRecord,
    pub source: NodeRecord,
    pub density: f64,
}

// A capacitor between two nodes: tag 0 absent, tag 1 present.
#[repr(C)]
#[derive(Clone, Copy)]
pub struct ReactanceRecord {
    pub tag: u64,
    pub pos: NodeRecord,
    pub neg: NodeRecord,
    pub capacitance: f64,
}

#[repr(C)]
#[derive(Clone, Copy)]
pub struct ReactancesOutcome {
    pub refusal: u64,
    pub gs: ReactanceRecord,
    pub gd: ReactanceRecord,
    pub gb: ReactanceRecord,
    pub bs: ReactanceRecord,
    pub bd: ReactanceRecord,
}

// No source: the number of the refusal, or 0.
#[tactic(auto, unfolding(crate::specs::SmallSignal::noise_refused))]
fn noise_refused(n: u64) -> NoiseOutcome
    ensures { result ≡ noise_refused n }
{
    let ground = NodeRecord { tag: 0, index: 0 };
    NoiseOutcome {
        refusal: n,
        tag: 0,
        drain: ground,
        source: ground,
        density: 0.0,
    }
}

#[tactic(auto, unfolding(crate::specs::SmallSignal::noise_outcome, crate::specs::SmallSignal::noise_record))]
fn noise_outcome(a: Result<Option<NoiseSource>, Refusal>) -> NoiseOutcome
    ensures { result ≡ noise_outcome (outcome a) }
{
    match a {
        Ok(None) => noise_refused(0),
        Ok(Some(source)) => NoiseOutcome {
            refusal: 0,
            tag: 1,
            drain: record::node_record(source.pos),
            source: record::node_record(source.neg),
            density: source.density,
        },
        Err(refusal) => noise_refused(record::wide(u8::from(refusal))),
    }
}

// The temperature is in kelvin.
#[tactic(auto, unfolding(crate::specs::SmallSignal::noise_call))]
pub fn noise_sources(r: DeviceRecord, temperature: f64, freq: f64) -> NoiseOutcome
    ensures { result ≡ noise_call r temperature freq }
{
    if !from_record::good_tags(r) {
        return noise_refused(record::wide(u8::from(Refusal::Tag)));
    }
    let d = from_record::device_from(r);
    noise_outcome(small_signal::noise_sources(d, Kelvin(temperature), freq))
}

#[tactic(auto, unfolding(crate::specs::SmallSignal::no_reactance))]
fn no_reactance() -> ReactanceRecord
    ensures { result ≡ no_reactance }
{
    let ground = NodeRecord { tag: 0, index: 0 };
    ReactanceRecord {
        tag: 0,
        pos: ground,
        neg: ground,
        capacitance: 0.0,
    }
}

#[tactic(auto, unfolding(crate::specs::SmallSignal::reactance_record))]
fn reactance_record(a: Option<Capacitor>) -> ReactanceRecord
    ensures { result ≡ reactance_record a }
{
    match a {
        None => no_reactance(),
        Some(c) => ReactanceRecord {
            tag: 1,
            pos: record::node_record(c.pos),
            neg: record::node_record(c.neg),
            capacitance: c.capacitance,
        },
    }
}

#[tactic(auto, unfolding(crate::specs::SmallSignal::five_record))]
fn five_record(five: Reactances) -> ReactancesOutcome
    ensures { result ≡ five_record five }
{
    ReactancesOutcome {
        refusal: 0,
        gs: reactance_record(five.gs),
        gd: reactance_record(five.gd),
        gb: reactance_record(five.gb),
        bs: reactance_record(five.bs),
        bd: reactance_record(five.bd),
    }
}

#[tactic(auto, unfolding(crate::specs::SmallSignal::reactances_refused))]
fn reactances_refused(n: u64) -> ReactancesOutcome
    ensures { result ≡ reactances_refused n }
{
    let none = no_reactance();
    ReactancesOutcome {
        refusal: n,
        gs: none,
        gd: none,
        gb: none,
        bs: none,
        bd: none,
    }
}

#[tactic(auto, unfolding(crate::specs::SmallSignal::reactances_outcome))]
fn reactances_outcome(a: Result<Reactances, Refusal>) -> ReactancesOutcome
    ensures { result ≡ reactances_outcome (outcome a) }
{
    match a {
        Ok(five) => five_record(five),
        Err(refusal) => reactances_refused(record::wide(u8::from(refusal))),
    }
}

#[tactic(auto, unfolding(crate::specs::SmallSignal::reactances_call))]
pub fn small_signal_reactances(r: DeviceRecord) -> ReactancesOutcome
    ensures { result ≡ reactances_call r }
{
    if !from_record::good_tags(r) {
        return reactances_refused(record::wide(u8::from(Refusal::Tag)));
    }
    reactances_outcome(small_signal::small_signal_reactances(from_record::device_from(r)))
}
