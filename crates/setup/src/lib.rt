// Scaling at a temperature and binding to nodes (the Rust's `setup_model`, `setup_instance`, `num_extra_nodes` and
// `bind_extra_nodes` of mosfet1.rs).
#![tactic(auto)]

ghost use Rattle.std.specs.Prelude.{◌≡◌, ◌+◌, ◌<◌, ◌^◌};
ghost use Rattle.device.specs.Refusals.{outcome};
ghost use Rattle.setup.specs.Scaling.{
  scaled_at,
  potentials_low,
  scaled_to,
  scaling_of,
};
ghost use Rattle.setup.specs.Binding.{
  extra,
  extra_nodes,
  inner_drain,
  inner_source,
  terminals_of,
  outside_binding,
  bound_to,
  binding_of,
};

use device::{Card, Mosfet1, NodeId, Refusal, Scaled, Stage, Terminals};
use temperature::Kelvin;

// No node's number is above 2^32 - 1.
const NODE_LIMIT: usize = 1 << 32;

// The parameters at a temperature, from the card's.
fn scaled_at(card: Card, t: Kelvin) -> Scaled
    ensures { result ≡ scaled_at card t }
{
    let tnom = card.tnom;
    let phi_t = scaling::scaled_phi(card.phi, t, tnom);
    let is_pmos = card.polarity < 0.0;
    let vto_t = scaling::scaled_vto(card.vto, card.gamma, card.phi, phi_t, t, tnom, is_pmos);
    Scaled {
        isat_t_factor: temperature::mos_junction_is_factor(t, tnom),
        pb_t: scaling::scaled_junction_potential(card.pb, t, tnom),
        cj_t_factor: scaling::junction_cap_factor(card.pb, card.mj, t, tnom),
        cjsw_t_factor: scaling::junction_cap_factor(card.pb, card.mjsw, t, tnom),
        vto_t,
        kp_t: card.kp * temperature::mobility_factor(t, tnom),
        phi_t,
    }
}

// Row 7.
fn potentials_low(s: Scaled) -> bool
    ensures { result ≡ potentials_low s }
{
    s.phi_t < 0.05 || s.pb_t < 0.05
}

fn scaled_to(device: Mosfet1, scaled: Scaled) -> Mosfet1
    ensures { result ≡ scaled_to device scaled }
{
    Mosfet1 {
        scaled,
        // A later stage stays.
        stage: device.stage.max(Stage::Scaled),
        ..device
    }
}

// Scales the device's parameters to a temperature.
pub fn setup_model(device: Mosfet1, temperature: Kelvin) -> Result<Mosfet1, Refusal>
    ensures { outcome result ≡ scaling_of device temperature }
{
    if device::outside_temperatures(temperature) {
        return Err(Refusal::Temperature);
    }
    let scaled = scaled_at(device.card, temperature);
    if potentials_low(scaled) {
        return Err(Refusal::Potential);
    }
    if device::before(device.stage, Stage::Geometry) {
        return Err(Refusal::Stage);
    }
    Ok(scaled_to(device, scaled))
}

// A series resistance above 0 has a node of its own.
fn extra(resistance: f64) -> usize
    ensures { result ≡ extra resistance }
{
    usize::from(resistance > 0.0)
}

// How many nodes beyond the four terminals the device asks for.
pub fn num_extra_nodes(device: Mosfet1) -> usize
    ensures { result ≡ extra_nodes device.geometry }
{
    extra(device.geometry.rd) + extra(device.geometry.rs)
}

// The node behind the drain's resistance, the first of the extra ones.
fn inner_drain(rd: f64, drain: NodeId, first: usize) -> NodeId
    ensures { result ≡ inner_drain rd drain first }
{
    if rd > 0.0 { NodeId::At(first) } else { drain }
}

// The node behind the source's resistance, after the drain's.
fn inner_source(rd: f64, rs: f64, source: NodeId, first: usize) -> NodeId
    requires { first + extra rd < 2 ^ 64 }
    ensures { result ≡ inner_source rd rs source first }
{
    let at = first + extra(rd);
    if rs > 0.0 { NodeId::At(at) } else { source }
}

// The six nodes of a binding.
fn terminals(
    rd: f64,
    rs: f64,
    drain: NodeId,
    gate: NodeId,
    source: NodeId,
    bulk: NodeId,
    first: usize,
) -> Terminals
    requires { first + extra rd < 2 ^ 64 }
    ensures { result ≡ terminals_of rd rs drain gate source bulk first }
{
    Terminals {
        drain_ext: drain,
        source_ext: source,
        drain: inner_drain(rd, drain, first),
        gate,
        source: inner_source(rd, rs, source, first),
        bulk,
    }
}

// The device with its terminals, ready for evaluation.
fn bound(device: Mosfet1, terminals: Terminals) -> Mosfet1
    ensures { result ≡ bound_to device terminals }
{
    Mosfet1 {
        terminals,
        stage: Stage::Bound,
        ..device
    }
}

// Whether a binding comes too early or too late.
fn outside_binding(stage: Stage) -> bool
    ensures { result ≡ outside_binding stage }
{
    device::before(stage, Stage::Scaled) || device::before(Stage::Bound, stage)
}

// Binds the drain, gate, source and bulk, and the extra nodes from `first` on.
pub fn setup_instance(
    device: Mosfet1,
    drain: NodeId,
    gate: NodeId,
    source: NodeId,
    bulk: NodeId,
    first: usize,
) -> Result<Mosfet1, Refusal>
    ensures { outcome result ≡ binding_of device drain gate source bulk first }
{
    let rd = device.geometry.rd;
    let rs = device.geometry.rs;
    // The internal drain first: with its number small the next one is a number too.
    if inner_drain(rd, drain, first).is_beyond(NODE_LIMIT) {
        return Err(Refusal::Node);
    }
    let terminals = terminals(rd, rs, drain, gate, source, bulk, first);
    if terminals.any_beyond(NODE_LIMIT) {
        return Err(Refusal::Node);
    }
    if outside_binding(device.stage) {
        return Err(Refusal::Stage);
    }
    Ok(bound(device, terminals))
}
