// What the calls for noise and reactances answer. The calls are in `small_signal`; their definitions are here.
use device::NodeId;

// A noise source between two nodes, with its density.
#[derive(Clone, Copy)]
pub struct NoiseSource {
    pub pos: NodeId,
    pub neg: NodeId,
    pub density: f64,
}

// A capacitor between two nodes.
#[derive(Clone, Copy)]
pub struct Capacitor {
    pub pos: NodeId,
    pub neg: NodeId,
    pub capacitance: f64,
}

// The five charge branches' capacitors, each where it has one.
#[derive(Clone, Copy)]
pub struct Reactances {
    pub gs: Option<Capacitor>,
    pub gd: Option<Capacitor>,
    pub gb: Option<Capacitor>,
    pub bs: Option<Capacitor>,
    pub bd: Option<Capacitor>,
}
