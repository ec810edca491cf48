// The device record and the types of its calls (the Rust's device.rs, and `Mosfet1` of mosfet1.rs).
// Structs of numbers alone are laid out as in C, so that the record for C holds them as they are.
#![tactic(auto)]

ghost use Rattle.std.specs.Prelude.{◌≡◌};
ghost use Rattle.device.specs.Limits.{within, outside_temperatures};
ghost use Rattle.device.specs.Nodes.{node_beyond, any_node_beyond};
ghost use Rattle.device.specs.Refusals.{number_of};
ghost use Rattle.device.specs.Stages.{stage_number, before, unbound, unevaluated};

use temperature::Kelvin;

// A node of the circuit: ground, or the number of its row.
#[derive(Clone, Copy)]
pub enum NodeId {
    Ground,
    At(usize),
}

impl NodeId {
    // Whether the node lies behind so many rows; ground never does.
    pub fn is_beyond(self, rows: usize) -> bool
        ensures { result ≡ node_beyond rows self }
    {
        match self {
            NodeId::Ground => false,
            NodeId::At(row) => rows <= row,
        }
    }
}

// An integration method with its own step lengths, h and the earlier h.
#[derive(Clone, Copy)]
pub enum Discretisation {
    None,
    Euler(f64),
    Trapezoid(f64),
    Gear(f64, f64),
}

// Why a call is refused, each under the number that the C interface answers for it, in the order of these. 0 is no refusal.
#[derive(Clone, Copy, Debug, PartialEq, Eq, PartialOrd, Ord)]
pub enum Refusal {
    // keys overlap or go past the bytes, or the counts differ
    KeyPairs = 1,
    // a byte of a key is not ASCII
    KeyByte = 2,
    // more unknown keys than the lent list has room for
    UnknownKeys = 3,
    // a key's value is NaN or out of its range
    KeyValue = 4,
    // flicker noise without an oxide capacitance
    Oxide = 5,
    // a temperature, tnom or gmin is NaN or out of range
    Temperature = 6,
    // phi or pb would fall below 0.05 V at this temperature
    Potential = 7,
    // a node lies behind the end of what is lent, or above 2^32 - 1
    Node = 8,
    // a voltage is not finite or beyond 1000 V
    Voltage = 9,
    // the call comes too early or too late
    Stage = 10,
    // a step, or alpha where there is no step, is out of range
    Step = 11,
    // the matrix is not laid out as it must be, or not as it was resolved
    Pattern = 12,
    // the matrix has no place for a value, or the cells are another binding's
    MissingCell = 13,
    // runs overlap or leave the right-hand side, a block has no run, or too many devices
    Run = 14,
    // an unknown tag, or memory that is no device
    Tag = 100,
}

impl From<Refusal> for u8 {
    ghost from_gives = { λ r n. n ≡ number_of r };

    fn from(refusal: Refusal) -> u8 {
        refusal as u8
    }
}

// How far a device has come.
#[derive(Clone, Copy, Debug, PartialEq, Eq, PartialOrd, Ord)]
pub enum Stage {
    Card,
    Geometry,
    Scaled,
    Bound,
    Evaluated,
}

impl Stage {
    // Row 10 of an evaluation: the device is not bound.
    #[tactic(auto, unfolding(crate::specs::Stages::unbound))]
    pub fn is_unbound(self) -> bool
        ensures { result ≡ unbound self }
    {
        self < Stage::Bound
    }

    // Row 10 of what follows an evaluation: there was none.
    #[tactic(auto, unfolding(crate::specs::Stages::unevaluated))]
    pub fn is_unevaluated(self) -> bool
        ensures { result ≡ unevaluated self }
    {
        self < Stage::Evaluated
    }
}

pub fn stage_number(stage: Stage) -> u8
    ensures { result ≡ stage_number stage }
{
    stage as u8
}

// Whether a stage comes before another.
pub fn before(stage: Stage, other: Stage) -> bool
    ensures { result ≡ before stage other }
{
    stage < other
}

// Whether a number lies in a range, ends included; a NaN does not.
pub fn within(x: f64, least: f64, greatest: f64) -> bool
    ensures { result ≡ within x least greatest }
{
    least <= x && x <= greatest
}

// Whether a temperature is one that row 6 refuses.
pub fn outside_temperatures(t: Kelvin) -> bool
    ensures { result ≡ outside_temperatures t }
{
    !within(t.0, 200.0, 500.0)
}

// What the card says.
#[derive(Clone, Copy)]
pub struct Card {
    pub vto: f64,
    pub kp: f64,
    pub lambda: f64,
    pub gamma: f64,
    pub phi: f64,
    pub rd_card: Option<f64>,
    pub rs_card: Option<f64>,
    pub rsh: f64,
    pub is_bulk: f64,
    pub js: f64,
    pub kf: f64,
    pub af: f64,
    pub tnom: Kelvin,
    pub polarity: f64,
    pub cgso: f64,
    pub cgdo: f64,
    pub cgbo: f64,
    pub cox: f64,
    pub cj: f64,
    pub cjsw: f64,
    pub pb: f64,
    pub mj: f64,
    pub mjsw: f64,
    pub fc: f64,
}

// The instance's geometry, and what follows from it and the card.
#[repr(C)]
#[derive(Clone, Copy)]
pub struct Geometry {
    pub rd: f64,
    pub rs: f64,
    pub nrd: f64,
    pub nrs: f64,
    pub isat_bs: f64,
    pub isat_bd: f64,
    pub w: f64,
    pub l: f64,
    pub w_over_l: f64,
    pub as_: f64,
    pub ad: f64,
    pub ps: f64,
    pub pd: f64,
    pub cgs_ov: f64,
    pub cgd_ov: f64,
    pub cgb_ov: f64,
    pub cox_wl: f64,
    pub cbs_bot: f64,
    pub cbs_sw: f64,
    pub cbd_bot: f64,
    pub cbd_sw: f64,
}

// The parameters at the scaling's temperature.
#[repr(C)]
#[derive(Clone, Copy)]
pub struct Scaled {
    pub isat_t_factor: f64,
    pub pb_t: f64,
    pub cj_t_factor: f64,
    pub cjsw_t_factor: f64,
    pub vto_t: f64,
    pub kp_t: f64,
    pub phi_t: f64,
}

// The nodes: the external drain and source, and the four of the intrinsic channel.
#[derive(Clone, Copy)]
pub struct Terminals {
    pub drain_ext: NodeId,
    pub source_ext: NodeId,
    pub drain: NodeId,
    pub gate: NodeId,
    pub source: NodeId,
    pub bulk: NodeId,
}

impl Terminals {
    // Whether any of the six nodes lies behind so many rows.
    #[tactic(auto, unfolding(crate::specs::Nodes::any_node_beyond))]
    pub fn any_beyond(self, rows: usize) -> bool
        ensures { result ≡ any_node_beyond rows self }
    {
        self.drain_ext.is_beyond(rows)
            || self.source_ext.is_beyond(rows)
            || self.drain.is_beyond(rows)
            || self.gate.is_beyond(rows)
            || self.source.is_beyond(rows)
            || self.bulk.is_beyond(rows)
    }
}

// What the last evaluation left: conductances, offsets, the current and the kept voltages.
#[repr(C)]
#[derive(Clone, Copy)]
pub struct OperatingPoint {
    pub ids_eval: f64,
    pub gbs: f64,
    pub gbd: f64,
    pub ibs_eq: f64,
    pub ibd_eq: f64,
    pub gm: f64,
    pub gds: f64,
    pub gmbs: f64,
    pub jeq: f64,
    pub vgs_eff_prev: f64,
    pub vds_eff_prev: f64,
}

// What the last transient evaluation left: capacitances, charges and the junctions' voltages.
#[repr(C)]
#[derive(Clone, Copy)]
pub struct Charges {
    pub cgs_eval: f64,
    pub cgd_eval: f64,
    pub cgb_eval: f64,
    pub q_gs_eval: f64,
    pub q_gd_eval: f64,
    pub q_gb_eval: f64,
    pub vbs_eval: f64,
    pub vbd_eval: f64,
    pub cbs_eval: f64,
    pub cbd_eval: f64,
    pub q_bs_eval: f64,
    pub q_bd_eval: f64,
}

// A charge branch's past: the last charge, the one before it, and the last current.
#[derive(Clone, Copy)]
pub struct ChargeHistory {
    pub q_prev: f64,
    pub q_prev2: Option<f64>,
    pub i_prev: f64,
}

#[derive(Clone, Copy)]
pub struct Histories {
    pub gs_hist: ChargeHistory,
    pub gd_hist: ChargeHistory,
    pub gb_hist: ChargeHistory,
    pub bs_hist: ChargeHistory,
    pub bd_hist: ChargeHistory,
}

// The device.
#[derive(Clone, Copy)]
pub struct Mosfet1 {
    pub card: Card,
    pub geometry: Geometry,
    pub scaled: Scaled,
    pub terminals: Terminals,
    pub point: OperatingPoint,
    pub charges: Charges,
    pub histories: Histories,
    pub disc: Discretisation,
    pub stage: Stage,
}
