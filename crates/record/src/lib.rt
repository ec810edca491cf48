// The device as a record for C: numbers alone, every field of eight bytes, so that there is no padding and records can be
// copied and compared byte by byte. Choices are numbers, their tags; a record whose tags are all known stands for one device. Parts
// without a choice are the device's own structs. Device and record are made from one another by `From`.
#![tactic(auto)]

ghost use Rattle.std.specs.Prelude.{◌≡◌};
ghost use Rattle.device.specs.Refusals.{number, outcome};
ghost use Rattle.record.specs.Records.{stage_tag, node_record, given_record, method_record, card_record, terminals_record, history_record, histories_record, device_record};
ghost use Rattle.record.specs.Devices.{node_from, given_from, method_from, stage_from, card_from, terminals_from, history_from, histories_from, device_from};

use device::{
    Card, ChargeHistory, Charges, Discretisation, Geometry, Histories, Mosfet1, NodeId,
    OperatingPoint, Refusal, Scaled, Stage, Terminals,
};
use temperature::Kelvin;

// A node: tag 0 is ground, tag 1 the row that `index` names.
#[repr(C)]
#[derive(Clone, Copy)]
pub struct NodeRecord {
    pub tag: u64,
    pub index: usize,
}

// A number that may be absent: tag 0 absent, tag 1 `value`.
#[repr(C)]
#[derive(Clone, Copy)]
pub struct GivenRecord {
    pub tag: u64,
    pub value: f64,
}

// An integration method: tag 0 none, 1 Euler with h, 2 trapezoid with h, 3 Gear with h and the earlier h.
#[repr(C)]
#[derive(Clone, Copy)]
pub struct MethodRecord {
    pub tag: u64,
    pub h: f64,
    pub h_prev: f64,
}

// What the card says; tnom in kelvin.
#[repr(C)]
#[derive(Clone, Copy)]
pub struct CardRecord {
    pub vto: f64,
    pub kp: f64,
    pub lambda: f64,
    pub gamma: f64,
    pub phi: f64,
    pub rd_card: GivenRecord,
    pub rs_card: GivenRecord,
    pub rsh: f64,
    pub is_bulk: f64,
    pub js: f64,
    pub kf: f64,
    pub af: f64,
    pub tnom: f64,
    pub polarity: f64,
    pub cgso: f64,
    pub cgdo: f64,
    pub cgbo: f64,
    pub cox: f64,
    pub cj: f64,
    pub cjsw: f64,
    pub pb: f64,
    pub mj: f64,
    pub mjsw: f64,
    pub fc: f64,
}

// The six nodes.
#[repr(C)]
#[derive(Clone, Copy)]
pub struct TerminalsRecord {
    pub drain_ext: NodeRecord,
    pub source_ext: NodeRecord,
    pub drain: NodeRecord,
    pub gate: NodeRecord,
    pub source: NodeRecord,
    pub bulk: NodeRecord,
}

// A charge branch's past.
#[repr(C)]
#[derive(Clone, Copy)]
pub struct HistoryRecord {
    pub q_prev: f64,
    pub q_prev2: GivenRecord,
    pub i_prev: f64,
}

#[repr(C)]
#[derive(Clone, Copy)]
pub struct HistoriesRecord {
    pub gs_hist: HistoryRecord,
    pub gd_hist: HistoryRecord,
    pub gb_hist: HistoryRecord,
    pub bs_hist: HistoryRecord,
    pub bd_hist: HistoryRecord,
}

// The device. The stage counts from 1: card, geometry, scaling, binding, evaluation; so memory of zeros is no device.
#[repr(C)]
#[derive(Clone, Copy)]
pub struct DeviceRecord {
    pub card: CardRecord,
    pub geometry: Geometry,
    pub scaled: Scaled,
    pub terminals: TerminalsRecord,
    pub point: OperatingPoint,
    pub charges: Charges,
    pub histories: HistoriesRecord,
    pub method: MethodRecord,
    pub stage: u64,
}

// The device after a call and the number of the refusal, 0 where the call is accepted. A refused call's device is the one handed in.
#[repr(C)]
#[derive(Clone, Copy)]
pub struct DeviceOutcome {
    pub refusal: u64,
    pub device: DeviceRecord,
}

// A refusal's number as the record's tags are: as wide as every other field.
pub fn wide(n: u8) -> u64
    ensures { result ≡ n }
{
    n as u64
}

// A call's number: that of its refusal, 0 where it is accepted.
#[inline(always)]
pub fn number(answer: Result<(), Refusal>) -> u64
    ensures { result ≡ number (outcome answer) }
{
    match answer {
        Ok(()) => 0,
        Err(refusal) => wide(u8::from(refusal)),
    }
}

// ---- from the device to the record; a field that a tag leaves unused is 0

impl From<NodeId> for NodeRecord {
    ghost from_gives = { λ node result. result ≡ node_record node };

    #[tactic(auto, unfolding(crate::specs::Records::node_record))]
    fn from(node: NodeId) -> NodeRecord {
        match node {
            NodeId::Ground => NodeRecord { tag: 0, index: 0 },
            NodeId::At(index) => NodeRecord { tag: 1, index },
        }
    }
}

impl From<Option<f64>> for GivenRecord {
    ghost from_gives = { λ given result. result ≡ given_record given };

    #[tactic(auto, unfolding(crate::specs::Records::given_record))]
    fn from(given: Option<f64>) -> GivenRecord {
        match given {
            None => GivenRecord { tag: 0, value: 0.0 },
            Some(value) => GivenRecord { tag: 1, value },
        }
    }
}

impl From<Discretisation> for MethodRecord {
    ghost from_gives = { λ method result. result ≡ method_record method };

    #[tactic(auto, unfolding(crate::specs::Records::method_record))]
    fn from(method: Discretisation) -> MethodRecord {
        match method {
            Discretisation::None => MethodRecord {
                tag: 0,
                h: 0.0,
                h_prev: 0.0,
            },
            Discretisation::Euler(h) => MethodRecord {
                tag: 1,
                h,
                h_prev: 0.0,
            },
            Discretisation::Trapezoid(h) => MethodRecord {
                tag: 2,
                h,
                h_prev: 0.0,
            },
            Discretisation::Gear(h, h_prev) => MethodRecord { tag: 3, h, h_prev },
        }
    }
}

impl From<Card> for CardRecord {
    ghost from_gives = { λ card result. result ≡ card_record card };

    #[tactic(auto, unfolding(crate::specs::Records::card_record))]
    fn from(card: Card) -> CardRecord {
        CardRecord {
            vto: card.vto,
            kp: card.kp,
            lambda: card.lambda,
            gamma: card.gamma,
            phi: card.phi,
            rd_card: GivenRecord::from(card.rd_card),
            rs_card: GivenRecord::from(card.rs_card),
            rsh: card.rsh,
            is_bulk: card.is_bulk,
            js: card.js,
            kf: card.kf,
            af: card.af,
            tnom: card.tnom.0,
            polarity: card.polarity,
            cgso: card.cgso,
            cgdo: card.cgdo,
            cgbo: card.cgbo,
            cox: card.cox,
            cj: card.cj,
            cjsw: card.cjsw,
            pb: card.pb,
            mj: card.mj,
            mjsw: card.mjsw,
            fc: card.fc,
        }
    }
}

impl From<Terminals> for TerminalsRecord {
    ghost from_gives = { λ t result. result ≡ terminals_record t };

    #[tactic(auto, unfolding(crate::specs::Records::terminals_record))]
    fn from(t: Terminals) -> TerminalsRecord {
        TerminalsRecord {
            drain_ext: NodeRecord::from(t.drain_ext),
            source_ext: NodeRecord::from(t.source_ext),
            drain: NodeRecord::from(t.drain),
            gate: NodeRecord::from(t.gate),
            source: NodeRecord::from(t.source),
            bulk: NodeRecord::from(t.bulk),
        }
    }
}

impl From<ChargeHistory> for HistoryRecord {
    ghost from_gives = { λ h result. result ≡ history_record h };

    #[tactic(auto, unfolding(crate::specs::Records::history_record))]
    fn from(h: ChargeHistory) -> HistoryRecord {
        HistoryRecord {
            q_prev: h.q_prev,
            q_prev2: GivenRecord::from(h.q_prev2),
            i_prev: h.i_prev,
        }
    }
}

impl From<Histories> for HistoriesRecord {
    ghost from_gives = { λ h result. result ≡ histories_record h };

    #[tactic(auto, unfolding(crate::specs::Records::histories_record))]
    fn from(h: Histories) -> HistoriesRecord {
        HistoriesRecord {
            gs_hist: HistoryRecord::from(h.gs_hist),
            gd_hist: HistoryRecord::from(h.gd_hist),
            gb_hist: HistoryRecord::from(h.gb_hist),
            bs_hist: HistoryRecord::from(h.bs_hist),
            bd_hist: HistoryRecord::from(h.bd_hist),
        }
    }
}

impl From<Mosfet1> for DeviceRecord {
    ghost from_gives = { λ d result. result ≡ device_record d };

    #[tactic(auto, unfolding(crate::specs::Records::device_record))]
    #[inline(always)]
    fn from(d: Mosfet1) -> DeviceRecord {
        DeviceRecord {
            card: CardRecord::from(d.card),
            geometry: geometry_copy(d.geometry),
            scaled: scaled_copy(d.scaled),
            terminals: TerminalsRecord::from(d.terminals),
            point: point_copy(d.point),
            charges: charges_copy(d.charges),
            histories: HistoriesRecord::from(d.histories),
            method: MethodRecord::from(d.disc),
            stage: stage_tag(d.stage),
        }
    }
}

// The stage is no struct of its own in the record, and neither `u64` nor `Stage` is this crate's: so a function each way, and no `From`.
pub fn stage_tag(stage: Stage) -> u64
    ensures { result ≡ stage_tag stage }
{
    match stage {
        Stage::Card => 1,
        Stage::Geometry => 2,
        Stage::Scaled => 3,
        Stage::Bound => 4,
        Stage::Evaluated => 5,
    }
}

// ---- from the record to the device; a tag that is not known is taken for the last

impl From<NodeRecord> for NodeId {
    ghost from_gives = { λ r result. result ≡ node_from r };

    #[tactic(auto, unfolding(crate::specs::Devices::node_from))]
    fn from(r: NodeRecord) -> NodeId {
        match r.tag {
            0 => NodeId::Ground,
            _ => NodeId::At(r.index),
        }
    }
}

impl From<GivenRecord> for Option<f64> {
    ghost from_gives = { λ r result. result ≡ given_from r };

    #[tactic(auto, unfolding(crate::specs::Devices::given_from))]
    fn from(r: GivenRecord) -> Option<f64> {
        match r.tag {
            0 => None,
            _ => Some(r.value),
        }
    }
}

impl From<MethodRecord> for Discretisation {
    ghost from_gives = { λ r result. result ≡ method_from r };

    #[tactic(auto, unfolding(crate::specs::Devices::method_from))]
    fn from(r: MethodRecord) -> Discretisation {
        match r.tag {
            0 => Discretisation::None,
            1 => Discretisation::Euler(r.h),
            2 => Discretisation::Trapezoid(r.h),
            _ => Discretisation::Gear(r.h, r.h_prev),
        }
    }
}

#[tactic(auto, unfolding(crate::specs::Devices::stage_from))]
fn stage_from(tag: u64) -> Stage
    ensures { result ≡ stage_from tag }
{
    match tag {
        1 => Stage::Card,
        2 => Stage::Geometry,
        3 => Stage::Scaled,
        4 => Stage::Bound,
        _ => Stage::Evaluated,
    }
}

impl From<CardRecord> for Card {
    ghost from_gives = { λ r result. result ≡ card_from r };

    #[tactic(auto, unfolding(crate::specs::Devices::card_from))]
    fn from(r: CardRecord) -> Card {
        Card {
            vto: r.vto,
            kp: r.kp,
            lambda: r.lambda,
            gamma: r.gamma,
            phi: r.phi,
            rd_card: r.rd_card.into(),
            rs_card: r.rs_card.into(),
            rsh: r.rsh,
            is_bulk: r.is_bulk,
            js: r.js,
            kf: r.kf,
            af: r.af,
            tnom: Kelvin(r.tnom),
            polarity: r.polarity,
            cgso: r.cgso,
            cgdo: r.cgdo,
            cgbo: r.cgbo,
            cox: r.cox,
            cj: r.cj,
            cjsw: r.cjsw,
            pb: r.pb,
            mj: r.mj,
            mjsw: r.mjsw,
            fc: r.fc,
        }
    }
}

impl From<TerminalsRecord> for Terminals {
    ghost from_gives = { λ r result. result ≡ terminals_from r };

    #[tactic(auto, unfolding(crate::specs::Devices::terminals_from))]
    fn from(r: TerminalsRecord) -> Terminals {
        Terminals {
            drain_ext: NodeId::from(r.drain_ext),
            source_ext: NodeId::from(r.source_ext),
            drain: NodeId::from(r.drain),
            gate: NodeId::from(r.gate),
            source: NodeId::from(r.source),
            bulk: NodeId::from(r.bulk),
        }
    }
}

impl From<HistoryRecord> for ChargeHistory {
    ghost from_gives = { λ r result. result ≡ history_from r };

    #[tactic(auto, unfolding(crate::specs::Devices::history_from))]
    fn from(r: HistoryRecord) -> ChargeHistory {
        ChargeHistory {
            q_prev: r.q_prev,
            q_prev2: r.q_prev2.into(),
            i_prev: r.i_prev,
        }
    }
}

impl From<HistoriesRecord> for Histories {
    ghost from_gives = { λ r result. result ≡ histories_from r };

    #[tactic(auto, unfolding(crate::specs::Devices::histories_from))]
    fn from(r: HistoriesRecord) -> Histories {
        Histories {
            gs_hist: ChargeHistory::from(r.gs_hist),
            gd_hist: ChargeHistory::from(r.gd_hist),
            gb_hist: ChargeHistory::from(r.gb_hist),
            bs_hist: ChargeHistory::from(r.bs_hist),
            bd_hist: ChargeHistory::from(r.bd_hist),
        }
    }
}

impl From<DeviceRecord> for Mosfet1 {
    ghost from_gives = { λ r result. result ≡ device_from r };

    // copied into its callers, since as a call it would keep the record and a second device on the stack, 2 KB of it
    #[tactic(auto, unfolding(crate::specs::Devices::device_from))]
    #[inline(always)]
    fn from(r: DeviceRecord) -> Mosfet1 {
        Mosfet1 {
            card: Card::from(r.card),
            geometry: geometry_copy(r.geometry),
            scaled: scaled_copy(r.scaled),
            terminals: Terminals::from(r.terminals),
            point: point_copy(r.point),
            charges: charges_copy(r.charges),
            histories: Histories::from(r.histories),
            disc: Discretisation::from(r.method),
            stage: stage_from(r.stage),
        }
    }
}

// ---- the parts that are the device's own structs, copied field by field: with a copy of a whole part the compiler keeps the whole
// record in memory, an evaluation takes half as many instructions again, and a call before the loop 30 to 60 ns more

#[inline(always)]
fn geometry_copy(g: Geometry) -> Geometry
    ensures { result ≡ g }
{
    Geometry {
        rd: g.rd,
        rs: g.rs,
        nrd: g.nrd,
        nrs: g.nrs,
        isat_bs: g.isat_bs,
        isat_bd: g.isat_bd,
        w: g.w,
        l: g.l,
        w_over_l: g.w_over_l,
        as_: g.as_,
        ad: g.ad,
        ps: g.ps,
        pd: g.pd,
        cgs_ov: g.cgs_ov,
        cgd_ov: g.cgd_ov,
        cgb_ov: g.cgb_ov,
        cox_wl: g.cox_wl,
        cbs_bot: g.cbs_bot,
        cbs_sw: g.cbs_sw,
        cbd_bot: g.cbd_bot,
        cbd_sw: g.cbd_sw,
    }
}

#[inline(always)]
fn scaled_copy(s: Scaled) -> Scaled
    ensures { result ≡ s }
{
    Scaled {
        isat_t_factor: s.isat_t_factor,
        pb_t: s.pb_t,
        cj_t_factor: s.cj_t_factor,
        cjsw_t_factor: s.cjsw_t_factor,
        vto_t: s.vto_t,
        kp_t: s.kp_t,
        phi_t: s.phi_t,
    }
}

#[inline(always)]
fn point_copy(p: OperatingPoint) -> OperatingPoint
    ensures { result ≡ p }
{
    OperatingPoint {
        ids_eval: p.ids_eval,
        gbs: p.gbs,
        gbd: p.gbd,
        ibs_eq: p.ibs_eq,
        ibd_eq: p.ibd_eq,
        gm: p.gm,
        gds: p.gds,
        gmbs: p.gmbs,
        jeq: p.jeq,
        vgs_eff_prev: p.vgs_eff_prev,
        vds_eff_prev: p.vds_eff_prev,
    }
}

#[inline(always)]
fn charges_copy(q: Charges) -> Charges
    ensures { result ≡ q }
{
    Charges {
        cgs_eval: q.cgs_eval,
        cgd_eval: q.cgd_eval,
        cgb_eval: q.cgb_eval,
        q_gs_eval: q.q_gs_eval,
        q_gd_eval: q.q_gd_eval,
        q_gb_eval: q.q_gb_eval,
        vbs_eval: q.vbs_eval,
        vbd_eval: q.vbd_eval,
        cbs_eval: q.cbs_eval,
        cbd_eval: q.cbd_eval,
        q_bs_eval: q.q_bs_eval,
        q_bd_eval: q.q_bd_eval,
    }
}

// ---- the conversions under the names that the layers above call

pub fn node_record(node: NodeId) -> NodeRecord
    ensures { result ≡ node_record node }
{
    NodeRecord::from(node)
}

pub fn method_record(method: Discretisation) -> MethodRecord
    ensures { result ≡ method_record method }
{
    MethodRecord::from(method)
}

pub fn histories_record(h: Histories) -> HistoriesRecord
    ensures { result ≡ histories_record h }
{
    HistoriesRecord::from(h)
}

pub fn device_record(d: Mosfet1) -> DeviceRecord
    ensures { result ≡ device_record d }
{
    DeviceRecord::from(d)
}
