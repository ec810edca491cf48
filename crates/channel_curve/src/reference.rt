// The device of the fourteen cases: vto_t 1, kp_t 2, W/L 1, lambda and gamma 0, phi_t 0.6, bound and ready to be evaluated.
// Plain literals: each stands beside the record of specs/ that it is, field by field, and no default is left to be looked up.
ghost use Rattle.std.specs.Prelude.{◌≡◌};
ghost use Rattle.channel_curve.specs.Reference.{the_card, the_geometry, the_scaled, the_terminals, the_point, the_charges, no_history_lem, the_device, the_conditions};

use device::{
    Card, ChargeHistory, Charges, Discretisation, Geometry, Histories, Mosfet1, NodeId,
    OperatingPoint, Scaled, Stage, Terminals,
};
use mosfet1::steps::Conditions;
use temperature::Kelvin;

fn card() -> Card
    ensures { result ≡ the_card }
{
    Card {
        vto: 1.0,
        kp: 2.0,
        lambda: 0.0,
        gamma: 0.0,
        phi: 0.6,
        rd_card: None,
        rs_card: None,
        rsh: 0.0,
        is_bulk: 0.0,
        js: 0.0,
        kf: 0.0,
        af: 1.0,
        tnom: Kelvin(300.15),
        polarity: 1.0,
        cgso: 0.0,
        cgdo: 0.0,
        cgbo: 0.0,
        cox: 0.0,
        cj: 0.0,
        cjsw: 0.0,
        pb: 0.8,
        mj: 0.5,
        mjsw: 0.33,
        fc: 0.5,
    }
}

fn geometry() -> Geometry
    ensures { result ≡ the_geometry }
{
    Geometry {
        rd: 0.0,
        rs: 0.0,
        nrd: 1.0,
        nrs: 1.0,
        isat_bs: 0.0,
        isat_bd: 0.0,
        w: 1e-4,
        l: 1e-4,
        w_over_l: 1.0,
        as_: 0.0,
        ad: 0.0,
        ps: 0.0,
        pd: 0.0,
        cgs_ov: 0.0,
        cgd_ov: 0.0,
        cgb_ov: 0.0,
        cox_wl: 0.0,
        cbs_bot: 0.0,
        cbs_sw: 0.0,
        cbd_bot: 0.0,
        cbd_sw: 0.0,
    }
}

fn scaled() -> Scaled
    ensures { result ≡ the_scaled }
{
    Scaled {
        isat_t_factor: 1.0,
        pb_t: 0.8,
        cj_t_factor: 1.0,
        cjsw_t_factor: 1.0,
        vto_t: 1.0,
        kp_t: 2.0,
        phi_t: 0.6,
    }
}

fn terminals() -> Terminals
    ensures { result ≡ the_terminals }
{
    Terminals {
        drain_ext: NodeId::At(0),
        source_ext: NodeId::Ground,
        drain: NodeId::At(0),
        gate: NodeId::At(1),
        source: NodeId::Ground,
        bulk: NodeId::Ground,
    }
}

fn point() -> OperatingPoint
    ensures { result ≡ the_point }
{
    OperatingPoint {
        ids_eval: 0.0,
        gbs: 0.0,
        gbd: 0.0,
        ibs_eq: 0.0,
        ibd_eq: 0.0,
        gm: 0.0,
        gds: 0.0,
        gmbs: 0.0,
        jeq: 0.0,
        vgs_eff_prev: 0.0,
        vds_eff_prev: 0.0,
    }
}

fn charges() -> Charges
    ensures { result ≡ the_charges }
{
    Charges {
        cgs_eval: 0.0,
        cgd_eval: 0.0,
        cgb_eval: 0.0,
        q_gs_eval: 0.0,
        q_gd_eval: 0.0,
        q_gb_eval: 0.0,
        vbs_eval: 0.0,
        vbd_eval: 0.0,
        cbs_eval: 0.0,
        cbd_eval: 0.0,
        q_bs_eval: 0.0,
        q_bd_eval: 0.0,
    }
}

fn history() -> ChargeHistory
    ensures { result ≡ no_history_lem }
{
    ChargeHistory {
        q_prev: 0.0,
        q_prev2: None,
        i_prev: 0.0,
    }
}

pub fn device() -> Mosfet1
    ensures { result ≡ the_device }
{
    Mosfet1 {
        card: card(),
        geometry: geometry(),
        scaled: scaled(),
        terminals: terminals(),
        point: point(),
        charges: charges(),
        histories: Histories {
            gs_hist: history(),
            gd_hist: history(),
            gb_hist: history(),
            bs_hist: history(),
            bd_hist: history(),
        },
        disc: Discretisation::None,
        stage: Stage::Bound,
    }
}

pub fn conditions() -> Conditions
    ensures { result ≡ the_conditions }
{
    Conditions {
        temperature: Kelvin(300.15),
        gmin: 0.0,
        limiter: false,
        method: Discretisation::None,
    }
}
