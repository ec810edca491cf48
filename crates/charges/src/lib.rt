// The capacitances and charges of a transient evaluation.
#![tactic(auto)]

ghost use Rattle.std.specs.Prelude.{◌≡◌};
ghost use Rattle.charges.specs.Charges.{grading_of, gate_shares_of, charges_of};

use bias::Voltages;
use capacitance::{GateShares, Grading, cj_and_q_depl};
use device::{Card, Charges, Geometry, Scaled};

pub fn grading(card: Card, scaled: Scaled) -> Grading
    ensures { result ≡ grading_of card scaled }
{
    Grading {
        fc: card.fc,
        pb_t: scaled.pb_t,
        mj: card.mj,
        mjsw: card.mjsw,
        cj_t_factor: scaled.cj_t_factor,
        cjsw_t_factor: scaled.cjsw_t_factor,
    }
}

pub fn gate_shares(vgs: f64, vds: f64, vth: f64, cox_wl: f64) -> GateShares
    ensures { result ≡ gate_shares_of vgs vds vth cox_wl }
{
    let vdsat = float::max(vgs - vth, 0.0);
    let at = channel::region_at(vgs, vth, vds, vdsat);
    capacitance::meyer(at, cox_wl)
}

// Node voltages, not flipped: the junctions' are from the bulk.
pub fn charges_at(geometry: Geometry, shares: GateShares, grading: Grading, v: Voltages) -> Charges
    ensures { result ≡ charges_of geometry shares grading v }
{
    let Voltages { vd, vg, vs, vb } = v;
    let cgs = geometry.cgs_ov + shares.gs;
    let cgd = geometry.cgd_ov + shares.gd;
    let cgb = geometry.cgb_ov + shares.gb;
    let vbs = vb - vs;
    let vbd = vb - vd;
    let Grading {
        fc,
        pb_t,
        mj,
        mjsw,
        ..
    } = grading;
    let bs_bottom = geometry.cbs_bot * grading.cj_t_factor;
    let bs_sidewall = geometry.cbs_sw * grading.cjsw_t_factor;
    let bd_bottom = geometry.cbd_bot * grading.cj_t_factor;
    let bd_sidewall = geometry.cbd_sw * grading.cjsw_t_factor;
    let bs = cj_and_q_depl(fc, pb_t, mj, mjsw, bs_bottom, bs_sidewall, vbs);
    let bd = cj_and_q_depl(fc, pb_t, mj, mjsw, bd_bottom, bd_sidewall, vbd);
    Charges {
        cgs_eval: cgs,
        cgd_eval: cgd,
        cgb_eval: cgb,
        q_gs_eval: cgs * (vg - vs),
        q_gd_eval: cgd * (vg - vd),
        q_gb_eval: cgb * (vg - vb),
        vbs_eval: vbs,
        vbd_eval: vbd,
        cbs_eval: bs.c,
        cbd_eval: bd.c,
        q_bs_eval: bs.q,
        q_bd_eval: bd.q,
    }
}
