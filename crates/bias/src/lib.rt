// From node voltages to the operating point.
#![tactic(auto)]

ghost use Rattle.std.specs.Prelude.{◌≡◌};
ghost use Rattle.bias.specs.Bias.{kept_of, channel_answer_of, junction_stamp_at_of, operating_point_of};

use device::{Card, Geometry, OperatingPoint, Scaled};

// The four inner nodes' voltages.
#[derive(Clone, Copy)]
pub struct Voltages {
    pub vd: f64,
    pub vg: f64,
    pub vs: f64,
    pub vb: f64,
}

// The channel's voltages that an evaluation keeps, flipped by polarity and limited.
#[derive(Clone, Copy)]
pub struct Kept {
    pub vgs: f64,
    pub vds: f64,
}

// What an evaluation answers: the kept voltages and the threshold flipped, the current not; gds has gmin on top. Callers in C are
// given it as it is.
#[repr(C)]
#[derive(Clone, Copy)]
pub struct Answer {
    pub vgs: f64,
    pub vds: f64,
    pub vth: f64,
    pub ids: f64,
    pub gm: f64,
    pub gds: f64,
    pub gmbs: f64,
}

// A junction's conductance and Norton offset, the offset not flipped.
#[derive(Clone, Copy)]
pub struct JunctionStamp {
    pub g: f64,
    pub eq: f64,
}

// Flip, then limit.
#[tactic(auto, unfolding(crate::specs::Bias::kept_of))]
pub fn keep(pol: f64, vto: f64, v: Voltages, limiter: bool, vgs_prev: f64, vds_prev: f64) -> Kept
    ensures { result ≡ kept_of pol vto v limiter vgs_prev vds_prev }
{
    let vgs = pol * (v.vg - v.vs);
    let vds = pol * (v.vd - v.vs);
    if limiter {
        Kept {
            vgs: threshold::limit_vgs(vto, vgs, vgs_prev),
            vds: threshold::limit_vds(vds, vds_prev),
        }
    } else {
        Kept { vgs, vds }
    }
}

pub fn channel_answer(
    card: Card,
    geometry: Geometry,
    scaled: Scaled,
    v: Voltages,
    kept: Kept,
    gmin: f64,
) -> Answer
    ensures { result ≡ channel_answer_of card geometry scaled v kept gmin }
{
    let Card {
        polarity: pol,
        gamma,
        lambda,
        ..
    } = card;
    let Scaled { phi_t, .. } = scaled;
    let Kept { vgs, vds } = kept;
    let phi_m_vbs = threshold::body_potential(phi_t, pol * (v.vb - v.vs));
    let vth = threshold::threshold(pol * scaled.vto_t, gamma, phi_t, phi_m_vbs);
    let slope = threshold::body_slope(gamma, phi_m_vbs);
    let beta = scaled.kp_t * geometry.w_over_l;
    let at = channel::shichman_hodges(beta, vgs, vds, vth, lambda, slope);
    Answer {
        vgs,
        vds,
        vth,
        ids: pol * at.ids,
        gm: at.gm,
        gds: at.gds + gmin,
        gmbs: at.gmbs,
    }
}

// v is the voltage from the bulk, not flipped; e is the junction's exponential, at the flipped voltage.
pub fn junction_stamp_at(isat: f64, e: f64, pol: f64, v: f64, vt: f64, gmin: f64) -> JunctionStamp
    ensures { result ≡ junction_stamp_at_of isat e pol v vt gmin }
{
    let flipped = pol * v;
    let at = junction::junction_at(isat, e, flipped, vt, gmin);
    JunctionStamp {
        g: at.g,
        eq: junction::junction_offset(pol, at.i, at.g, flipped),
    }
}

pub fn operating_point(
    pol: f64,
    a: Answer,
    vbs: f64,
    bs: JunctionStamp,
    bd: JunctionStamp,
) -> OperatingPoint
    ensures { result ≡ operating_point_of pol a vbs bs bd }
{
    let Answer {
        vgs,
        vds,
        ids,
        gm,
        gds,
        gmbs,
        ..
    } = a;
    let jeq = channel::norton_current(ids, gm, pol * vgs, gds, pol * vds, gmbs, vbs);
    OperatingPoint {
        ids_eval: ids,
        gbs: bs.g,
        gbd: bd.g,
        ibs_eq: bs.eq,
        ibd_eq: bd.eq,
        gm,
        gds,
        gmbs,
        jeq,
        vgs_eff_prev: vgs,
        vds_eff_prev: vds,
    }
}
