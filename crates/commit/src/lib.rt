// The device after an accepted commit (`commit_timestep` of mosfet1.rs). Its definitions are in `mosfet1`.
#![tactic(auto)]

ghost use Rattle.std.specs.Prelude.{◌≡◌};
ghost use Rattle.mosfet1.specs.Steps.{committed_histories_of, committed_point_of, committed_of};

use bias::Voltages;
use capacitance::Grading;
use device::{Charges, Discretisation, Geometry, Histories, Mosfet1, OperatingPoint};

// The gate's charges by the evaluated capacitances, the junctions' by the scaling in force.
#[tactic(auto, unfolding(mosfet1::specs::Steps::committed_histories_of))]
fn committed_histories(
    h: Histories,
    disc: Discretisation,
    c: Charges,
    geometry: Geometry,
    grading: Grading,
    v: Voltages,
) -> Histories
    ensures { result ≡ committed_histories_of h disc c geometry grading v }
{
    let Voltages { vd, vg, vs, vb } = v;
    let q_bs = capacitance::q_depl(grading, geometry.cbs_bot, geometry.cbs_sw, vb - vs);
    let q_bd = capacitance::q_depl(grading, geometry.cbd_bot, geometry.cbd_sw, vb - vd);
    Histories {
        gs_hist: reactive::advance(disc, c.cgs_eval * (vg - vs), h.gs_hist),
        gd_hist: reactive::advance(disc, c.cgd_eval * (vg - vd), h.gd_hist),
        gb_hist: reactive::advance(disc, c.cgb_eval * (vg - vb), h.gb_hist),
        bs_hist: reactive::advance(disc, q_bs, h.bs_hist),
        bd_hist: reactive::advance(disc, q_bd, h.bd_hist),
    }
}

// The limiter's predecessors are the committed voltages, flipped and not limited.
#[tactic(auto, unfolding(mosfet1::specs::Steps::committed_point_of))]
fn committed_point(p: OperatingPoint, pol: f64, v: Voltages) -> OperatingPoint
    ensures { result ≡ committed_point_of p pol v }
{
    OperatingPoint {
        vgs_eff_prev: pol * (v.vg - v.vs),
        vds_eff_prev: pol * (v.vd - v.vs),
        ..p
    }
}

#[tactic(auto, unfolding(mosfet1::specs::Steps::committed_of))]
pub fn committed(d: Mosfet1, v: Voltages) -> Mosfet1
    ensures { result ≡ committed_of d v }
{
    let grading = charges::grading(d.card, d.scaled);
    Mosfet1 {
        point: committed_point(d.point, d.card.polarity, v),
        histories: committed_histories(d.histories, d.disc, d.charges, d.geometry, grading, v),
        ..d
    }
}
