// The device after an accepted evaluation.
ghost use Rattle.std.specs.Prelude.{◌≡◌};
ghost use Rattle.mosfet1.specs.Steps.{evaluated_answer_of, point_at, evaluated_charges_of, evaluated_of};

use bias::{Answer, Voltages};
use device::{Charges, Discretisation, Mosfet1, OperatingPoint, Stage};
use temperature::Kelvin;

// What an evaluation is handed besides the voltages. The temperature is read for the thermal voltage only.
#[derive(Clone, Copy)]
pub struct Conditions {
    pub temperature: Kelvin,
    pub gmin: f64,
    pub limiter: bool,
    pub method: Discretisation,
}

// The device after an evaluation, and what it answers.
#[derive(Clone, Copy)]
pub struct Evaluated {
    pub device: Mosfet1,
    pub answer: Answer,
}

// What an evaluation answers, and the operating point that it leaves.
#[derive(Clone, Copy)]
pub struct AnswerAndPoint {
    pub answer: Answer,
    pub point: OperatingPoint,
}

#[tactic(auto, unfolding(crate::specs::Steps::evaluated_answer_of))]
fn evaluated_answer(d: Mosfet1, v: Voltages, gmin: f64, limiter: bool) -> Answer
    ensures { result ≡ evaluated_answer_of d v gmin limiter }
{
    let pol = d.card.polarity;
    let kept = bias::keep(
        pol,
        pol * d.scaled.vto_t,
        v,
        limiter,
        d.point.vgs_eff_prev,
        d.point.vds_eff_prev,
    );
    bias::channel_answer(d.card, d.geometry, d.scaled, v, kept, gmin)
}

// The exponentials of both junctions come first: they rest on the nodes' voltages alone, and the processor goes on with them while
// the channel waits for its roots. The thermal voltage, a division on which they wait, is handed in.
pub fn answer_and_point(
    d: Mosfet1,
    v: Voltages,
    vt: f64,
    gmin: f64,
    limiter: bool,
) -> AnswerAndPoint
    ensures { (result.answer ≡ evaluated_answer_of d v gmin limiter)
        × (result.point ≡ point_at d v vt gmin (evaluated_answer_of d v gmin limiter)) }
{
    let factor = d.scaled.isat_t_factor;
    let isat_bs = d.geometry.isat_bs * factor;
    let isat_bd = d.geometry.isat_bd * factor;
    let pol = d.card.polarity;
    let vbs = v.vb - v.vs;
    let vbd = v.vb - v.vd;
    let e_bs = junction::junction_exponential(isat_bs, pol * vbs, vt);
    let e_bd = junction::junction_exponential(isat_bd, pol * vbd, vt);
    let answer = evaluated_answer(d, v, gmin, limiter);
    let bs = bias::junction_stamp_at(isat_bs, e_bs, pol, vbs, vt, gmin);
    let bd = bias::junction_stamp_at(isat_bd, e_bd, pol, vbd, vt, gmin);
    let point = bias::operating_point(pol, answer, vbs, bs, bd);
    AnswerAndPoint { answer, point }
}

// Without the transient flag the last transient evaluation's values stay.
pub fn evaluated_charges(d: Mosfet1, v: Voltages, transient: bool, a: Answer) -> Charges
    ensures { result ≡ evaluated_charges_of d v transient a }
{
    if transient {
        let shares = charges::gate_shares(a.vgs, a.vds, a.vth, d.geometry.cox_wl);
        let grading = charges::grading(d.card, d.scaled);
        return charges::charges_at(d.geometry, shares, grading, v);
    }
    d.charges
}

#[tactic(auto, unfolding(crate::specs::Steps::evaluated_of, crate::specs::Steps::evaluated_from_of, crate::specs::Steps::evaluated_point_of))]
pub fn evaluate(d: Mosfet1, v: Voltages, transient: bool, k: Conditions) -> Evaluated
    ensures { result ≡ evaluated_of d v transient k }
{
    let vt = junction::vt(k.temperature);
    let AnswerAndPoint { answer, point } = answer_and_point(d, v, vt, k.gmin, k.limiter);
    let device = Mosfet1 {
        point,
        charges: evaluated_charges(d, v, transient, answer),
        disc: k.method,
        stage: Stage::Evaluated,
        ..d
    };
    Evaluated { device, answer }
}
