// The gate's Meyer shares and the junctions' depletion laws (mosfet1.rs).
#![tactic(auto)]

ghost use Rattle.std.specs.Prelude.{◌≡◌};
ghost use Rattle.capacitance.specs.Meyer.{meyer_of};
ghost use Rattle.capacitance.specs.Depletion.{q_below_from, cj_above_from, q_above_from, cj_depl_mOf, q_depl_mOf, cj_graded_of, q_graded_of, q_depl_of};

use channel::Region;
use elementary::{fractional_powers, pow, powers};

// The channel's capacitance as shared among gate-source, gate-drain and gate-bulk.
#[derive(Clone, Copy)]
pub struct GateShares {
    pub gs: f64,
    pub gd: f64,
    pub gb: f64,
}

// What grades a junction at the scaling's temperature: the bottom by mj, the sidewall by mjsw.
#[derive(Clone, Copy)]
pub struct Grading {
    pub fc: f64,
    pub pb_t: f64,
    pub mj: f64,
    pub mjsw: f64,
    pub cj_t_factor: f64,
    pub cjsw_t_factor: f64,
}

pub fn meyer(at: Region, cox_wl: f64) -> GateShares
    ensures { result ≡ meyer_of at cox_wl }
{
    match at {
        Region::Cutoff => GateShares {
            gs: 0.0,
            gd: 0.0,
            gb: cox_wl,
        },
        Region::Triode => GateShares {
            gs: 0.5 * cox_wl,
            gd: 0.5 * cox_wl,
            gb: 0.0,
        },
        Region::Saturation => GateShares {
            gs: 2.0 / 3.0 * cox_wl,
            gd: 0.0,
            gb: 0.0,
        },
    }
}

// A junction's capacitance and charge.
#[derive(Clone, Copy)]
pub struct Depletion {
    pub c: f64,
    pub q: f64,
}

// The bottom's or the sidewall's charge up to fc pb, by the power p = x^(1 - m) of x = 1 - v / pb.
fn charge(pb_t: f64, c0: f64, m: f64, p: f64) -> f64
    ensures { result ≡ q_below_from pb_t c0 m p }
{
    c0 * pb_t / (1.0 - m) * (1.0 - p)
}

// Capacitance and charge from fc pb on, by the powers p = (1 - fc)^(1 - m) and k = (1 - fc)^(1 + m).
fn depl_above(fc: f64, pb_t: f64, c0: f64, v: f64, m: f64, p: f64, k: f64) -> Depletion
    ensures { (result.c ≡ cj_above_from fc pb_t c0 v m k) × (result.q ≡ q_above_from fc pb_t c0 v m (q_below_from pb_t c0 m p) k) }
{
    let fc_pb = fc * pb_t;
    let at_fc_pb = c0 / k;
    let f2 = 1.0 - fc * (1.0 + m);
    let dv = v - fc_pb;
    let q = charge(pb_t, c0, m, p);
    Depletion {
        c: at_fc_pb * (f2 + m * v / pb_t),
        q: q + at_fc_pb * (f2 * dv + m / (2.0 * pb_t) * (v * v - fc_pb * fc_pb)),
    }
}

// The bottom's or the sidewall's alone.
fn part(fc: f64, pb_t: f64, c0: f64, v: f64, m: f64) -> Depletion
    ensures { (result.c ≡ cj_depl_mOf fc pb_t c0 v m) × (result.q ≡ q_depl_mOf fc pb_t c0 v m) }
{
    if c0 == 0.0 {
        return Depletion { c: 0.0, q: 0.0 };
    }
    if v < fc * pb_t {
        let [k, p] = powers(1.0 - v / pb_t, [-m, 1.0 - m]);
        let q = charge(pb_t, c0, m, p);
        return Depletion { c: c0 * k, q };
    }
    let [p, k] = powers(1.0 - fc, [1.0 - m, 1.0 + m]);
    depl_above(fc, pb_t, c0, v, m, p, k)
}

// A junction's, by the powers of one base; where a part has no capacitance only those of the other are taken.
// Seven numbers, since a struct would be written to memory and read back by each call.
fn by_parts(fc: f64, pb_t: f64, mj: f64, mjsw: f64, bottom: f64, sidewall: f64, v: f64) -> Depletion
    ensures { (result.c ≡ cj_graded_of fc pb_t mj mjsw bottom sidewall v) × (result.q ≡ q_graded_of fc pb_t mj mjsw bottom sidewall v) }
{
    if bottom == 0.0 {
        let s = part(fc, pb_t, sidewall, v, mjsw);
        return Depletion {
            c: 0.0 + s.c,
            q: 0.0 + s.q,
        };
    }
    if sidewall == 0.0 {
        let b = part(fc, pb_t, bottom, v, mj);
        return Depletion {
            c: b.c + 0.0,
            q: b.q + 0.0,
        };
    }
    if v < fc * pb_t {
        let [k_bot, p_bot, k_sw, p_sw] = fractional_powers(1.0 - v / pb_t, mj, mjsw);
        let q_bot = charge(pb_t, bottom, mj, p_bot);
        let q_sw = charge(pb_t, sidewall, mjsw, p_sw);
        return Depletion {
            c: bottom * k_bot + sidewall * k_sw,
            q: q_bot + q_sw,
        };
    }
    let [p_bot, k_bot, p_sw, k_sw] = powers(1.0 - fc, [1.0 - mj, 1.0 + mj, 1.0 - mjsw, 1.0 + mjsw]);
    let b = depl_above(fc, pb_t, bottom, v, mj, p_bot, k_bot);
    let s = depl_above(fc, pb_t, sidewall, v, mjsw, p_sw, k_sw);
    Depletion {
        c: b.c + s.c,
        q: b.q + s.q,
    }
}

// The same. A junction without capacitance is told here: this test is copied into the caller, which then makes no call.
pub fn cj_and_q_depl(
    fc: f64,
    pb_t: f64,
    mj: f64,
    mjsw: f64,
    bottom: f64,
    sidewall: f64,
    v: f64,
) -> Depletion
    ensures { (result.c ≡ cj_graded_of fc pb_t mj mjsw bottom sidewall v) × (result.q ≡ q_graded_of fc pb_t mj mjsw bottom sidewall v) }
{
    if bottom == 0.0 && sidewall == 0.0 {
        return Depletion { c: 0.0, q: 0.0 };
    }
    by_parts(fc, pb_t, mj, mjsw, bottom, sidewall, v)
}

// The bottom's or the sidewall's charge alone: below fc pb it takes one power.
fn q_part(fc: f64, pb_t: f64, c0: f64, v: f64, m: f64) -> f64
    ensures { result ≡ q_depl_mOf fc pb_t c0 v m }
{
    if c0 == 0.0 {
        return 0.0;
    }
    if v < fc * pb_t {
        return charge(pb_t, c0, m, pow(1.0 - v / pb_t, 1.0 - m));
    }
    let d = part(fc, pb_t, c0, v, m);
    d.q
}

// A junction's charge, as a commit asks for it.
pub fn q_depl(g: Grading, bot: f64, sw: f64, v: f64) -> f64
    ensures { result ≡ q_depl_of g bot sw v }
{
    let Grading {
        fc,
        pb_t,
        mj,
        mjsw,
        ..
    } = g;
    let bottom = bot * g.cj_t_factor;
    let sidewall = sw * g.cjsw_t_factor;
    if bottom == 0.0 {
        if sidewall == 0.0 {
            return 0.0;
        }
        return 0.0 + q_part(fc, pb_t, sidewall, v, mjsw);
    }
    if sidewall == 0.0 {
        return q_part(fc, pb_t, bottom, v, mj) + 0.0;
    }
    if v < fc * pb_t {
        let [p_bot, p_sw] = powers(1.0 - v / pb_t, [1.0 - mj, 1.0 - mjsw]);
        return charge(pb_t, bottom, mj, p_bot) + charge(pb_t, sidewall, mjsw, p_sw);
    }
    let d = by_parts(fc, pb_t, mj, mjsw, bottom, sidewall, v);
    d.q
}
