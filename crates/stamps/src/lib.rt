// What a load adds: the 24 Jacobian values and their positions, the right-hand side's three values, the five charge branches
// (`jac_pairs`, `load_jacobian`, `load_residual`, `load_jacobian_tran`, `load_residual_tran` of mosfet1.rs).
#![tactic(auto)]

ghost use Rattle.std.specs.Prelude.{◌≡◌};
ghost use Rattle.stamps.specs.Stamps.{jac_pairs_of, series_of, jac_values_of, residual_of, branch_of, has_junction_of, junction_branch_of, charge_branches_of};

use device::{ChargeHistory, Discretisation, Mosfet1, NodeId, OperatingPoint, Terminals};

// A matrix position by the nodes of its row and column.
#[derive(Clone, Copy)]
pub struct Position {
    pub row: NodeId,
    pub col: NodeId,
}

// The right-hand side's values: the channel's and the two junctions' Norton currents.
#[derive(Clone, Copy)]
pub struct Residual {
    pub jeq: f64,
    pub ibs_eq: f64,
    pub ibd_eq: f64,
}

// A charge branch: its nodes, its conductance, loaded where the evaluated capacitance is not zero, and its history current.
#[derive(Clone, Copy)]
pub struct ChargeBranch {
    pub pos: NodeId,
    pub neg: NodeId,
    pub conducts: bool,
    pub conductance: f64,
    pub remembers: bool,
    pub history: f64,
}

#[derive(Clone, Copy)]
pub struct ChargeBranches {
    pub gs: ChargeBranch,
    pub gd: ChargeBranch,
    pub gb: ChargeBranch,
    pub bs: ChargeBranch,
    pub bd: ChargeBranch,
}

// In the order of the Rust's `jac_pairs`, which the lists of values and cells follow, so they stay written out.
pub fn jac_pairs(t: Terminals) -> [Position; 24]
    ensures { result ≡ jac_pairs_of t }
{
    let Terminals {
        drain_ext: d_ext,
        source_ext: s_ext,
        drain: d,
        gate: g,
        source: s,
        bulk: bk,
    } = t;
    [
        Position { row: d, col: g },
        Position { row: d, col: d },
        Position { row: d, col: s },
        Position { row: d, col: bk },
        Position { row: s, col: g },
        Position { row: s, col: d },
        Position { row: s, col: s },
        Position { row: s, col: bk },
        Position {
            row: d_ext,
            col: d_ext,
        },
        Position { row: d_ext, col: d },
        Position { row: d, col: d_ext },
        Position { row: d, col: d },
        Position {
            row: s_ext,
            col: s_ext,
        },
        Position { row: s_ext, col: s },
        Position { row: s, col: s_ext },
        Position { row: s, col: s },
        Position { row: bk, col: bk },
        Position { row: bk, col: s },
        Position { row: s, col: bk },
        Position { row: s, col: s },
        Position { row: bk, col: bk },
        Position { row: bk, col: d },
        Position { row: d, col: bk },
        Position { row: d, col: d },
    ]
}

// A series resistance's conductance, 0 where there is none.
#[tactic(auto, unfolding(crate::specs::Stamps::series_of))]
pub fn series(r: f64) -> f64
    ensures { result ≡ series_of r }
{
    if r > 0.0 { 1.0 / r } else { 0.0 }
}

pub fn jac_values(d: Mosfet1) -> [f64; 24]
    ensures { result ≡ jac_values_of d }
{
    let OperatingPoint {
        gm,
        gds,
        gmbs,
        gbs,
        gbd,
        ..
    } = d.point;
    let gms = gm + gds + gmbs;
    let g_d = series(d.geometry.rd);
    let g_s = series(d.geometry.rs);
    [
        gm, gds, -gms, gmbs, -gm, -gds, gms, -gmbs, g_d, -g_d, -g_d, g_d, g_s, -g_s, -g_s, g_s,
        gbs, -gbs, -gbs, gbs, gbd, -gbd, -gbd, gbd,
    ]
}

pub fn residual_values(d: Mosfet1) -> Residual
    ensures { result ≡ residual_of d }
{
    Residual {
        jeq: d.point.jeq,
        ibs_eq: d.point.ibs_eq,
        ibd_eq: d.point.ibd_eq,
    }
}

fn branch(
    pos: NodeId,
    neg: NodeId,
    c: f64,
    cv: f64,
    q: f64,
    remembers: bool,
    disc: Discretisation,
    alpha: f64,
    hist: ChargeHistory,
) -> ChargeBranch
    ensures { result ≡ branch_of pos neg c cv q remembers disc alpha hist }
{
    let factor = reactive::scale(disc, alpha);
    let history = reactive::companion(disc, alpha, q, cv, hist);
    ChargeBranch {
        pos,
        neg,
        conducts: c != 0.0,
        conductance: factor * c,
        remembers,
        history,
    }
}

// A junction with neither a bottom nor a sidewall capacitance has no history current.
#[tactic(auto, unfolding(crate::specs::Stamps::has_junction_of))]
fn has_junction(bot: f64, sw: f64) -> bool
    ensures { result ≡ has_junction_of bot sw }
{
    bot != 0.0 || sw != 0.0
}

// The bulk-source or bulk-drain branch: the Jacobian's term at its voltage v is c·v, not its charge.
fn junction_branch(
    pos: NodeId,
    neg: NodeId,
    c: f64,
    v: f64,
    q: f64,
    bot: f64,
    sw: f64,
    disc: Discretisation,
    alpha: f64,
    hist: ChargeHistory,
) -> ChargeBranch
    ensures { result ≡ junction_branch_of pos neg c v q bot sw disc alpha hist }
{
    let remembers = has_junction(bot, sw);
    branch(pos, neg, c, c * v, q, remembers, disc, alpha, hist)
}

// The gate-source branch: it is linear, so the Jacobian's term at its voltage is its charge.
#[tactic(auto, unfolding(crate::specs::Stamps::charge_branches_of))]
pub fn gs_branch(d: Mosfet1, alpha: f64) -> ChargeBranch
    ensures { result ≡ (charge_branches_of d alpha).gs }
{
    let (t, h) = (d.terminals, d.histories);
    let (c, q) = (d.charges.cgs_eval, d.charges.q_gs_eval);
    branch(t.gate, t.source, c, q, q, true, d.disc, alpha, h.gs_hist)
}

// The gate-drain branch: it is linear, so the Jacobian's term at its voltage is its charge.
#[tactic(auto, unfolding(crate::specs::Stamps::charge_branches_of))]
pub fn gd_branch(d: Mosfet1, alpha: f64) -> ChargeBranch
    ensures { result ≡ (charge_branches_of d alpha).gd }
{
    let (t, h) = (d.terminals, d.histories);
    let (c, q) = (d.charges.cgd_eval, d.charges.q_gd_eval);
    branch(t.gate, t.drain, c, q, q, true, d.disc, alpha, h.gd_hist)
}

// The gate-bulk branch: it is linear, so the Jacobian's term at its voltage is its charge.
#[tactic(auto, unfolding(crate::specs::Stamps::charge_branches_of))]
pub fn gb_branch(d: Mosfet1, alpha: f64) -> ChargeBranch
    ensures { result ≡ (charge_branches_of d alpha).gb }
{
    let (t, h) = (d.terminals, d.histories);
    let (c, q) = (d.charges.cgb_eval, d.charges.q_gb_eval);
    branch(t.gate, t.bulk, c, q, q, true, d.disc, alpha, h.gb_hist)
}

#[tactic(auto, unfolding(crate::specs::Stamps::charge_branches_of))]
pub fn bs_branch(d: Mosfet1, alpha: f64) -> ChargeBranch
    ensures { result ≡ (charge_branches_of d alpha).bs }
{
    let (t, q, h) = (d.terminals, d.charges, d.histories);
    let (bot, sw) = (d.geometry.cbs_bot, d.geometry.cbs_sw);
    let (c, v, q) = (q.cbs_eval, q.vbs_eval, q.q_bs_eval);
    junction_branch(t.bulk, t.source, c, v, q, bot, sw, d.disc, alpha, h.bs_hist)
}

#[tactic(auto, unfolding(crate::specs::Stamps::charge_branches_of))]
pub fn bd_branch(d: Mosfet1, alpha: f64) -> ChargeBranch
    ensures { result ≡ (charge_branches_of d alpha).bd }
{
    let (t, q, h) = (d.terminals, d.charges, d.histories);
    let (bot, sw) = (d.geometry.cbd_bot, d.geometry.cbd_sw);
    let (c, v, q) = (q.cbd_eval, q.vbd_eval, q.q_bd_eval);
    junction_branch(t.bulk, t.drain, c, v, q, bot, sw, d.disc, alpha, h.bd_hist)
}

pub fn charge_branches(d: Mosfet1, alpha: f64) -> ChargeBranches
    ensures { result ≡ charge_branches_of d alpha }
{
    ChargeBranches {
        gs: gs_branch(d, alpha),
        gd: gd_branch(d, alpha),
        gb: gb_branch(d, alpha),
        bs: bs_branch(d, alpha),
        bd: bd_branch(d, alpha),
    }
}
