// Loading a device into the right-hand side and the matrix (`load_residual`, `load_jacobian` and their transient forms of
// mosfet1.rs, over the pattern of mna.rs), with the refusals of rows 8, 10, 11, 12 and 13.
#![tactic(auto)]

ghost use Rattle.std.specs.Prelude.{◌≡◌, not, length, IfOk};
ghost use Rattle.pattern.specs.Pattern.{lists, well_formed};
ghost use Rattle.device.specs.Refusals.{number, outcome};
ghost use Rattle.device.specs.Stages.{unbound, unevaluated};
ghost use Rattle.loading.specs.Loading.{nodes_outside, alpha_inside, alpha_outside, no_branches, branches_of, early_row, Loaded};

use device::{Discretisation, Mosfet1, NodeId, Refusal, Stage, Terminals};
use pattern::{Pattern, WellFormed};
use stamps::{ChargeBranch, ChargeBranches};

// Direct current, or transient with the factor alpha of a load without a step.
#[derive(Clone, Copy)]
pub enum LoadKind {
    DirectCurrent,
    Transient(f64),
}

// Row 8. A node below the smaller of the two lengths is below both.
pub fn nodes_outside(stage: Stage, t: Terminals, len: usize, rows: usize) -> bool
    ensures { result ≡ nodes_outside stage t len rows }
{
    if stage.is_unbound() {
        return false;
    }
    if len < rows {
        return t.any_beyond(len);
    }
    t.any_beyond(rows)
}

#[tactic(auto, unfolding(crate::specs::Loading::alpha_inside))]
fn alpha_inside(alpha: f64) -> bool
    ensures { result ≡ alpha_inside alpha }
{
    device::within(alpha, 1.0, 1e16)
}

// Row 11.
#[tactic(auto, unfolding(crate::specs::Loading::alpha_outside))]
pub fn alpha_outside(disc: Discretisation, kind: LoadKind) -> bool
    ensures { result ≡ alpha_outside disc kind }
{
    match kind {
        LoadKind::DirectCurrent => false,
        LoadKind::Transient(alpha) => {
            if reactive::has_step(disc) {
                return false;
            }
            !alpha_inside(alpha)
        }
    }
}

#[tactic(auto, unfolding(crate::specs::Loading::no_branches, crate::specs::Loading::no_branch))]
fn no_branches() -> ChargeBranches
    ensures { result ≡ no_branches }
{
    let none = ChargeBranch {
        pos: NodeId::Ground,
        neg: NodeId::Ground,
        conducts: false,
        conductance: 0.0,
        remembers: false,
        history: 0.0,
    };
    ChargeBranches {
        gs: none,
        gd: none,
        gb: none,
        bs: none,
        bd: none,
    }
}

// The charge branches of a load: none at direct current.
#[tactic(auto, unfolding(crate::specs::Loading::branches_of))]
pub fn branches(device: Mosfet1, kind: LoadKind) -> ChargeBranches
    ensures { result ≡ branches_of device kind }
{
    match kind {
        LoadKind::DirectCurrent => no_branches(),
        LoadKind::Transient(alpha) => stamps::charge_branches(device, alpha),
    }
}

// Rows 8, 10, 11 and 12 in this order; where none applies, the pattern as one that was tested.
#[tactic(auto, unfolding(crate::specs::Loading::early_row))]
fn early_row<'a>(
    stage: Stage,
    t: Terminals,
    disc: Discretisation,
    kind: LoadKind,
    rhs: usize,
    values: usize,
    pattern: Pattern<'a>,
) -> Result<WellFormed<'a>, Refusal>
    ensures row { number (outcome result) ≡ early_row (nodes_outside stage t rhs (length pattern.entry.offsets.now)) (unevaluated stage) (alpha_outside disc kind) (not (well_formed pattern.entry.columns.now pattern.entry.offsets.now pattern.entry.lengths.now values)) }
    ensures kept { IfOk result (λ w. lists w.pattern ≡ lists pattern.entry) }
{
    if nodes_outside(stage, t, rhs, pattern.offsets.len()) {
        return Err(Refusal::Node);
    }
    if stage.is_unevaluated() {
        return Err(Refusal::Stage);
    }
    if alpha_outside(disc, kind) {
        return Err(Refusal::Step);
    }
    pattern.tested(values).ok_or(Refusal::Pattern)
}

// A load. A refused one leaves both slices as they were.
pub fn load(
    device: Mosfet1,
    kind: LoadKind,
    rhs: &mut [f64],
    values: &mut [f64],
    pattern: Pattern<'_>,
) -> Result<(), Refusal>
    ensures { Loaded device kind (lists pattern.entry) rhs.old values.old (outcome result) rhs.new values.new }
{
    let t = device.terminals;
    let tested = early_row(
        device.stage,
        t,
        device.disc,
        kind,
        rhs.len(),
        values.len(),
        pattern,
    )?;
    let jacobian = stamps::jac_values(device);
    let residual = stamps::residual_values(device);
    let charge = branches(device, kind);
    if assembly::assemble(t, jacobian, residual, charge, values, rhs, tested) {
        Ok(())
    } else {
        Err(Refusal::MissingCell)
    }
}
