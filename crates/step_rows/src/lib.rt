// The rows that refuse an evaluation and a commit. Their definitions are in `rows`. Those of an evaluation are asked in two parts
// (`specs/StepRows`), so that the caller reads the voltages once, between them.
#![tactic(auto)]

ghost use Rattle.std.specs.Prelude.{◌≡◌};
ghost use Rattle.device.specs.Refusals.{number, outcome};
ghost use Rattle.rows.specs.Rows.{outside_of, row6_of, row9_of, bad_step_of, row11_of, commit_row_of};
ghost use Rattle.step_rows.specs.StepRows.{first_row_of, last_row_of};

use bias::Voltages;
use device::{Discretisation, Refusal, Stage, Terminals};
use temperature::Kelvin;

// A NaN is outside every range.
#[tactic(auto, unfolding(rows::specs::Rows::outside_of))]
fn outside(lo: f64, hi: f64, v: f64) -> bool
    ensures { result ≡ outside_of lo hi v }
{
    !device::within(v, lo, hi)
}

#[tactic(auto, unfolding(rows::specs::Rows::row6_of))]
pub fn row6(temperature: Kelvin, gmin: f64) -> bool
    ensures { result ≡ row6_of temperature gmin }
{
    device::outside_temperatures(temperature) || outside(0.0, 1.0, gmin)
}

#[tactic(auto, unfolding(rows::specs::Rows::row9_of))]
pub fn row9(v: Voltages) -> bool
    ensures { result ≡ row9_of v }
{
    outside(-1000.0, 1000.0, v.vd)
        || outside(-1000.0, 1000.0, v.vg)
        || outside(-1000.0, 1000.0, v.vs)
        || outside(-1000.0, 1000.0, v.vb)
}

#[tactic(auto, unfolding(rows::specs::Rows::bad_step_of))]
pub fn bad_step(h: f64) -> bool
    ensures { result ≡ bad_step_of h }
{
    outside(1e-15, 1.0, h)
}

#[tactic(auto, unfolding(rows::specs::Rows::row11_of))]
fn row11(disc: Discretisation) -> bool
    ensures { result ≡ row11_of disc }
{
    match disc {
        Discretisation::None => false,
        Discretisation::Euler(h) | Discretisation::Trapezoid(h) => bad_step(h),
        Discretisation::Gear(h, h_prev) => bad_step(h) || bad_step(h_prev),
    }
}

// The rows of an evaluation that need no voltage. Before binding rows 8 and 9 do not apply, and row 10 does.
#[tactic(auto, unfolding(crate::specs::StepRows::first_row_of))]
pub fn first_row(
    stage: Stage,
    t: Terminals,
    n: usize,
    temperature: Kelvin,
    gmin: f64,
) -> Result<(), Refusal>
    ensures { number (outcome result) ≡ first_row_of stage t n temperature gmin }
{
    if row6(temperature, gmin) {
        return Err(Refusal::Temperature);
    }
    if stage.is_unbound() {
        return Err(Refusal::Stage);
    }
    if t.any_beyond(n) {
        return Err(Refusal::Node);
    }
    Ok(())
}

// The rows of an evaluation that are asked once the voltages are read: row 9 is about them, row 11 about the step lengths.
#[tactic(auto, unfolding(crate::specs::StepRows::last_row_of))]
pub fn last_row(v: Voltages, disc: Discretisation) -> Result<(), Refusal>
    ensures { number (outcome result) ≡ last_row_of v disc }
{
    if row9(v) {
        return Err(Refusal::Voltage);
    }
    if row11(disc) {
        return Err(Refusal::Step);
    }
    Ok(())
}

#[tactic(auto, using(rows::proofs::Reading::unbound_unevaluated), unfolding(rows::specs::Rows::commit_row_of, rows::specs::Rows::nodes_outside, rows::specs::Rows::voltages_outside))]
pub fn commit_row(stage: Stage, t: Terminals, x: &[f64]) -> Result<(), Refusal>
    ensures { number (outcome result) ≡ commit_row_of stage t x.now }
{
    if stage.is_unbound() {
        return Err(Refusal::Stage);
    }
    if t.any_beyond(x.len()) {
        return Err(Refusal::Node);
    }
    if row9(rows::voltages(x, t)) {
        return Err(Refusal::Voltage);
    }
    if stage.is_unevaluated() {
        return Err(Refusal::Stage);
    }
    Ok(())
}
