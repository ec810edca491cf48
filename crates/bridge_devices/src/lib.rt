// The part of one device in the load of a block or a bridge, on a pattern that was tested once for all of them: which row refuses it, asked
// before anything is written, and its contributions.
#![tactic(auto)]

ghost use Rattle.std.specs.Prelude.{◌≡◌, length, is_some, IfSome};
ghost use Rattle.pattern.specs.Pattern.{lists};
ghost use Rattle.device.specs.Refusals.{done, number, outcome};
ghost use Rattle.loading.specs.Loading.{load_of, Loaded};
ghost use Rattle.bridge_devices.specs.Steps.{device_row, lower};

use device::{Mosfet1, Refusal};
use loading::LoadKind;
use pattern::{Pattern, WellFormed};

// The lower of two rows, by their numbers: for `x.min(y)`, by the derived order of fifteen variants, the proof did not close.
#[tactic(auto, using(loading::proofs::Rows::never_0), unfolding(crate::specs::Steps::lower))]
pub fn lower(a: Result<(), Refusal>, b: Result<(), Refusal>) -> Result<(), Refusal>
    ensures { number (outcome result) ≡ lower (number (outcome a)) (number (outcome b)) }
{
    match (a, b) {
        (Err(x), Err(y)) if u8::from(x) < u8::from(y) => a,
        (Err(_), Err(_)) => b,
        (Err(_), Ok(())) => a,
        (Ok(()), _) => b,
    }
}

// The lower of two numbers, where 0 is none.
#[tactic(auto, unfolding(crate::specs::Steps::lower))]
pub fn lower_number(a: u8, b: u8) -> u8
    ensures { result ≡ lower a b }
{
    if a == 0 || (b != 0 && b < a) { b } else { a }
}

// The first of rows 8, 10, 11, 12 and 13 that applies to a device. The pattern is handed on as row 12's test left it: none where the row
// applies.
#[tactic(auto, unfolding(crate::specs::Steps::device_row, crate::specs::Steps::first_of))]
pub fn device_row(
    d: Mosfet1,
    kind: LoadKind,
    rows: usize,
    pattern: Pattern<'_>,
    tested: Option<WellFormed<'_>>,
) -> Result<(), Refusal>
    requires { IfSome tested (λ w. lists w.pattern ≡ lists pattern) }
    ensures { number (outcome result) ≡ device_row d kind (lists pattern.entry) (is_some tested.entry) rows }
{
    if loading::nodes_outside(d.stage, d.terminals, rows, pattern.offsets.len()) {
        return Err(Refusal::Node);
    }
    if d.stage.is_unevaluated() {
        return Err(Refusal::Stage);
    }
    if loading::alpha_outside(d.disc, kind) {
        return Err(Refusal::Step);
    }
    let Some(tested) = tested else {
        return Err(Refusal::Pattern);
    };
    let n = places::indices(d.terminals);
    let b = loading::branches(d, kind);
    match places::look_up(tested, n, b) {
        Some(_) => Ok(()),
        None => Err(Refusal::MissingCell),
    }
}

// The load of a device that no row refuses.
pub fn add_device(
    d: Mosfet1,
    kind: LoadKind,
    rhs: &mut [f64],
    values: &mut [f64],
    pattern: WellFormed<'_>,
)
    requires { load_of d kind (lists pattern.pattern) rhs.old values.old ≡ done tt }
    ensures { Loaded d kind (lists pattern.entry.pattern) rhs.old values.old (done tt) rhs.new values.new }
{
    let jacobian = stamps::jac_values(d);
    let residual = stamps::residual_values(d);
    let charge = loading::branches(d, kind);
    let _there = assembly::assemble(
        d.terminals,
        jacobian,
        residual,
        charge,
        values,
        rhs,
        pattern,
    );
}
