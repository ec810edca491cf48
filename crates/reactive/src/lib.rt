// Charge branches: the integration methods and a branch's past (`charge_current`, `conductance` and `ChargeHistory` of reactive.rs).
#![tactic(auto)]

ghost use Rattle.std.specs.Prelude.{◌≡◌};
ghost use Rattle.reactive.specs.Charge.{euler_of, trapezoid_of, gear_of, charge_current_of, euler_conductance_of, trapezoid_conductance_of, gear_conductance_of, scale_of, companion_of, has_step_of, recorded_of, advance_of};

use device::{ChargeHistory, Discretisation};
use float::max;

// A branch's current at a charge, and the factor of the charge in it.
#[derive(Clone, Copy)]
pub struct Branch {
    pub i: f64,
    pub scale: f64,
}

// Backward Euler.
fn euler(h: f64, q_new: f64, q_prev: f64) -> Branch
    ensures { result ≡ euler_of h q_new q_prev }
{
    let scale = 1.0 / h;
    Branch {
        i: scale * (q_new - q_prev),
        scale,
    }
}

fn trapezoid(h: f64, q_new: f64, q_prev: f64, i_prev: f64) -> Branch
    ensures { result ≡ trapezoid_of h q_new q_prev i_prev }
{
    let scale = 2.0 / h;
    Branch {
        i: scale * (q_new - q_prev) - i_prev,
        scale,
    }
}

// BDF-2 with steps of two lengths.
fn gear(h: f64, h_prev: f64, q_new: f64, q_prev: f64, q2: f64) -> Branch
    ensures { result ≡ gear_of h h_prev q_new q_prev q2 }
{
    let rho = h / h_prev;
    let denom = h * (1.0 + rho);
    let scale = (1.0 + 2.0 * rho) / denom;
    Branch {
        i: scale * q_new - (1.0 + rho) / h * q_prev + (rho * rho) / denom * q2,
        scale,
    }
}

// Gear without a charge before the last is Euler. Without a step alpha is the factor.
#[tactic(auto, unfolding(crate::specs::Charge::charge_current_of, crate::specs::Charge::gear_or_euler_of))]
pub fn charge_current(disc: Discretisation, alpha: f64, q_new: f64, hist: ChargeHistory) -> Branch
    ensures { result ≡ charge_current_of disc alpha q_new hist }
{
    let q_prev = hist.q_prev;
    match disc {
        Discretisation::None => Branch {
            i: alpha * (q_new - q_prev),
            scale: alpha,
        },
        Discretisation::Euler(h) => euler(h, q_new, q_prev),
        Discretisation::Trapezoid(h) => trapezoid(h, q_new, q_prev, hist.i_prev),
        Discretisation::Gear(h, h_prev) => match hist.q_prev2 {
            Some(q2) => gear(h, h_prev, q_new, q_prev, q2),
            None => euler(h, q_new, q_prev),
        },
    }
}

// A capacitor's conductance under each method: three formulas, as the Rust's `conductance` has them, so no one function says them plainer.
fn euler_conductance(value: f64, h: f64) -> f64
    ensures { result ≡ euler_conductance_of value h }
{
    let v = max(value, 1e-30);
    v / h
}

fn trapezoid_conductance(value: f64, h: f64) -> f64
    ensures { result ≡ trapezoid_conductance_of value h }
{
    let v = max(value, 1e-30);
    2.0 * v / h
}

fn gear_conductance(value: f64, h: f64, h_prev: f64) -> f64
    ensures { result ≡ gear_conductance_of value h h_prev }
{
    let v = max(value, 1e-30);
    let rho = h / h_prev;
    v * (1.0 + 2.0 * rho) / (h * (1.0 + rho))
}

// The Jacobian's factor of a capacitance. It is BDF-2's under Gear, also while the past is too short for the current's formula.
pub fn scale(disc: Discretisation, alpha: f64) -> f64
    ensures { result ≡ scale_of disc alpha }
{
    match disc {
        Discretisation::None => alpha,
        Discretisation::Euler(h) => euler_conductance(1.0, h),
        Discretisation::Trapezoid(h) => trapezoid_conductance(1.0, h),
        Discretisation::Gear(h, h_prev) => gear_conductance(1.0, h, h_prev),
    }
}

// The history current: what the Jacobian's term at cv has too much, so that the branch carries its current.
pub fn companion(disc: Discretisation, alpha: f64, q_new: f64, cv: f64, hist: ChargeHistory) -> f64
    ensures { result ≡ companion_of disc alpha q_new cv hist }
{
    let b = charge_current(disc, alpha, q_new, hist);
    b.scale * cv - b.i
}

#[tactic(auto, unfolding(crate::specs::Charge::has_step_of))]
pub fn has_step(disc: Discretisation) -> bool
    ensures { result ≡ has_step_of disc }
{
    match disc {
        Discretisation::None => false,
        Discretisation::Euler(_) | Discretisation::Trapezoid(_) | Discretisation::Gear(_, _) =>
            true,
    }
}

// The current that a commit records. Without a step it stays.
#[tactic(auto, unfolding(crate::specs::Charge::recorded_of))]
fn recorded(disc: Discretisation, q_now: f64, hist: ChargeHistory) -> f64
    ensures { result ≡ recorded_of disc q_now hist }
{
    if has_step(disc) {
        charge_current(disc, 0.0, q_now, hist).i
    } else {
        hist.i_prev
    }
}

// Past an accepted step: the current is computed before the charges move on.
#[tactic(auto, unfolding(crate::specs::Charge::advance_of))]
pub fn advance(disc: Discretisation, q_now: f64, hist: ChargeHistory) -> ChargeHistory
    ensures { result ≡ advance_of disc q_now hist }
{
    ChargeHistory {
        q_prev: q_now,
        q_prev2: Some(hist.q_prev),
        i_prev: recorded(disc, q_now, hist),
    }
}
