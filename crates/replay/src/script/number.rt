// What a single word writes, or nothing.
ghost use Rattle.std.specs.Prelude.{◌≡◌};
ghost use Rattle.replay.specs.Number.{number_of, whole_of, with_digit, node_of, method_of, on_both, one_step, two_steps, steps_of};

use crate::script::word::place_of;
use device::{Discretisation, NodeId};

// A float by its bits, or `nan`.
#[tactic(auto, unfolding(crate::specs::Number::number_of))]
pub fn read_number(w: &[u8]) -> Option<f64>
    ensures { result ≡ number_of w.now }
{
    if w == b"nan".as_slice() {
        return Some(f64::NAN);
    }
    if w.len() != 16 {
        return None;
    }
    let bits = hex_text::bits_at(w, 0)?;
    Some(hex_text::float_of(bits))
}

// A decimal digit after those that make n.
#[tactic(auto, using(std::proofs::lemmas::Bool::Decides::nat_tests), unfolding(crate::specs::Number::with_digit))]
fn with_digit(n: u64, b: u8) -> Option<u64>
    ensures { result ≡ with_digit n b }
{
    if b < b'0' || b'9' < b {
        return None;
    }
    n.checked_mul(10)?.checked_add(u64::from(b - b'0'))
}

// A whole number in decimal.
#[tactic(auto, using(crate::proofs::script::Decimal::digit_read, crate::proofs::script::Decimal::all_read), unfolding(crate::specs::Number::whole_of))]
pub fn read_whole(w: &[u8]) -> Option<u64>
    ensures { result ≡ whole_of w.now }
{
    if w.is_empty() {
        return None;
    }
    let mut n = 0u64;
    for b in w {
        n = with_digit(n, *b)?;
    }
    Some(n)
}

// A node by its number; `-` is ground.
#[tactic(auto, unfolding(crate::specs::Number::node_of))]
pub fn read_node(w: &[u8]) -> Option<NodeId>
    ensures { result ≡ node_of w.now }
{
    if w == b"-".as_slice() {
        return Some(NodeId::Ground);
    }
    let n = read_whole(w)?;
    Some(NodeId::At(n as usize))
}

// `none`, `euler:H`, `trap:H` or `gear:H:HPREV`.
#[tactic(auto, unfolding(crate::specs::Number::method_of, crate::specs::Number::on_both))]
pub fn read_method(w: &[u8]) -> Option<Discretisation>
    ensures { result ≡ method_of w.now }
{
    if w == b"none".as_slice() {
        return Some(Discretisation::None);
    }
    let colon = place_of(w, b':')?;
    read_steps(&w[..colon], &w[colon + 1..])
}

// A method by its name and its step lengths.
#[tactic(auto, unfolding(crate::specs::Number::steps_of))]
fn read_steps(name: &[u8], steps: &[u8]) -> Option<Discretisation>
    ensures { result ≡ steps_of name.now steps.now }
{
    if name == b"gear".as_slice() {
        return read_gear(steps);
    }
    let h = read_number(steps)?;
    one_step(name, h)
}

#[tactic(auto, unfolding(crate::specs::Number::one_step))]
fn one_step(name: &[u8], h: f64) -> Option<Discretisation>
    ensures { result ≡ one_step name.now h }
{
    if name == b"euler".as_slice() {
        return Some(Discretisation::Euler(h));
    }
    if name == b"trap".as_slice() {
        return Some(Discretisation::Trapezoid(h));
    }
    None
}

// Gear's two step lengths, a colon between.
#[tactic(auto, unfolding(crate::specs::Number::on_both, crate::specs::Number::two_steps))]
fn read_gear(steps: &[u8]) -> Option<Discretisation>
    ensures { result ≡ on_both two_steps steps.now }
{
    let colon = place_of(steps, b':')?;
    let h = read_number(&steps[..colon])?;
    let h_prev = read_number(&steps[colon + 1..])?;
    Some(Discretisation::Gear(h, h_prev))
}
