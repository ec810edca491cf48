// `call FUNCTION ARGS`: one function alone.
use crate::answers::put_each;
use crate::replies::{Fault, put_name};
use crate::script::number::{read_method, read_number};
use crate::script::word::{word, word_count};
use device::{ChargeHistory, Discretisation};
use temperature::Kelvin;

// What a function answers.
#[derive(Clone, Copy)]
enum Value {
    One(f64),
    Two(f64, f64),
}

fn of_one(name: &[u8], x: f64) -> Option<Value> {
    let y = match name {
        b"exp" => elementary::exp(x),
        b"ln" => elementary::ln(x),
        b"ln_1p" => elementary::ln_1p(x),
        b"sqrt" => elementary::sqrt(x),
        b"vt" => junction::vt(Kelvin(x)),
        b"bandgap_ev" => temperature::bandgap_ev(Kelvin(x)),
        b"pbfact" => temperature::pbfact(Kelvin(x)),
        _ => return None,
    };
    Some(Value::One(y))
}

fn of_two(name: &[u8], x: f64, y: f64) -> Option<Value> {
    let z = match name {
        b"pow" => elementary::pow(x, y),
        b"mos_junction_is_factor" => temperature::mos_junction_is_factor(Kelvin(x), Kelvin(y)),
        b"mobility_factor" => temperature::mobility_factor(Kelvin(x), Kelvin(y)),
        _ => return None,
    };
    Some(Value::One(z))
}

fn of_three(name: &[u8], x: f64, y: f64, z: f64) -> Option<Value> {
    if name != b"scaled_phi".as_slice() {
        return None;
    }
    Some(Value::One(scaling::scaled_phi(x, Kelvin(y), Kelvin(z))))
}

fn of_four(name: &[u8], x: f64, y: f64, z: f64, u: f64) -> Option<Value> {
    match name {
        b"junction_cap_factor" => Some(Value::One(scaling::junction_cap_factor(
            x,
            y,
            Kelvin(z),
            Kelvin(u),
        ))),
        b"bulk_junction" => {
            let j = junction::bulk_junction(x, y, z, u);
            Some(Value::Two(j.i, j.g))
        }
        _ => None,
    }
}

// A polarity below 0 is that of a PMOS device.
fn of_seven(name: &[u8], x: [f64; 8]) -> Option<Value> {
    if name != b"scaled_vto".as_slice() {
        return None;
    }
    let is_pmos = x[6] < 0.0;
    Some(Value::One(scaling::scaled_vto(
        x[0],
        x[1],
        x[2],
        x[3],
        Kelvin(x[4]),
        Kelvin(x[5]),
        is_pmos,
    )))
}

// A function of floats only: the words from the third on are its arguments.
fn of_floats(line: &[u8], count: usize) -> Option<Value> {
    if count > 8 {
        return None;
    }
    let mut x = [0.0; 8];
    for i in 0..count {
        x[i] = read_number(word(line, i + 2))?;
    }
    let name = word(line, 1);
    match count {
        1 => of_one(name, x[0]),
        2 => of_two(name, x[0], x[1]),
        3 => of_three(name, x[0], x[1], x[2]),
        4 => of_four(name, x[0], x[1], x[2], x[3]),
        7 => of_seven(name, x),
        _ => None,
    }
}

// A charge that may be absent; none for a word that is no charge.
fn charge(w: &[u8]) -> Option<Option<f64>> {
    if w == b"none".as_slice() {
        return Some(None);
    }
    Some(Some(read_number(w)?))
}

// `charge_current METHOD q_new q_prev q_prev2-or-none i_prev`; the Rust's function has no case without a step.
fn charge_current(line: &[u8]) -> Option<Value> {
    let method = read_method(word(line, 2))?;
    let new = read_number(word(line, 3))?;
    let last = ChargeHistory {
        q_prev: read_number(word(line, 4))?,
        q_prev2: charge(word(line, 5))?,
        i_prev: read_number(word(line, 6))?,
    };
    if matches!(method, Discretisation::None) {
        return None;
    }
    let b = reactive::charge_current(method, 0.0, new, last);
    Some(Value::Two(b.i, b.scale))
}

// `scale METHOD alpha`
fn scale(line: &[u8]) -> Option<Value> {
    let method = read_method(word(line, 2))?;
    let alpha = read_number(word(line, 3))?;
    Some(Value::One(reactive::scale(method, alpha)))
}

// The call by the function's word; none for words that name no function of so many arguments.
fn called(line: &[u8]) -> Option<Value> {
    let count = word_count(line).checked_sub(2)?;
    match word(line, 1) {
        b"charge_current" if count == 5 => charge_current(line),
        b"scale" if count == 2 => scale(line),
        _ => of_floats(line, count),
    }
}

// The answer's text from the start of out on.
pub fn put_call(line: &[u8], out: &mut [u8]) -> Result<usize, Fault> {
    let value = called(line).ok_or(Fault::Bad)?;
    let n = put_name(out, line);
    Ok(match value {
        Value::One(x) => put_each(out, n, b" ", &[x]),
        Value::Two(x, y) => put_each(out, n, b" ", &[x, y]),
    })
}
