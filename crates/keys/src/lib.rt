// The keys of a card and of a geometry call: what they can mean, and which values they take.
#![tactic(auto)]

ghost use Rattle.std.specs.Prelude.{◌≡◌};
ghost use Rattle.keys.specs.Ranges.{range_of, outside_range, outside_of, tnom_outside, is_unknown};

use temperature::Celsius;

// The parameters that a key can set.
#[derive(Clone, Copy)]
pub enum Key {
    Vto,
    Kp,
    Uo,
    Is,
    Js,
    Lambda,
    Gamma,
    Phi,
    Rd,
    Rs,
    Rsh,
    Kf,
    Af,
    Cgso,
    Cgdo,
    Cgbo,
    Cox,
    Tox,
    Cj,
    Cjsw,
    Pb,
    Mj,
    Mjsw,
    Fc,
    W,
    L,
    Nrd,
    Nrs,
    As,
    Ad,
    Ps,
    Pd,
}

// What a key means: it sets a parameter or the nominal temperature, is accepted unread, or is not known.
#[derive(Clone, Copy)]
pub enum Meaning {
    Sets(Key),
    Tnom,
    Unread,
    Unknown,
}

// The calls that read keys.
#[derive(Clone, Copy)]
pub enum Table {
    Card,
    Geometry,
}

// A parameter's least and greatest value, ends included; `ZeroOr` lets 0 pass too.
#[derive(Clone, Copy)]
pub enum Range {
    Within(f64, f64),
    ZeroOr(f64, f64),
}

// The table of ranges, a line for each parameter as the definition has it.
fn range_of(key: Key) -> Range
    ensures { result ≡ range_of key }
{
    match key {
        Key::Vto => Range::Within(-100.0, 100.0),
        Key::Kp => Range::Within(0.0, 100.0),
        Key::Uo => Range::Within(0.0, 1e5),
        Key::Is => Range::Within(0.0, 1.0),
        Key::Js => Range::Within(0.0, 1e6),
        Key::Lambda => Range::Within(0.0, 10.0),
        Key::Gamma => Range::Within(0.0, 100.0),
        Key::Phi => Range::Within(0.1, 10.0),
        Key::Rd => Range::ZeroOr(1e-6, 1e9),
        Key::Rs => Range::ZeroOr(1e-6, 1e9),
        Key::Rsh => Range::ZeroOr(1e-6, 1e6),
        Key::Kf => Range::Within(0.0, 1.0),
        Key::Af => Range::Within(0.25, 4.0),
        Key::Cgso => Range::Within(0.0, 1.0),
        Key::Cgdo => Range::Within(0.0, 1.0),
        Key::Cgbo => Range::Within(0.0, 1.0),
        Key::Cox => Range::Within(0.0, 1.0),
        Key::Tox => Range::Within(1e-10, 1e-4),
        Key::Cj => Range::Within(0.0, 1.0),
        Key::Cjsw => Range::Within(0.0, 1.0),
        Key::Pb => Range::Within(0.1, 10.0),
        Key::Mj => Range::Within(0.0, 0.9),
        Key::Mjsw => Range::Within(0.0, 0.9),
        Key::Fc => Range::Within(0.0, 0.95),
        Key::W => Range::Within(1e-9, 1.0),
        Key::L => Range::Within(1e-9, 1.0),
        Key::Nrd => Range::ZeroOr(1e-6, 1e6),
        Key::Nrs => Range::ZeroOr(1e-6, 1e6),
        Key::As => Range::Within(0.0, 1.0),
        Key::Ad => Range::Within(0.0, 1.0),
        Key::Ps => Range::Within(0.0, 1e3),
        Key::Pd => Range::Within(0.0, 1e3),
    }
}

// Whether a value lies outside a range; a NaN lies outside every one.
fn outside_range(range: Range, v: f64) -> bool
    ensures { result ≡ outside_range range v }
{
    match range {
        Range::Within(least, greatest) => !device::within(v, least, greatest),
        Range::ZeroOr(least, greatest) => !(v == 0.0 || device::within(v, least, greatest)),
    }
}

// Row 4 for one key.
pub fn outside(m: Meaning, v: f64) -> bool
    ensures { result ≡ outside_of m v }
{
    match m {
        Meaning::Sets(key) => outside_range(range_of(key), v),
        Meaning::Tnom | Meaning::Unread | Meaning::Unknown => false,
    }
}

// Row 6 for one key.
pub fn tnom_outside(m: Meaning, v: f64) -> bool
    ensures { result ≡ tnom_outside m v }
{
    match m {
        Meaning::Tnom => device::outside_temperatures(temperature::to_kelvin(Celsius(v))),
        Meaning::Sets(_) | Meaning::Unread | Meaning::Unknown => false,
    }
}

pub fn is_unknown(m: Meaning) -> bool
    ensures { result ≡ is_unknown m }
{
    matches!(m, Meaning::Unknown)
}
