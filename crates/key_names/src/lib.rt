// The names of keys: a key is compared with one name after another, as the lists of names have them.
#![tactic(auto)]

ghost use Rattle.std.specs.Prelude.{◌≡◌};
ghost use Rattle.std.specs.Char.{eq_ignore_ascii_case};
ghost use Rattle.std.specs.Str.{str_eq_ignore_ascii_case};
ghost use Rattle.keys.specs.Names.{card_names, geometry_names, meaning_of};
ghost use Rattle.key_names.specs.Spelling.{found};

use keys::{Key, Meaning, Table};

// Whether a byte of a key is that of a name, ASCII case ignored. Both cases are of the name's byte: it is a constant where the names are
// compared, and the key's byte would be brought to lower case anew for each name.
#[tactic(auto, using(crate::proofs::Spelling::either_case))]
#[inline(always)]
fn is_byte(byte: u8, of_name: u8) -> bool
    ensures { result ≡ eq_ignore_ascii_case byte of_name }
{
    byte == of_name.to_ascii_lowercase() || byte == of_name.to_ascii_uppercase()
}

// Whether a key is a name, ASCII case ignored. It is copied into the lists of names: there a name's length and bytes are constants.
#[inline(always)]
fn is(key: &[u8], name: &[u8]) -> bool
    ensures { result ≡ str_eq_ignore_ascii_case key.now name.now }
{
    if key.len() != name.len() {
        return false;
    }
    for i in 0..name.len() {
        if !is_byte(key[i], name[i]) {
            return false;
        }
    }
    true
}

// The card's key of a name.
#[tactic(auto, unfolding(crate::specs::Spelling::found, crate::specs::Spelling::bytes_of, keys::specs::Names::card_names))]
fn card_key(key: &[u8]) -> Meaning
    ensures { result ≡ found card_names key.now }
{
    if is(key, b"vto") || is(key, b"vth0") || is(key, b"vtho") {
        Meaning::Sets(Key::Vto)
    } else if is(key, b"kp") {
        Meaning::Sets(Key::Kp)
    } else if is(key, b"uo") || is(key, b"u0") {
        Meaning::Sets(Key::Uo)
    } else if is(key, b"is") {
        Meaning::Sets(Key::Is)
    } else if is(key, b"js") {
        Meaning::Sets(Key::Js)
    } else if is(key, b"lambda") {
        Meaning::Sets(Key::Lambda)
    } else if is(key, b"gamma") {
        Meaning::Sets(Key::Gamma)
    } else if is(key, b"phi") {
        Meaning::Sets(Key::Phi)
    } else if is(key, b"rd") {
        Meaning::Sets(Key::Rd)
    } else if is(key, b"rs") {
        Meaning::Sets(Key::Rs)
    } else if is(key, b"rsh") {
        Meaning::Sets(Key::Rsh)
    } else if is(key, b"kf") {
        Meaning::Sets(Key::Kf)
    } else if is(key, b"af") {
        Meaning::Sets(Key::Af)
    } else if is(key, b"tnom") {
        Meaning::Tnom
    } else if is(key, b"cgso") {
        Meaning::Sets(Key::Cgso)
    } else if is(key, b"cgdo") {
        Meaning::Sets(Key::Cgdo)
    } else if is(key, b"cgbo") {
        Meaning::Sets(Key::Cgbo)
    } else if is(key, b"cox") {
        Meaning::Sets(Key::Cox)
    } else if is(key, b"tox") {
        Meaning::Sets(Key::Tox)
    } else if is(key, b"cj") {
        Meaning::Sets(Key::Cj)
    } else if is(key, b"cjsw") {
        Meaning::Sets(Key::Cjsw)
    } else if is(key, b"pb") {
        Meaning::Sets(Key::Pb)
    } else if is(key, b"mj") {
        Meaning::Sets(Key::Mj)
    } else if is(key, b"mjsw") {
        Meaning::Sets(Key::Mjsw)
    } else if is(key, b"fc") {
        Meaning::Sets(Key::Fc)
    } else if is(key, b"nsub")
        || is(key, b"nss")
        || is(key, b"nfs")
        || is(key, b"tpg")
        || is(key, b"ucrit")
        || is(key, b"uexp")
        || is(key, b"utra")
        || is(key, b"vmax")
        || is(key, b"xj")
        || is(key, b"ld")
        || is(key, b"delta")
        || is(key, b"theta")
        || is(key, b"eta")
        || is(key, b"kappa")
        || is(key, b"php")
    {
        Meaning::Unread
    } else {
        Meaning::Unknown
    }
}

// The geometry call's key of a name.
#[tactic(auto, unfolding(crate::specs::Spelling::found, crate::specs::Spelling::bytes_of, keys::specs::Names::geometry_names))]
fn geometry_key(key: &[u8]) -> Meaning
    ensures { result ≡ found geometry_names key.now }
{
    if is(key, b"w") {
        Meaning::Sets(Key::W)
    } else if is(key, b"l") {
        Meaning::Sets(Key::L)
    } else if is(key, b"nrd") {
        Meaning::Sets(Key::Nrd)
    } else if is(key, b"nrs") {
        Meaning::Sets(Key::Nrs)
    } else if is(key, b"as") {
        Meaning::Sets(Key::As)
    } else if is(key, b"ad") {
        Meaning::Sets(Key::Ad)
    } else if is(key, b"ps") {
        Meaning::Sets(Key::Ps)
    } else if is(key, b"pd") {
        Meaning::Sets(Key::Pd)
    } else {
        Meaning::Unknown
    }
}

// What a key means to a call.
pub fn meaning_of(table: Table, key: &[u8]) -> Meaning
    ensures { result ≡ meaning_of table key.now }
{
    match table {
        Table::Card => card_key(key),
        Table::Geometry => geometry_key(key),
    }
}
