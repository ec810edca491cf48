// Text into a lent buffer. Each function writes from at on and answers the place after; what has no room is left out.
ghost use Rattle.std.specs.Prelude.{◌≡◌, ◌+◌, ◌<◌, length, set};
ghost use Rattle.hex_text.specs.Text.{after, text_at, end_of, byte_of, number_text};

#[tactic(auto, using(std::proofs::lemmas::Bool::Decides::nat_tests, std::proofs::lemmas::List::set_past), unfolding(crate::specs::Text::after))]
fn put_byte(out: &mut [u8], at: usize, b: u8) -> usize
    ensures value { result ≡ after (length out.old) at }
    ensures out_after { out.new ≡ set out.old at b }
{
    if at < out.len() {
        out[at] = b;
        return at + 1;
    }
    at
}

pub fn put_text(out: &mut [u8], at: usize, text: &[u8]) -> usize
    ensures value { result ≡ end_of (length out.old) at text.now }
    ensures out_after { out.new ≡ text_at out.old at text.now }
{
    let mut n = at;
    for &b in text {
        n = put_byte(out, n, b);
    }
    n
}

// The byte of a digit.
#[tactic(auto, using(std::proofs::lemmas::Bool::Decides::nat_tests), unfolding(crate::specs::Text::byte_of))]
fn digit_byte(d: u64) -> u8
    requires { d < 16 }
    ensures { result ≡ byte_of d }
{
    if d < 10 {
        b'0' + d as u8
    } else {
        b'a' + (d - 10) as u8
    }
}

// A float's bits in sixteen digits; any NaN is `nan`.
pub fn put_number(out: &mut [u8], at: usize, x: f64) -> usize
    ensures value { result ≡ end_of (length out.old) at (number_text x) }
    ensures out_after { out.new ≡ text_at out.old at (number_text x) }
{
    if x.is_nan() {
        return put_text(out, at, b"nan");
    }
    let bits = f64::to_bits(x);
    let mut n = at;
    for k in 0u64..16 {
        n = put_byte(out, n, digit_byte((bits >> (60 - 4 * k)) % 16));
    }
    n
}
