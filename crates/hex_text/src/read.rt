// 64 bits as sixteen hexadecimal digits.
ghost use Rattle.std.specs.Prelude.{◌≡◌, ◌+◌, ◌<◌};
ghost use Rattle.std.specs.Float.{binary64};
ghost use Rattle.std.specs.Float.Ieee.{of_bits};
ghost use Rattle.hex_text.specs.Hex.{digit_of, bits_at};

// What a digit's byte counts.
#[tactic(auto, using(std::proofs::lemmas::Bool::Decides::nat_tests), unfolding(crate::specs::Hex::digit_of))]
pub fn digit(b: u8) -> Option<u64>
    ensures { result ≡ digit_of b }
{
    match b {
        b'0'..=b'9' => Some((b - b'0') as u64),
        b'a'..=b'f' => Some((b - b'a') as u64 + 10),
        _ => None,
    }
}

// The bits that the sixteen bytes from at on write.
pub fn bits_at(s: &[u8], at: usize) -> Option<u64>
    ensures { result ≡ bits_at s.now at }
{
    let digits = s.get(at..)?.get(..16)?;
    let mut n = 0u64;
    for &b in digits {
        n = n * 16 + digit(b)?;
    }
    Some(n)
}

// The float that the bits write, any pattern of a NaN too.
pub fn float_of(bits: u64) -> f64
    ensures { result ≡ of_bits binary64 bits }
{
    let field = bits % 0x8000_0000_0000_0000 / 0x10_0000_0000_0000;
    let digits = bits % 0x10_0000_0000_0000;
    if field == 2047 && digits != 0 {
        return f64::NAN;
    }
    f64::from_bits(bits)
}
