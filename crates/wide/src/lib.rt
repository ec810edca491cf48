// The product of two 64-bit words as two words.
#![tactic(auto)]

ghost use Rattle.std.specs.Prelude.{◌≡◌, ◌*◌, ◌/◌, ◌%◌, ◌^◌};

// The upper 64 bits of u * v, from four products of halves. The compiler makes one multiplication of it.
pub fn mulhi(u: u64, v: u64) -> u64
    ensures { result ≡ u * v / 2 ^ 64 }
{
    let u0 = u & 0xffff_ffff;
    let u1 = u >> 32;
    let v0 = v & 0xffff_ffff;
    let v1 = v >> 32;
    let w0 = u0 * v0;
    let t = u1 * v0 + (w0 >> 32);
    let w1 = (t & 0xffff_ffff) + u0 * v1;
    u1 * v1 + (t >> 32) + (w1 >> 32)
}

// The lower 64 bits of u * v, in the same way.
pub fn mullo(u: u64, v: u64) -> u64
    ensures { result ≡ u * v % 2 ^ 64 }
{
    let u0 = u & 0xffff_ffff;
    let u1 = u >> 32;
    let v0 = v & 0xffff_ffff;
    let v1 = v >> 32;
    let w0 = u0 * v0;
    let t = u1 * v0 + (w0 >> 32);
    let w1 = (t & 0xffff_ffff) + u0 * v1;
    (w1 << 32) + (w0 & 0xffff_ffff)
}
