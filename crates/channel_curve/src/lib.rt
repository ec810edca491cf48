// What `curve` makes of a line: two floats by their bits, vgs and vds, answered with what the channel of the reference device
// carries there. `curve_text` writes the answer out.
#![tactic(auto)]

mod reference;

ghost use Rattle.std.specs.Prelude.{◌≡◌};
ghost use Rattle.channel_curve.specs.Curve.{point_at, point_of};

use device::OperatingPoint;

// The channel at vgs and vds: drain at node 0, gate at node 1.
#[tactic(auto, unfolding(crate::specs::Curve::point_at, crate::specs::Curve::answered))]
fn point_at(vgs: f64, vds: f64) -> Option<OperatingPoint>
    ensures { result ≡ point_at vgs vds }
{
    let x = [vds, vgs];
    let e = model::calls::eval(reference::device(), &x, false, reference::conditions()).ok()?;
    Some(e.device.point)
}

// A whole line: sixteen digits, one space, sixteen digits.
#[tactic(auto, using(std::proofs::lemmas::Bool::Decides::nat_tests), unfolding(crate::specs::Curve::point_of, crate::specs::Curve::both_read))]
pub fn point_of(line: &[u8]) -> Option<OperatingPoint>
    ensures { result ≡ point_of line.now }
{
    if line.len() != 33 || line[16] != b' ' {
        return None;
    }
    let vgs = hex_text::float_of(hex_text::bits_at(line, 0)?);
    let vds = hex_text::float_of(hex_text::bits_at(line, 17)?);
    point_at(vgs, vds)
}
