// The line that `curve` prints for a point of the channel.
#![tactic(auto)]

ghost use Rattle.std.specs.Prelude.{◌≡◌, length};
ghost use Rattle.hex_text.specs.Text.{end_of, text_at};
ghost use Rattle.curve_text.specs.Answer.{column, point_text, answer_text};

use device::OperatingPoint;

// A number and the byte behind it. What is written stands in a lent buffer with a place, as `hex_text` writes: its contracts say both.
#[tactic(auto, using(hex_text::proofs::Joining::end_append, hex_text::proofs::Joining::text_append, hex_text::proofs::Joining::length_text), unfolding(crate::specs::Answer::column))]
fn put_column(out: &mut [u8], at: usize, x: f64, behind: &[u8]) -> usize
    ensures value { result ≡ end_of (length out.old) at (column x behind.now) }
    ensures out_after { out.new ≡ text_at out.old at (column x behind.now) }
{
    let n = hex_text::put_number(out, at, x);
    hex_text::put_text(out, n, behind)
}

#[tactic(auto, using(hex_text::proofs::Joining::end_append, hex_text::proofs::Joining::text_append, hex_text::proofs::Joining::length_text), unfolding(crate::specs::Answer::point_text))]
fn put_point(out: &mut [u8], at: usize, p: OperatingPoint) -> usize
    ensures value { result ≡ end_of (length out.old) at (point_text p) }
    ensures out_after { out.new ≡ text_at out.old at (point_text p) }
{
    let a = put_column(out, at, p.ids_eval, b" ");
    let b = put_column(out, a, p.gm, b" ");
    let c = put_column(out, b, p.gds, b" ");
    let d = put_column(out, c, p.gmbs, b" ");
    put_column(out, d, p.jeq, b"\n")
}

// The answer line of a point, from at on.
#[tactic(auto, unfolding(crate::specs::Answer::answer_text))]
pub fn put_answer(out: &mut [u8], at: usize, p: Option<OperatingPoint>) -> usize
    ensures value { result ≡ end_of (length out.old) at (answer_text p) }
    ensures out_after { out.new ≡ text_at out.old at (answer_text p) }
{
    match p {
        Some(q) => put_point(out, at, q),
        None => hex_text::put_text(out, at, b"bad\n"),
    }
}
