// The input of `curve` cut into lines, and what is printed for them: whatever the pieces in which the input comes, together they
// print what `printed` says. Text goes into a lent buffer with a place in it, as `hex_text` writes: its contracts speak of both.
#![tactic(auto)]

ghost use Rattle.std.specs.Prelude.{◌≡◌, length};
ghost use Rattle.hex_text.specs.Text.{end_of, text_at};
ghost use Rattle.channel_curve.specs.Curve.{point_of};
ghost use Rattle.curve_lines.specs.Printed.{heading};
ghost use Rattle.curve_lines.specs.Pieces.{new_line, kept, longer_line, line_after, text_after, line_of, text_of, last_text};

use device::OperatingPoint;

// The line that is being read: its first bytes, and how many there are (34 stands for more than a good line has). An array with
// its length: what a run needs of memory is fixed, and no byte behind the 34th counts.
#[derive(Clone, Copy)]
pub struct Line {
    pub bytes: [u8; 34],
    pub len: usize,
}

// The first line of the output.
#[tactic(auto, unfolding(crate::specs::Printed::heading))]
pub fn put_heading(out: &mut [u8]) -> usize
    ensures value { result ≡ end_of (length out.old) 0 heading }
    ensures out_after { out.new ≡ text_at out.old 0 heading }
{
    hex_text::put_text(out, 0, b"ids gm gds gmbs jeq\n")
}

// No byte of a line is read.
#[tactic(auto, unfolding(crate::specs::Pieces::new_line))]
pub fn new_line() -> Line
    ensures { result ≡ new_line }
{
    Line {
        bytes: [0; 34],
        len: 0,
    }
}

// What the bytes give that are read of a line.
#[tactic(auto, using(std::proofs::lemmas::List::take_all), unfolding(crate::specs::Pieces::kept))]
fn point_in(line: &Line) -> Option<OperatingPoint>
    ensures { result ≡ point_of (kept line.now) }
{
    channel_curve::point_of(line.bytes.get(..line.len).unwrap_or(&line.bytes))
}

// One byte more of a line that goes on; the bytes behind the 34th are left out.
#[tactic(auto, using(std::proofs::lemmas::Bool::Decides::nat_tests), unfolding(crate::specs::Pieces::longer_line))]
fn longer(line: &mut Line, b: u8)
    ensures { line.new ≡ longer_line line.old b }
{
    if line.len < 34 {
        line.bytes[line.len] = b;
        line.len += 1;
    }
}

// One byte of the input: a newline ends the line, and its answer is written from at on. No line, once a bad one has ended the run.
#[tactic(auto, using(std::proofs::lemmas::Bool::Decides::nat_tests), unfolding(crate::specs::Pieces::line_after, crate::specs::Pieces::text_after, crate::specs::Pieces::line_behind, hex_text::specs::Text::end_of, hex_text::specs::Text::text_at))]
fn feed(line: &mut Option<Line>, b: u8, at: usize, out: &mut [u8]) -> usize
    ensures line_value { line.new ≡ line_after line.old b }
    ensures end_value { result ≡ end_of (length out.old) at (text_after line.old b) }
    ensures out_after { out.new ≡ text_at out.old at (text_after line.old b) }
{
    let Some(current) = line else {
        return at;
    };
    if b != b'\n' {
        longer(current, b);
        return at;
    }
    let p = point_in(current);
    *line = p.map(|_| new_line());
    curve_text::put_answer(out, at, p)
}

// A piece of the input: what is printed for it stands in out from its start on.
#[tactic(auto, using(std::proofs::lemmas::List::drop_more, std::proofs::lemmas::List::drop_all, hex_text::proofs::Joining::end_append, hex_text::proofs::Joining::text_append, hex_text::proofs::Joining::length_text), unfolding(crate::specs::Pieces::line_of, crate::specs::Pieces::text_of, hex_text::specs::Text::end_of, hex_text::specs::Text::text_at))]
pub fn feed_all(line: &mut Option<Line>, s: &[u8], out: &mut [u8]) -> usize
    ensures line_value { line.new ≡ line_of line.old s.now }
    ensures end_value { result ≡ end_of (length out.old) 0 (text_of line.old s.now) }
    ensures out_after { out.new ≡ text_at out.old 0 (text_of line.old s.now) }
{
    let mut end = 0;
    for &b in s {
        end = feed(line, b, end, out);
    }
    end
}

// The input is over: a last line without a newline is a line.
#[tactic(auto, using(std::proofs::lemmas::Bool::Decides::nat_tests), unfolding(crate::specs::Pieces::last_text, hex_text::specs::Text::end_of, hex_text::specs::Text::text_at))]
pub fn last(line: Option<Line>, out: &mut [u8]) -> usize
    ensures value { result ≡ end_of (length out.old) 0 (last_text line) }
    ensures out_after { out.new ≡ text_at out.old 0 (last_text line) }
{
    match line {
        Some(line) if line.len != 0 => curve_text::put_answer(out, 0, point_in(&line)),
        _ => 0,
    }
}
