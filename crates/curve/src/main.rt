// Reads lines of two floats by their bits, vgs and vds, and prints what the channel of the reference device carries there.
// A bad line ends the run. What is printed is stated in `curve_lines`: this program reads, calls it and writes.
#![tactic(auto)]

use curve_lines::Line;
use std::io;
use std::io::Read;

// The first n bytes to standard output. `get`: that n lies in out follows from what `curve_lines` promises, but `&out[..n]` found no proof.
fn write_first(rt: &impl Print, out: &[u8], n: usize) -> io::Result<()> {
    if let Some(text) = out.get(..n) {
        rt.write_all(text)?;
    }
    Ok(())
}

fn print_heading(rt: &impl Print) -> io::Result<()> {
    let mut out = [0u8; 96];
    let n = curve_lines::put_heading(&mut out);
    write_first(rt, &out, n)
}

// A piece of the input, 4,096 bytes at most: what is printed for it has room (`curve_lines`: `piece_whole`).
fn feed(rt: &impl Print, line: Line, s: &[u8]) -> io::Result<Option<Line>> {
    let mut next = Some(line);
    let mut out = [0u8; 16384];
    let n = curve_lines::feed_all(&mut next, s, &mut out);
    write_first(rt, &out, n)?;
    Ok(next)
}

// The input is over.
fn finish(rt: &impl Print, line: Line) -> io::Result<()> {
    let mut out = [0u8; 96];
    let n = curve_lines::last(Some(line), &mut out);
    write_first(rt, &out, n)
}

// What one read brings: the line that it leaves, none behind a bad line and at the end of the input.
fn read_some(rt: &impl Print, input: &mut impl Read, line: Line) -> io::Result<Option<Line>> {
    let mut buf = [0u8; 4096];
    let n = input.read(&mut buf)?;
    if n == 0 {
        finish(rt, line)?;
        return Ok(None);
    }
    feed(rt, line, &buf[..n])
}

// A proved loop has to end, and nothing says that the input does: no run uses the turns up.
fn run(rt: &impl Print, input: &mut impl Read) -> io::Result<()> {
    let mut next = Some(curve_lines::new_line());
    for _ in 0..u64::MAX {
        let Some(line) = next else {
            break;
        };
        next = read_some(rt, input, line)?;
    }
    Ok(())
}

// A read or a write that fails ends the program with the error.
fn main(rt: HostRuntime) -> io::Result<()> {
    print_heading(&rt)?;
    run(&rt, &mut rt.stdin())
}
