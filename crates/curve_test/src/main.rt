// What `curve` makes of single lines, bad ones above all: each is answered as if it stood alone. Then what it prints for whole inputs.
#![tactic(auto)]

use std::io;

fn show(rt: &impl Print, line: &[u8]) -> io::Result<()> {
    let p = channel_curve::point_of(line);
    let mut out = [0u8; 96];
    let n = curve_text::put_answer(&mut out, 0, p);
    write_first(rt, &out, n)
}

// The first n bytes to standard output, by `get` as in `curve`.
fn write_first(rt: &impl Print, out: &[u8], n: usize) -> io::Result<()> {
    if let Some(text) = out.get(..n) {
        rt.write_all(text)?;
    }
    Ok(())
}

fn wrong_length(rt: &impl Print) -> io::Result<()> {
    show(rt, b"")?;
    show(rt, b"4008000000000000")?;
    show(rt, b"4008000000000000 3ff000000000000")?;
    show(rt, b"4008000000000000 3ff00000000000000")?;
    show(rt, b"4008000000000000 3ff0000000000000 ")?;
    show(rt, b"4008000000000000 3ff0000000000000\r")?;
    show(rt, b" 4008000000000000 3ff0000000000000")?;
    show(rt, b"4008000000000000  3ff0000000000000")?;
    show(rt, b"4008000000000000 3ff0000000000000 x")
}

fn wrong_bytes(rt: &impl Print) -> io::Result<()> {
    show(rt, b"400800000000000A 3ff0000000000000")?;
    show(rt, b"4008000000000000 3FF0000000000000")?;
    show(rt, b"400800000000000g 3ff0000000000000")?;
    show(rt, b"4008000000000000 3ff000000000000-")?;
    show(rt, b"4008000000000000\t3ff0000000000000")?;
    show(rt, b"4008000000000000,3ff0000000000000")?;
    show(rt, b"40080000000000003 ff0000000000000 ")?;
    show(rt, b"400800000000000  3ff0000000000000 ")
}

fn out_of_range(rt: &impl Print) -> io::Result<()> {
    show(rt, b"408f400000000001 3ff0000000000000")?;
    show(rt, b"4008000000000000 408f400000000001")?;
    show(rt, b"c08f400000000001 3ff0000000000000")?;
    show(rt, b"7ff0000000000000 3ff0000000000000")?;
    show(rt, b"4008000000000000 fff0000000000000")?;
    show(rt, b"7ff8000000000000 3ff0000000000000")?;
    show(rt, b"4008000000000000 7ff0000000000001")
}

fn good(rt: &impl Print) -> io::Result<()> {
    show(rt, b"4008000000000000 3ff0000000000000")?;
    show(rt, b"408f400000000000 408f400000000000")?;
    show(rt, b"c08f400000000000 c08f400000000000")?;
    show(rt, b"0000000000000000 8000000000000000")
}

// An input that comes in two pieces.
fn run(rt: &impl Print, first: &[u8], second: &[u8]) -> io::Result<()> {
    let mut out = [0u8; 1024];
    let heading = curve_lines::put_heading(&mut out);
    write_first(rt, &out, heading)?;
    let mut line = Some(curve_lines::new_line());
    let a = curve_lines::feed_all(&mut line, first, &mut out);
    write_first(rt, &out, a)?;
    let b = curve_lines::feed_all(&mut line, second, &mut out);
    write_first(rt, &out, b)?;
    let end = curve_lines::last(line, &mut out);
    write_first(rt, &out, end)
}

// Each fault behind a good line and before another.
fn faults(rt: &impl Print) -> io::Result<()> {
    run(
        rt,
        b"4008000000000000 3ff0000000000000\n4008000000000000 3ff00000000000000\n",
        b"4008000000000000 3ff0000000000000\n",
    )?;
    run(
        rt,
        b"4008000000000000 3ff0000000000000\n4008000000000000 3ff0000000000000\r\n",
        b"4008000000000000 3ff0000000000000\n",
    )?;
    run(
        rt,
        b"4008000000000000 3ff0000000000000\n4008000000000000 3ff0000000000000 and more than that\n",
        b"4008000000000000 3ff0000000000000\n",
    )?;
    run(
        rt,
        b"4008000000000000 3ff0000000000000\n\n",
        b"4008000000000000 3ff0000000000000\n",
    )
}

// A last line without a newline, a good one and a bad one; an input that is cut within a line; none at all.
fn ends(rt: &impl Print) -> io::Result<()> {
    run(
        rt,
        b"4008000000000000 3ff0000000000000\n",
        b"408f400000000000 408f400000000000",
    )?;
    run(
        rt,
        b"4008000000000000 3ff0000000000000\n",
        b"408f400000000000 408f40000000000",
    )?;
    run(
        rt,
        b"4008000000000000 3ff00000000",
        b"00000\n408f400000000000 408f400000000000\n",
    )?;
    run(rt, b"", b"")
}

// A write that fails ends the program with the error.
fn main(rt: HostRuntime) -> io::Result<()> {
    wrong_length(&rt)?;
    wrong_bytes(&rt)?;
    out_of_range(&rt)?;
    good(&rt)?;
    faults(&rt)?;
    ends(&rt)
}
