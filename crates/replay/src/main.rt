// Runs a script of calls: reads a command a line and writes an answer line for each, beside which the Rust's answers can be held.
#![tactic(auto)]

mod answers;
mod bank_calls;
mod command;
mod commands;
mod device_calls;
mod device_text;
mod device_words;
mod function_calls;
mod key_calls;
mod key_lists;
mod layout_calls;
mod load_calls;
mod prefixes;
mod readings;
mod replies;
mod script;
mod script_lists;

use crate::prefixes::first;
use crate::replies::Session;
use crate::script::word::place_of;
use record_words::{record_of, words_of};
use std::io;
use std::io::Read;

// Where the reading is: at the place `at` of the n bytes that the last read brought. The reading knows nothing of the session.
#[derive(Clone, Copy)]
pub struct Reading {
    pub at: usize,
    pub n: usize,
}

// How many bytes the next line has, up to its newline, or up to the end of the input, and where the reading is behind it; nowhere where
// the input is over. A line that is too long fills the buffer, which has room for a byte more than a line has: what has no room is left
// out. A proved loop has to end, and nothing says that the input does.
fn next_line(
    input: &mut impl Read,
    last: Reading,
    buf: &mut [u8; 65536],
    line: &mut [u8; 65537],
) -> io::Result<(usize, Option<Reading>)> {
    let mut at = last.at;
    let mut n = last.n;
    let mut len = 0;
    for _ in 0..u64::MAX {
        let read = first(buf, n);
        let rest = &read[at.min(read.len())..];
        match place_of(rest, b'\n') {
            Some(end) => {
                len = hex_text::put_text(line, len, &rest[..end]);
                let at = at.saturating_add(end + 1);
                return Ok((len, Some(Reading { at, n })));
            }
            None => len = hex_text::put_text(line, len, rest),
        }
        at = 0;
        n = input.read(buf)?;
        if n == 0 {
            break;
        }
    }
    Ok((len, None))
}

// The first n bytes and a newline to standard output; nothing where n is 0.
fn write_line(rt: &impl Print, out: &mut [u8], n: usize) -> io::Result<()> {
    if n == 0 {
        return Ok(());
    }
    let end = hex_text::put_text(out, n, b"\n");
    rt.write_all(first(out, end))
}

// The line's first len bytes are answered.
fn answer_line(
    rt: &impl Print,
    session: &mut Session,
    bank: &mut [[f64; 113]; 65],
    line: &[u8],
) -> io::Result<()> {
    let mut out = [0u8; 163840];
    let end = commands::answer(session, bank, line, &mut out);
    write_line(rt, &mut out, end)
}

// The bank of devices is held beside the session: of 64 places, and one more that is never written.
fn run(rt: &impl Print, input: &mut impl Read, words: [f64; 113]) -> io::Result<()> {
    let mut session = replies::first_session(words);
    let mut bank = [words; 65];
    let mut buf = [0u8; 65536];
    let mut line = [0u8; 65537];
    let mut reading = Reading { at: 0, n: 0 };
    for _ in 0..u64::MAX {
        let (len, behind) = next_line(input, reading, &mut buf, &mut line)?;
        answer_line(rt, &mut session, &mut bank, first(&line, len))?;
        match behind {
            Some(r) => reading = r,
            None => break,
        }
    }
    Ok(())
}

// The first device is that of a card with no keys, which is never refused; the record before a card is not looked at.
// A read or a write that fails ends the program with the error.
fn main(rt: HostRuntime) -> io::Result<()> {
    let nothing = [0.0; 113];
    let o = record_card::from_model_params(record_of(&nothing), 0, &[], &[], &[], &[], &mut []);
    run(&rt, &mut rt.stdin(), words_of(o.device))
}
