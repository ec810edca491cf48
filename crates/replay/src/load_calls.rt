// Loads by the words of a line, and the lookup of a load's cells.
use crate::answers::put_list;
use crate::device_words::device_of;
use crate::prefixes::first;
use crate::readings::{filled, pairs_filled};
use crate::replies::{Fault, Session, accepted, put_name, words_of};
use crate::script::number::read_number;
use crate::script::word::word;
use pattern::Pattern;
use record_words::record_of;

// Direct current, 0, or transient, 1, with its alpha.
#[derive(Clone, Copy)]
pub struct LoadKind {
    pub transient: u64,
    pub alpha: f64,
}

// `dc` or `tran:ALPHA`
pub fn kind(line: &[u8], k: usize) -> Result<LoadKind, Fault> {
    let w = word(line, k);
    if w == b"dc".as_slice() {
        return Ok(LoadKind {
            transient: 0,
            alpha: 0.0,
        });
    }
    let alpha = w
        .strip_prefix(b"tran:".as_slice())
        .and_then(|a| read_number(a))
        .ok_or(Fault::Bad)?;
    Ok(LoadKind {
        transient: 1,
        alpha,
    })
}

// How many columns and rows of a pattern are filled.
#[derive(Clone, Copy)]
pub struct Filled {
    pub cells: usize,
    pub rows: usize,
}

// A pattern by two words from k on.
pub fn pattern(
    line: &[u8],
    k: usize,
    columns: &mut [u32],
    offsets: &mut [usize],
    lengths: &mut [usize],
) -> Result<Filled, Fault> {
    let cells = filled(line, k, columns)?;
    let rows = pairs_filled(line, k.saturating_add(1), offsets, lengths)?;
    Ok(Filled { cells, rows })
}

// The command and both slices whole, from the start of out on.
pub fn put_load(out: &mut [u8], line: &[u8], rhs: &[f64], values: &[f64]) -> usize {
    let n = put_name(out, line);
    let m = put_list(out, n, rhs);
    put_list(out, m, values)
}

// `load dc|tran:ALPHA RHS COLUMNS ROWS VALUES`
pub fn load(session: &Session, line: &[u8], out: &mut [u8]) -> Result<usize, Fault> {
    let mut rhs = [0.0; 4096];
    let mut columns = [0u32; 4096];
    let mut offsets = [0usize; 4096];
    let mut lengths = [0usize; 4096];
    let mut values = [0.0; 4096];
    let kind = kind(line, 1)?;
    let numbers = filled(line, 2, &mut rhs)?;
    let p = pattern(line, 3, &mut columns, &mut offsets, &mut lengths)?;
    let count = filled(line, 5, &mut values)?;
    let row = record_loading::load(
        record_of(&words_of(session)),
        kind.transient,
        kind.alpha,
        &mut rhs[..numbers.min(4096)],
        &mut values[..count.min(4096)],
        first(&columns, p.cells),
        first(&offsets, p.rows),
        first(&lengths, p.rows),
    );
    accepted(row)?;
    Ok(put_load(out, line, first(&rhs, numbers), first(&values, count)))
}

// The device itself stands only here and in `loaded`: with its hundred fields in a longer function the check takes minutes.
fn looked_up(words: [f64; 113], pattern: Pattern<'_>) -> Result<[usize; 37], Fault> {
    Ok(resolve::resolve(device_of(&words), pattern)?)
}

// `resolve COLUMNS ROWS`. The cells that were looked up are kept. A refusal keeps those from before.
pub fn resolve(session: &mut Session, line: &[u8], out: &mut [u8]) -> Result<usize, Fault> {
    let mut columns = [0u32; 4096];
    let mut offsets = [0usize; 4096];
    let mut lengths = [0usize; 4096];
    let p = pattern(line, 1, &mut columns, &mut offsets, &mut lengths)?;
    let pattern = Pattern {
        columns: first(&columns, p.cells),
        offsets: first(&offsets, p.rows),
        lengths: first(&lengths, p.rows),
    };
    session.cells = Some(looked_up(words_of(session), pattern)?);
    Ok(put_name(out, line))
}

fn loaded(
    words: [f64; 113],
    kind: LoadKind,
    cells: &[usize; 37],
    rhs: &mut [f64],
    values: &mut [f64],
) -> Result<(), Fault> {
    let kind = record_loading::kind_from(kind.transient, kind.alpha);
    Ok(charges_resolved::load_resolved(device_of(&words), kind, cells, rhs, values)?)
}

// `loadresolved dc|tran:ALPHA RHS VALUES`; bad where no cells are kept
pub fn load_resolved(session: &Session, line: &[u8], out: &mut [u8]) -> Result<usize, Fault> {
    let mut rhs = [0.0; 4096];
    let mut values = [0.0; 4096];
    let kind = kind(line, 1)?;
    let numbers = filled(line, 2, &mut rhs)?;
    let count = filled(line, 3, &mut values)?;
    let cells = session.cells.ok_or(Fault::Bad)?;
    loaded(
        words_of(session),
        kind,
        &cells,
        &mut rhs[..numbers.min(4096)],
        &mut values[..count.min(4096)],
    )?;
    Ok(put_load(out, line, first(&rhs, numbers), first(&values, count)))
}
