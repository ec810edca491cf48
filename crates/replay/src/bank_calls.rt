// The bank of devices, and the loads of a block and of a whole bridge by the words of a line.
use crate::load_calls::{kind, pattern, put_load};
use crate::prefixes::first;
use crate::readings::{filled, pairs_filled, whole};
use crate::replies::{Fault, Session, accepted, put_name, words_of};
use crate::script::word::from_word;

// A word that is a whole number below `most`.
fn below(line: &[u8], k: usize, most: u64) -> Result<usize, Fault> {
    let n = whole(line, k)?;
    if n >= most {
        return Err(Fault::Bad);
    }
    Ok(n as usize)
}

// `place I`. The last place of the bank is never written: a count of 65 reaches it, which is one more than a bank has.
pub fn place(
    session: &Session,
    bank: &mut [[f64; 113]; 65],
    line: &[u8],
    out: &mut [u8],
) -> Result<usize, Fault> {
    let i = below(line, 1, 64)?;
    // `below` promises nothing, so the place is tested again
    if i < 64 {
        bank[i] = words_of(session);
    }
    Ok(put_name(out, line))
}

// `COUNT RUNS dc|tran:ALPHA RHS COLUMNS ROWS VALUES` at a line's end: the load of a block, or of the whole bridge where there is none.
fn load(
    bank: &[[f64; 113]],
    block: Option<usize>,
    line: &[u8],
    words: &[u8],
    out: &mut [u8],
) -> Result<usize, Fault> {
    let mut starts = [0usize; 4096];
    let mut counts = [0usize; 4096];
    let mut rhs = [0.0; 4096];
    let mut columns = [0u32; 4096];
    let mut offsets = [0usize; 4096];
    let mut lengths = [0usize; 4096];
    let mut values = [0.0; 4096];
    let devices = below(words, 0, 66)?;
    let runs = pairs_filled(words, 1, &mut starts, &mut counts)?;
    let kind = kind(words, 2)?;
    let numbers = filled(words, 3, &mut rhs)?;
    let p = pattern(words, 4, &mut columns, &mut offsets, &mut lengths)?;
    let count = filled(words, 6, &mut values)?;
    let row = match block {
        Some(block) => mivtolgya_bridge::mivtolgya_load_block(
            first(bank, devices),
            block,
            first(&starts, runs),
            first(&counts, runs),
            kind.transient,
            kind.alpha,
            &mut rhs[..numbers.min(4096)],
            &mut values[..count.min(4096)],
            first(&columns, p.cells),
            first(&offsets, p.rows),
            first(&lengths, p.rows),
        ),
        None => mivtolgya_bridge::mivtolgya_load_bridge(
            first(bank, devices),
            first(&starts, runs),
            first(&counts, runs),
            kind.transient,
            kind.alpha,
            &mut rhs[..numbers.min(4096)],
            &mut values[..count.min(4096)],
            first(&columns, p.cells),
            first(&offsets, p.rows),
            first(&lengths, p.rows),
        ),
    };
    accepted(row)?;
    Ok(put_load(out, line, first(&rhs, numbers), first(&values, count)))
}

// `loadblock K COUNT RUNS ..`
pub fn load_block(bank: &[[f64; 113]], line: &[u8], out: &mut [u8]) -> Result<usize, Fault> {
    let block = whole(line, 1)? as usize;
    load(bank, Some(block), line, from_word(line, 2), out)
}

// `loadbridge COUNT RUNS ..`
pub fn load_bridge(bank: &[[f64; 113]], line: &[u8], out: &mut [u8]) -> Result<usize, Fault> {
    load(bank, None, line, from_word(line, 1), out)
}
