// The extra nodes of the present device and the layout of its matrix, by the words of a line.
use crate::answers::{put_behind, put_list};
use crate::prefixes::first;
use crate::readings::filled;
use crate::replies::{Fault, Session, accepted, words_of};
use record_words::record_of;

// `extra`
pub fn extra(session: &Session, out: &mut [u8]) -> Result<usize, Fault> {
    let o = record_layout::extra_nodes(record_of(&words_of(session)));
    accepted(o.refusal)?;
    let n = hex_text::put_text(out, 0, b"extra");
    Ok(put_behind(out, n, b" ", o.count))
}

// `cells COLUMNS OFFSETS LENGTHS`: the needed lengths, then the three slices whole
pub fn cells(session: &Session, line: &[u8], out: &mut [u8]) -> Result<usize, Fault> {
    let mut columns = [0u32; 4096];
    let mut offsets = [0usize; 4096];
    let mut lengths = [0usize; 4096];
    let a = filled(line, 1, &mut columns)?;
    let b = filled(line, 2, &mut offsets)?;
    let c = filled(line, 3, &mut lengths)?;
    let o = record_layout::matrix_layout(
        record_of(&words_of(session)),
        &mut columns[..a.min(4096)],
        &mut offsets[..b.min(4096)],
        &mut lengths[..c.min(4096)],
    );
    accepted(o.refusal)?;
    let d = hex_text::put_text(out, 0, b"cells");
    let e = put_behind(out, d, b" ", o.columns);
    let f = put_behind(out, e, b" ", o.rows);
    let g = put_list(out, f, first(&columns, a));
    let h = put_list(out, g, first(&offsets, b));
    Ok(put_list(out, h, first(&lengths, c)))
}
