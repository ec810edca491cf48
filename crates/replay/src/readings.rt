// What the words of a line write; a word that writes no such thing makes the line bad.
use crate::replies::Fault;
use crate::script::number::{read_method, read_node, read_number, read_whole};
use crate::script::word::word;
use crate::script_lists::{Item, list, pairs};
use device::Discretisation;
use record::NodeRecord;

pub fn number(line: &[u8], k: usize) -> Result<f64, Fault> {
    read_number(word(line, k)).ok_or(Fault::Bad)
}

pub fn whole(line: &[u8], k: usize) -> Result<u64, Fault> {
    read_whole(word(line, k)).ok_or(Fault::Bad)
}

pub fn method(line: &[u8], k: usize) -> Result<Discretisation, Fault> {
    read_method(word(line, k)).ok_or(Fault::Bad)
}

pub fn node(line: &[u8], k: usize) -> Result<NodeRecord, Fault> {
    let node = read_node(word(line, k)).ok_or(Fault::Bad)?;
    Ok(record::node_record(node))
}

// Which of two words stands there: whether it is the second.
pub fn choice(line: &[u8], k: usize, first: &[u8], second: &[u8]) -> Result<bool, Fault> {
    let w = word(line, k);
    if w == first {
        return Ok(false);
    }
    if w == second {
        return Ok(true);
    }
    Err(Fault::Bad)
}

// How many places the list of a word fills.
pub fn filled<T: Item>(line: &[u8], k: usize, out: &mut [T]) -> Result<usize, Fault> {
    list(word(line, k), out).ok_or(Fault::Bad)
}

pub fn pairs_filled(
    line: &[u8],
    k: usize,
    offsets: &mut [usize],
    lengths: &mut [usize],
) -> Result<usize, Fault> {
    pairs(word(line, k), offsets, lengths).ok_or(Fault::Bad)
}
