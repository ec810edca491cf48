// The keys of a line, in lent lists: where they are in the lent bytes and how long, and their values.
use crate::readings::{filled, pairs_filled, whole};
use crate::replies::Fault;
use crate::script::number::read_number;
use crate::script::word::{place_of, word, word_count};

// How many places of the lists are filled, and how many unknown keys there is room for.
#[derive(Clone, Copy)]
pub struct KeysFilled {
    pub bytes: usize,
    pub pairs: usize,
    pub values: usize,
    pub room: usize,
}

// The key of a word `KEY=HEX`, and its value.
fn key<'a>(w: &'a [u8]) -> Option<(&'a [u8], f64)> {
    let end = place_of(w, b'=')?;
    let x = read_number(&w[end + 1..])?;
    Some((&w[..end], x))
}

// The words from k on, each `KEY=HEX`: their keys are laid end to end. There are 4,096 keys at most, and there is room for all.
pub fn key_words(
    line: &[u8],
    k: usize,
    bytes: &mut [u8],
    offsets: &mut [usize; 4096],
    lengths: &mut [usize; 4096],
    values: &mut [f64; 4096],
) -> Result<KeysFilled, Fault> {
    let mut used = 0;
    let mut count = 0;
    for (n, w) in line
        .split(|b| *b == b' ')
        .filter(|w| !w.is_empty())
        .skip(k)
        .enumerate()
    {
        if n >= 4096 {
            return Err(Fault::Bad);
        }
        let (name, x) = key(w).ok_or(Fault::Bad)?;
        offsets[n] = used;
        lengths[n] = name.len();
        values[n] = x;
        used = hex_text::put_text(bytes, used, name);
        count = n + 1;
    }
    Ok(KeysFilled {
        bytes: used,
        pairs: count,
        values: count,
        room: 4096,
    })
}

// The raw form has four words from k on: the room, the bytes, where the keys are, and the values. More room than there are keys
// changes nothing.
pub fn raw_words(
    line: &[u8],
    k: usize,
    bytes: &mut [u8],
    offsets: &mut [usize],
    lengths: &mut [usize],
    values: &mut [f64],
) -> Result<KeysFilled, Fault> {
    if word_count(line).saturating_sub(k) != 4 {
        return Err(Fault::Bad);
    }
    let room = whole(line, k)?.min(4096) as usize;
    Ok(KeysFilled {
        room,
        bytes: crate::script_lists::bytes(word(line, k.saturating_add(1)), bytes).ok_or(
            Fault::Bad,
        )?,
        pairs: pairs_filled(line, k.saturating_add(2), offsets, lengths)?,
        values: filled(line, k.saturating_add(3), values)?,
    })
}
