// A script's lists, comma separated, `-` the empty one, into lent slices. Each function answers how many places it filled, from the
// first on; nothing for a word that is no such list or has no room.
ghost use Rattle.std.specs.Prelude.{◌≡◌, ℕ, List, [], ◌∷◌, Option, min, length};
ghost use Rattle.std.specs.Option.{MatchOption};
ghost use Rattle.replay.specs.Lists.{items, count_of, filled_by, byte_in, byte_count_of, bytes_filled_by};
ghost use Rattle.replay.specs.Items.{number_in, whole_in, column_in, pair_of, offset_in, length_in};

use crate::script::number::{read_number, read_whole};
use crate::script::word::place_of;

// What can stand in a list.
pub trait Item: Copy {
    // what an item writes, or nothing
    ghost item: { List ℕ → Option Self };

    fn read(w: &[u8]) -> Option<Self>
        ensures { result ≡ item w.now };
}

impl Item for f64 {
    ghost item = { number_in };

    #[tactic(auto, unfolding(crate::specs::Items::number_in))]
    fn read(w: &[u8]) -> Option<f64> {
        read_number(w)
    }
}

impl Item for usize {
    ghost item = { whole_in };

    #[tactic(auto, unfolding(crate::specs::Items::whole_in))]
    fn read(w: &[u8]) -> Option<usize> {
        let x = read_whole(w)?;
        Some(x as usize)
    }
}

// A column has 32 bits.
impl Item for u32 {
    ghost item = { column_in };

    #[tactic(auto, using(std::proofs::lemmas::Bool::Decides::nat_tests), unfolding(crate::specs::Items::column_in, crate::specs::Items::in_column))]
    fn read(w: &[u8]) -> Option<u32> {
        u32::try_from(read_whole(w)?).ok()
    }
}

// The first item of a list, and what stands behind its comma.
fn first_item<'a>(w: &'a [u8]) -> (&'a [u8], Option<&'a [u8]>)
    ensures { MatchOption result.1 (items w.now ≡ result.0.now ∷ []) (λ s. items w.now ≡ result.0.now ∷ items s.now) }
{
    match place_of(w, b',') {
        Some(end) => (&w[..end], Some(&w[end + 1..])),
        None => (w, None),
    }
}

pub fn list<T: Item>(w: &[u8], out: &mut [T]) -> Option<usize>
    ensures value { result ≡ count_of T.item (length out.old) w.now }
    ensures out_after { out.new ≡ filled_by T.item (length out.old) out.old w.now }
{
    if w == b"-".as_slice() {
        return Some(0);
    }
    // the place is counted, since the count of the places is the answer
    let mut rest = w;
    for n in 0..out.len() {
        let (item, behind) = first_item(rest);
        out[n] = T::read(item)?;
        match behind {
            Some(s) => rest = s,
            None => return Some(n + 1),
        }
    }
    None
}

// An offset and a length, a colon between.
#[tactic(auto, unfolding(crate::specs::Items::pair_of, crate::specs::Number::on_both, crate::specs::Items::two_wholes))]
fn read_pair(w: &[u8]) -> Option<(usize, usize)>
    ensures { result ≡ pair_of w.now }
{
    let colon = place_of(w, b':')?;
    let offset = read_whole(&w[..colon])?;
    let length = read_whole(&w[colon + 1..])?;
    Some((offset as usize, length as usize))
}

// Pairs, the offsets and the lengths each from the first place on; a pair needs room in both.
pub fn pairs(w: &[u8], offsets: &mut [usize], lengths: &mut [usize]) -> Option<usize>
    ensures value { result ≡ count_of offset_in (min (length offsets.old) (length lengths.old)) w.now }
    ensures offsets_after { offsets.new ≡ filled_by offset_in (min (length offsets.old) (length lengths.old)) offsets.old w.now }
    ensures lengths_after { lengths.new ≡ filled_by length_in (min (length offsets.old) (length lengths.old)) lengths.old w.now }
{
    if w == b"-".as_slice() {
        return Some(0);
    }
    let mut rest = w;
    for n in 0..offsets.len().min(lengths.len()) {
        let (item, behind) = first_item(rest);
        let (offset, length) = read_pair(item)?;
        offsets[n] = offset;
        lengths[n] = length;
        match behind {
            Some(s) => rest = s,
            None => return Some(n + 1),
        }
    }
    None
}

// The byte of two hexadecimal digits.
#[tactic(auto, using(hex_text::proofs::Digits::digit_small), unfolding(crate::specs::Lists::byte_in, crate::specs::Lists::byte_from))]
fn byte_of(high: u8, low: u8) -> Option<u8>
    ensures { result ≡ byte_in (high ∷ low ∷ []) }
{
    let h = hex_text::digit(high)?;
    let l = hex_text::digit(low)?;
    Some((h * 16 + l) as u8)
}

// Bytes, two hexadecimal digits each and nothing between.
pub fn bytes(w: &[u8], out: &mut [u8]) -> Option<usize>
    ensures value { result ≡ byte_count_of (length out.old) w.now }
    ensures out_after { out.new ≡ bytes_filled_by out.old w.now }
{
    if w == b"-".as_slice() {
        return Some(0);
    }
    let count = w.len() / 2;
    if w.len() % 2 != 0 || out.len() < count {
        return None;
    }
    for i in 0..count {
        out[i] = byte_of(w[2 * i], w[2 * i + 1])?;
    }
    Some(count)
}
