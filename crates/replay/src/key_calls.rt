// Card and geometry by the words of a line.
use crate::answers::put_each;
use crate::key_lists::{key_words, raw_words};
use crate::prefixes::first;
use crate::readings::choice;
use crate::replies::{Fault, Session, accepted, words_of};
use record_words::{record_of, words_of as words_from};

// The polarity of a card, 0 or 1.
fn polarity(line: &[u8]) -> Result<u64, Fault> {
    let is_p = choice(line, 1, b"n", b"p")?;
    Ok(u64::from(is_p))
}

// `card n|p KEY=HEX ..`, or `cardraw n|p ROOM BYTES PAIRS VALUES`: the places of the unknown keys are answered
pub fn card(session: &mut Session, raw: bool, line: &[u8], out: &mut [u8]) -> Result<usize, Fault> {
    let mut bytes = [0u8; 65536];
    let mut offsets = [0usize; 4096];
    let mut lengths = [0usize; 4096];
    let mut values = [0.0; 4096];
    let mut unknown = [0usize; 4096];
    let polarity = polarity(line)?;
    let n = if raw {
        raw_words(line, 2, &mut bytes, &mut offsets, &mut lengths, &mut values)?
    } else {
        key_words(line, 2, &mut bytes, &mut offsets, &mut lengths, &mut values)?
    };
    let o = record_card::from_model_params(
        record_of(&words_of(session)),
        polarity,
        first(&bytes, n.bytes),
        first(&offsets, n.pairs),
        first(&lengths, n.pairs),
        first(&values, n.values),
        &mut unknown[..n.room.min(4096)],
    );
    accepted(o.refusal)?;
    session.device = Some(words_from(o.device));
    let end = hex_text::put_text(out, 0, b"card");
    Ok(put_each(out, end, b" ", first(&unknown, o.unknown)))
}

// `geometry KEY=HEX ..`, or `geometryraw ROOM BYTES PAIRS VALUES`, likewise; a session without a device accepts none
pub fn geometry(
    session: &mut Session,
    raw: bool,
    line: &[u8],
    out: &mut [u8],
) -> Result<usize, Fault> {
    let mut bytes = [0u8; 65536];
    let mut offsets = [0usize; 4096];
    let mut lengths = [0usize; 4096];
    let mut values = [0.0; 4096];
    let mut unknown = [0usize; 4096];
    let n = if raw {
        raw_words(line, 1, &mut bytes, &mut offsets, &mut lengths, &mut values)?
    } else {
        key_words(line, 1, &mut bytes, &mut offsets, &mut lengths, &mut values)?
    };
    let o = record_card::set_instance_params(
        record_of(&words_of(session)),
        first(&bytes, n.bytes),
        first(&offsets, n.pairs),
        first(&lengths, n.pairs),
        first(&values, n.values),
        &mut unknown[..n.room.min(4096)],
    );
    accepted(o.refusal)?;
    if session.device.is_none() {
        return Err(Fault::Refused(10));
    }
    session.device = Some(words_from(o.device));
    let end = hex_text::put_text(out, 0, b"geometry");
    Ok(put_each(out, end, b" ", first(&unknown, o.unknown)))
}
