// What is kept between two lines, and the texts that several commands answer.
use crate::answers::{put_behind, put_between, put_node};
use crate::script::word::word;
use device::{NodeId, Refusal};
use from_record::node_from;
use record_small_signal::{NoiseOutcome, ReactanceRecord, ReactancesOutcome};

// What is kept between two lines: the device, if a card was accepted, and the cells of the last `resolve` that was. The device is kept
// as its 113 words: to the checker they are one list, where the device itself is a hundred fields. Before any card calls are tested on
// `first`, the device of a card with no keys, and none is accepted.
#[derive(Clone, Copy)]
pub struct Session {
    pub first: [f64; 113],
    pub device: Option<[f64; 113]>,
    pub cells: Option<[usize; 37]>,
}

// The session before any call.
pub fn first_session(first: [f64; 113]) -> Session {
    Session {
        first,
        device: None,
        cells: None,
    }
}

// The device that calls are made on.
pub fn words_of(session: &Session) -> [f64; 113] {
    session.device.unwrap_or(session.first)
}

// Why a line has no answer of its own: its words are not understood, or a row refuses its call.
#[derive(Clone, Copy)]
pub enum Fault {
    Bad,
    Refused(u64),
}

// The refusal that a record's function answers, 0 for none. 100 is a tag that the library does not know.
pub fn accepted(row: u64) -> Result<(), Fault> {
    match row {
        0 => Ok(()),
        100 => Err(Fault::Bad),
        _ => Err(Fault::Refused(row)),
    }
}

impl From<Refusal> for Fault {
    fn from(refusal: Refusal) -> Fault {
        match refusal {
            Refusal::Tag => Fault::Bad,
            _ => Fault::Refused(record::wide(u8::from(refusal))),
        }
    }
}

pub fn put_fault(out: &mut [u8], fault: Fault) -> usize {
    match fault {
        Fault::Bad => hex_text::put_text(out, 0, b"bad"),
        Fault::Refused(row) => {
            let n = hex_text::put_text(out, 0, b"refused");
            put_behind(out, n, b" ", row)
        }
    }
}

// A line's command, which is the answer of a call that has no other.
pub fn put_name(out: &mut [u8], line: &[u8]) -> usize {
    hex_text::put_text(out, 0, word(line, 0))
}

fn put_next_node(out: &mut [u8], at: usize, node: NodeId) -> usize {
    let n = hex_text::put_text(out, at, b" ");
    put_node(out, n, node)
}

pub fn put_bound(out: &mut [u8], extra: usize, drain: NodeId, source: NodeId) -> usize {
    let a = hex_text::put_text(out, 0, b"bind");
    let b = put_behind(out, a, b" ", extra);
    let c = put_next_node(out, b, drain);
    put_next_node(out, c, source)
}

fn put_reactance(out: &mut [u8], at: usize, r: ReactanceRecord) -> usize {
    if r.tag == 0 {
        return at;
    }
    put_between(out, at, node_from(r.pos), node_from(r.neg), r.capacitance)
}

pub fn put_reactances(out: &mut [u8], o: ReactancesOutcome) -> usize {
    let a = hex_text::put_text(out, 0, b"reactances");
    let b = put_reactance(out, a, o.gs);
    let c = put_reactance(out, b, o.gd);
    let d = put_reactance(out, c, o.gb);
    let e = put_reactance(out, d, o.bs);
    put_reactance(out, e, o.bd)
}

pub fn put_noise(out: &mut [u8], o: NoiseOutcome) -> usize {
    let n = hex_text::put_text(out, 0, b"noise");
    if o.tag == 0 {
        return n;
    }
    put_between(out, n, node_from(o.drain), node_from(o.source), o.density)
}
