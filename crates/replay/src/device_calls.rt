// Scaling, binding, evaluation, commit, noise and reactances by the words of a line.
use crate::answers::put_each;
use crate::device_words;
use crate::prefixes::first;
use crate::readings::{choice, filled, method, node, number, whole};
use crate::replies::{
    Fault, Session, accepted, put_bound, put_name, put_noise, put_reactances, words_of,
};
use from_record::node_from;
use mosfet1::steps::{Conditions, Evaluated};
use record_setup::NodesRecord;
use record_words::record_of;
use temperature::Kelvin;

// `scale KELVIN`
pub fn scale(session: &mut Session, line: &[u8], out: &mut [u8]) -> Result<usize, Fault> {
    let t = number(line, 1)?;
    let o = record_setup::setup_model(record_of(&words_of(session)), t);
    accepted(o.refusal)?;
    session.device = Some(record_words::words_of(o.device));
    Ok(put_name(out, line))
}

// `bind D G S B FIRST`: the terminals and the first index for extra nodes
pub fn bind(session: &mut Session, line: &[u8], out: &mut [u8]) -> Result<usize, Fault> {
    let nodes = NodesRecord {
        drain: node(line, 1)?,
        gate: node(line, 2)?,
        source: node(line, 3)?,
        bulk: node(line, 4)?,
    };
    let extra = whole(line, 5)? as usize;
    let o = record_setup::setup_instance(record_of(&words_of(session)), nodes, extra);
    accepted(o.refusal)?;
    let words = record_words::words_of(o.device);
    session.device = Some(words);
    let r = record_of(&words);
    let count = record_setup::num_extra_nodes(r).count;
    let t = r.terminals;
    Ok(put_bound(out, count, node_from(t.drain), node_from(t.source)))
}

fn conditions(line: &[u8]) -> Result<Conditions, Fault> {
    Ok(Conditions {
        temperature: Kelvin(number(line, 2)?),
        gmin: number(line, 3)?,
        limiter: choice(line, 4, b"nolim", b"lim")?,
        method: method(line, 5)?,
    })
}

// The device itself stands only here and in `committed`: with its hundred fields in a longer function the check takes minutes.
fn evaluated(
    words: [f64; 113],
    x: &[f64],
    transient: bool,
    k: Conditions,
) -> Result<Evaluated, Fault> {
    Ok(model::calls::eval(device_words::device_of(&words), x, transient, k)?)
}

// `eval tran|dc KELVIN GMIN lim|nolim METHOD X`
pub fn eval(session: &mut Session, line: &[u8], out: &mut [u8]) -> Result<usize, Fault> {
    let mut x = [0.0; 4096];
    let transient = choice(line, 1, b"dc", b"tran")?;
    let k = conditions(line)?;
    let n = filled(line, 6, &mut x)?;
    let e = evaluated(words_of(session), first(&x, n), transient, k)?;
    session.device = Some(device_words::words_of(e.device));
    let a = e.answer;
    let end = put_name(out, line);
    Ok(put_each(
        out,
        end,
        b" ",
        &[a.vgs, a.vds, a.vth, a.ids, a.gm, a.gds, a.gmbs],
    ))
}

fn committed(words: [f64; 113], x: &[f64]) -> Result<[f64; 113], Fault> {
    let after = model::calls::commit_timestep(device_words::device_of(&words), x)?;
    Ok(device_words::words_of(after))
}

// `commit X`
pub fn commit(session: &mut Session, line: &[u8], out: &mut [u8]) -> Result<usize, Fault> {
    let mut x = [0.0; 4096];
    let n = filled(line, 1, &mut x)?;
    session.device = Some(committed(words_of(session), first(&x, n))?);
    Ok(put_name(out, line))
}

// `noise KELVIN FREQ`
pub fn noise(session: &Session, line: &[u8], out: &mut [u8]) -> Result<usize, Fault> {
    let t = number(line, 1)?;
    let f = number(line, 2)?;
    let o = record_small_signal::noise_sources(record_of(&words_of(session)), t, f);
    accepted(o.refusal)?;
    Ok(put_noise(out, o))
}

// `reactances`
pub fn reactances(session: &Session, out: &mut [u8]) -> Result<usize, Fault> {
    let o = record_small_signal::small_signal_reactances(record_of(&words_of(session)));
    accepted(o.refusal)?;
    Ok(put_reactances(out, o))
}
