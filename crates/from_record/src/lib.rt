// The device that a record stands for, and the test that it stands for one.
#![tactic(auto)]

ghost use Rattle.std.specs.Prelude.{◌≡◌, leb};
ghost use Rattle.from_record.specs.Devices.{node_from, method_from, device_from};
ghost use Rattle.from_record.specs.Inside.{indices_or};
ghost use Rattle.from_record.specs.Tags.{good_terminals, good_histories, good_stage, good_tags};

use device::{Discretisation, Mosfet1, NodeId};
use record::{DeviceRecord, HistoriesRecord, MethodRecord, NodeRecord, TerminalsRecord};

// ---- the conversions of `record` under the names that the layers above call

pub fn node_from(r: NodeRecord) -> NodeId
    ensures { result ≡ node_from r }
{
    NodeId::from(r)
}

pub fn method_from(r: MethodRecord) -> Discretisation
    ensures { result ≡ method_from r }
{
    Discretisation::from(r)
}

// Copied into its callers, as the conversion itself is.
#[inline(always)]
pub fn device_from(r: DeviceRecord) -> Mosfet1
    ensures { result ≡ device_from r }
{
    Mosfet1::from(r)
}

// ---- tags

#[tactic(auto, unfolding(crate::specs::Tags::good_terminals))]
fn good_terminals(t: TerminalsRecord) -> bool
    ensures { result ≡ good_terminals t }
{
    t.drain_ext.tag <= 1
        && t.source_ext.tag <= 1
        && t.drain.tag <= 1
        && t.gate.tag <= 1
        && t.source.tag <= 1
        && t.bulk.tag <= 1
}

#[tactic(auto, unfolding(crate::specs::Tags::good_histories))]
fn good_histories(h: HistoriesRecord) -> bool
    ensures { result ≡ good_histories h }
{
    h.gs_hist.q_prev2.tag <= 1
        && h.gd_hist.q_prev2.tag <= 1
        && h.gb_hist.q_prev2.tag <= 1
        && h.bs_hist.q_prev2.tag <= 1
        && h.bd_hist.q_prev2.tag <= 1
}

#[tactic(auto, unfolding(crate::specs::Tags::good_stage))]
fn good_stage(stage: u64) -> bool
    ensures { result ≡ good_stage stage }
{
    1 <= stage && stage <= 5
}

// Whether every tag of a device's record is known.
#[tactic(auto, unfolding(crate::specs::Tags::good_tags))]
pub fn good_tags(d: DeviceRecord) -> bool
    ensures { result ≡ good_tags d }
{
    d.card.rd_card.tag <= 1
        && d.card.rs_card.tag <= 1
        && d.method.tag <= 3
        && good_terminals(d.terminals)
        && good_histories(d.histories)
        && good_stage(d.stage)
}

// ---- the same tags at once

// The OR of tags that may be 0 or 1 is 0 or 1 where each of them is, and above 1 where one is not.
#[tactic(auto, using(crate::proofs::TagsAtOnce::or_known), unfolding(crate::specs::Tags::good_terminals))]
fn terminal_tags(t: TerminalsRecord) -> u64
    ensures { leb result 1 ≡ good_terminals t }
{
    t.drain_ext.tag | t.source_ext.tag | t.drain.tag | t.gate.tag | t.source.tag | t.bulk.tag
}

#[tactic(auto, using(crate::proofs::TagsAtOnce::or_known), unfolding(crate::specs::Tags::good_histories))]
fn history_tags(h: HistoriesRecord) -> u64
    ensures { leb result 1 ≡ good_histories h }
{
    h.gs_hist.q_prev2.tag
        | h.gd_hist.q_prev2.tag
        | h.gb_hist.q_prev2.tag
        | h.bs_hist.q_prev2.tag
        | h.bd_hist.q_prev2.tag
}

// `good_tags` by four tests in place of sixteen. Compiled into an evaluation it takes 2 % off the instructions, into a load it adds
// 1 to 2 %: so there are both.
pub fn good_tags_at_once(d: DeviceRecord) -> bool
    ensures { result ≡ good_tags d }
{
    let terminals = terminal_tags(d.terminals);
    let histories = history_tags(d.histories);
    let all = d.card.rd_card.tag | d.card.rs_card.tag | terminals | histories;
    all <= 1 && d.method.tag <= 3 && good_stage(d.stage)
}

// The OR of the six nodes' indices, ground's among them: where it is below a number, so is each of them, and no node is beyond. That is
// one test in place of six.
#[tactic(auto, unfolding(crate::specs::Inside::indices_or))]
pub fn indices(t: TerminalsRecord) -> usize
    ensures { result ≡ indices_or t }
{
    t.drain_ext.index
        | t.source_ext.index
        | t.drain.index
        | t.gate.index
        | t.source.index
        | t.bulk.index
}
