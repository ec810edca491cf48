// A device's record as 113 words of eight bytes, each given as a float: so a caller's records in a row are lent as a slice of arrays of
// floats. A word that is a whole number and no float (a tag, a node's index, the stage) is its bits.
#![tactic(auto)]

ghost use Rattle.std.specs.Prelude.{◌+◌, ◌<◌, ◌≡◌, leb, get_or};
ghost use Rattle.std.specs.Float.{nan};
ghost use Rattle.from_record.specs.Tags.{good_terminals, good_histories, good_tags};
ghost use Rattle.record_words.specs.Words.{whole_of, given_at, node_at, history_at, card_of, geometry_of, scaled_of, terminals_of, point_of, charges_of, histories_of, method_of, record_of, float_of, words_of};

use device::{Charges, Geometry, OperatingPoint, Scaled};
use hex_text::float_of;
use record::{
    CardRecord, DeviceRecord, GivenRecord, HistoriesRecord, HistoryRecord, MethodRecord,
    NodeRecord, TerminalsRecord,
};

// ---- one word

// The bits of a word, and all ones where they are a NaN's, which is no tag and no row. A NaN's own bits cannot be read: `to_bits` asks
// for a number.
#[tactic(auto, unfolding(crate::specs::Words::whole_of))]
fn whole(x: f64) -> u64
    ensures { result ≡ whole_of x }
{
    if x.is_nan() { u64::MAX } else { x.to_bits() }
}

fn whole_at(w: &[f64; 113], k: usize) -> u64
    requires { k < 113 }
    ensures { result ≡ whole_of (get_or w.now k nan) }
{
    whole(w[k])
}

fn index_at(w: &[f64; 113], k: usize) -> usize
    requires { k < 113 }
    ensures { result ≡ whole_of (get_or w.now k nan) }
{
    whole(w[k]) as usize
}

// ---- from the words to the record; a part that stands in the record more than once is read from word k on

#[tactic(auto, unfolding(crate::specs::Words::given_at))]
fn given_at(w: &[f64; 113], k: usize) -> GivenRecord
    requires { k + 1 < 113 }
    ensures { result ≡ given_at w.now k }
{
    GivenRecord {
        tag: whole_at(w, k),
        value: w[k + 1],
    }
}

#[tactic(auto, unfolding(crate::specs::Words::node_at))]
fn node_at(w: &[f64; 113], k: usize) -> NodeRecord
    requires { k + 1 < 113 }
    ensures { result ≡ node_at w.now k }
{
    NodeRecord {
        tag: whole_at(w, k),
        index: index_at(w, k + 1),
    }
}

#[tactic(auto, unfolding(crate::specs::Words::history_at))]
fn history_at(w: &[f64; 113], k: usize) -> HistoryRecord
    requires { k + 3 < 113 }
    ensures { result ≡ history_at w.now k }
{
    HistoryRecord {
        q_prev: w[k],
        q_prev2: given_at(w, k + 1),
        i_prev: w[k + 3],
    }
}

#[tactic(auto, unfolding(crate::specs::Words::card_of))]
#[inline(always)]
fn card_of(w: &[f64; 113]) -> CardRecord
    ensures { result ≡ card_of w.now }
{
    CardRecord {
        vto: w[0],
        kp: w[1],
        lambda: w[2],
        gamma: w[3],
        phi: w[4],
        rd_card: given_at(w, 5),
        rs_card: given_at(w, 7),
        rsh: w[9],
        is_bulk: w[10],
        js: w[11],
        kf: w[12],
        af: w[13],
        tnom: w[14],
        polarity: w[15],
        cgso: w[16],
        cgdo: w[17],
        cgbo: w[18],
        cox: w[19],
        cj: w[20],
        cjsw: w[21],
        pb: w[22],
        mj: w[23],
        mjsw: w[24],
        fc: w[25],
    }
}

#[tactic(auto, unfolding(crate::specs::Words::geometry_of))]
#[inline(always)]
fn geometry_of(w: &[f64; 113]) -> Geometry
    ensures { result ≡ geometry_of w.now }
{
    Geometry {
        rd: w[26],
        rs: w[27],
        nrd: w[28],
        nrs: w[29],
        isat_bs: w[30],
        isat_bd: w[31],
        w: w[32],
        l: w[33],
        w_over_l: w[34],
        as_: w[35],
        ad: w[36],
        ps: w[37],
        pd: w[38],
        cgs_ov: w[39],
        cgd_ov: w[40],
        cgb_ov: w[41],
        cox_wl: w[42],
        cbs_bot: w[43],
        cbs_sw: w[44],
        cbd_bot: w[45],
        cbd_sw: w[46],
    }
}

#[tactic(auto, unfolding(crate::specs::Words::scaled_of))]
#[inline(always)]
fn scaled_of(w: &[f64; 113]) -> Scaled
    ensures { result ≡ scaled_of w.now }
{
    Scaled {
        isat_t_factor: w[47],
        pb_t: w[48],
        cj_t_factor: w[49],
        cjsw_t_factor: w[50],
        vto_t: w[51],
        kp_t: w[52],
        phi_t: w[53],
    }
}

#[tactic(auto, unfolding(crate::specs::Words::terminals_of))]
#[inline(always)]
fn terminals_of(w: &[f64; 113]) -> TerminalsRecord
    ensures { result ≡ terminals_of w.now }
{
    TerminalsRecord {
        drain_ext: node_at(w, 54),
        source_ext: node_at(w, 56),
        drain: node_at(w, 58),
        gate: node_at(w, 60),
        source: node_at(w, 62),
        bulk: node_at(w, 64),
    }
}

#[tactic(auto, unfolding(crate::specs::Words::point_of))]
#[inline(always)]
fn point_of(w: &[f64; 113]) -> OperatingPoint
    ensures { result ≡ point_of w.now }
{
    OperatingPoint {
        ids_eval: w[66],
        gbs: w[67],
        gbd: w[68],
        ibs_eq: w[69],
        ibd_eq: w[70],
        gm: w[71],
        gds: w[72],
        gmbs: w[73],
        jeq: w[74],
        vgs_eff_prev: w[75],
        vds_eff_prev: w[76],
    }
}

#[tactic(auto, unfolding(crate::specs::Words::charges_of))]
#[inline(always)]
fn charges_of(w: &[f64; 113]) -> Charges
    ensures { result ≡ charges_of w.now }
{
    Charges {
        cgs_eval: w[77],
        cgd_eval: w[78],
        cgb_eval: w[79],
        q_gs_eval: w[80],
        q_gd_eval: w[81],
        q_gb_eval: w[82],
        vbs_eval: w[83],
        vbd_eval: w[84],
        cbs_eval: w[85],
        cbd_eval: w[86],
        q_bs_eval: w[87],
        q_bd_eval: w[88],
    }
}

#[tactic(auto, unfolding(crate::specs::Words::histories_of))]
#[inline(always)]
fn histories_of(w: &[f64; 113]) -> HistoriesRecord
    ensures { result ≡ histories_of w.now }
{
    HistoriesRecord {
        gs_hist: history_at(w, 89),
        gd_hist: history_at(w, 93),
        gb_hist: history_at(w, 97),
        bs_hist: history_at(w, 101),
        bd_hist: history_at(w, 105),
    }
}

#[tactic(auto, unfolding(crate::specs::Words::method_of))]
#[inline(always)]
fn method_of(w: &[f64; 113]) -> MethodRecord
    ensures { result ≡ method_of w.now }
{
    MethodRecord {
        tag: whole_at(w, 109),
        h: w[110],
        h_prev: w[111],
    }
}

// The record that the words are. Copied into its callers, so that of the record only what a caller needs is read: as a call it goes through
// memory, at 20 nanoseconds or more a device. No `From`, since neither `DeviceRecord` nor an array is this crate's.
#[tactic(auto, unfolding(crate::specs::Words::record_of))]
#[inline(always)]
pub fn record_of(w: &[f64; 113]) -> DeviceRecord
    ensures { result ≡ record_of w.now }
{
    DeviceRecord {
        card: card_of(w),
        geometry: geometry_of(w),
        scaled: scaled_of(w),
        terminals: terminals_of(w),
        point: point_of(w),
        charges: charges_of(w),
        histories: histories_of(w),
        method: method_of(w),
        stage: whole_at(w, 112),
    }
}

// ---- whether the tags are known, read from the tags' words alone

// The OR of tags that may be 0 or 1 is 0 or 1 where each of them is, and above 1 where one is not.
fn terminal_tags(w: &[f64; 113]) -> u64
    ensures { leb result 1 ≡ good_terminals (terminals_of w.now) }
{
    whole_at(w, 54)
        | whole_at(w, 56)
        | whole_at(w, 58)
        | whole_at(w, 60)
        | whole_at(w, 62)
        | whole_at(w, 64)
}

fn history_tags(w: &[f64; 113]) -> u64
    ensures { leb result 1 ≡ good_histories (histories_of w.now) }
{
    whole_at(w, 90) | whole_at(w, 94) | whole_at(w, 98) | whole_at(w, 102) | whole_at(w, 106)
}

// Whether every tag of the record that the words are is known.
pub fn good_words(w: &[f64; 113]) -> bool
    ensures { result ≡ good_tags (record_of w.now) }
{
    let terminals = terminal_tags(w);
    let histories = history_tags(w);
    let all = whole_at(w, 5) | whole_at(w, 7) | terminals | histories;
    let method = whole_at(w, 109);
    let stage = whole_at(w, 112);
    all <= 1 && method <= 3 && 1 <= stage && stage <= 5
}

// ---- from the record to the words

// An index is as wide as a word.
fn index_float(index: usize) -> f64
    ensures { result ≡ float_of index }
{
    float_of(index as u64)
}

// The words of the record: each float as it is, each whole number as the float of these bits.
pub fn words_of(r: DeviceRecord) -> [f64; 113]
    ensures { result ≡ words_of r }
{
    [
        r.card.vto,
        r.card.kp,
        r.card.lambda,
        r.card.gamma,
        r.card.phi,
        float_of(r.card.rd_card.tag),
        r.card.rd_card.value,
        float_of(r.card.rs_card.tag),
        r.card.rs_card.value,
        r.card.rsh,
        r.card.is_bulk,
        r.card.js,
        r.card.kf,
        r.card.af,
        r.card.tnom,
        r.card.polarity,
        r.card.cgso,
        r.card.cgdo,
        r.card.cgbo,
        r.card.cox,
        r.card.cj,
        r.card.cjsw,
        r.card.pb,
        r.card.mj,
        r.card.mjsw,
        r.card.fc,
        r.geometry.rd,
        r.geometry.rs,
        r.geometry.nrd,
        r.geometry.nrs,
        r.geometry.isat_bs,
        r.geometry.isat_bd,
        r.geometry.w,
        r.geometry.l,
        r.geometry.w_over_l,
        r.geometry.as_,
        r.geometry.ad,
        r.geometry.ps,
        r.geometry.pd,
        r.geometry.cgs_ov,
        r.geometry.cgd_ov,
        r.geometry.cgb_ov,
        r.geometry.cox_wl,
        r.geometry.cbs_bot,
        r.geometry.cbs_sw,
        r.geometry.cbd_bot,
        r.geometry.cbd_sw,
        r.scaled.isat_t_factor,
        r.scaled.pb_t,
        r.scaled.cj_t_factor,
        r.scaled.cjsw_t_factor,
        r.scaled.vto_t,
        r.scaled.kp_t,
        r.scaled.phi_t,
        float_of(r.terminals.drain_ext.tag),
        index_float(r.terminals.drain_ext.index),
        float_of(r.terminals.source_ext.tag),
        index_float(r.terminals.source_ext.index),
        float_of(r.terminals.drain.tag),
        index_float(r.terminals.drain.index),
        float_of(r.terminals.gate.tag),
        index_float(r.terminals.gate.index),
        float_of(r.terminals.source.tag),
        index_float(r.terminals.source.index),
        float_of(r.terminals.bulk.tag),
        index_float(r.terminals.bulk.index),
        r.point.ids_eval,
        r.point.gbs,
        r.point.gbd,
        r.point.ibs_eq,
        r.point.ibd_eq,
        r.point.gm,
        r.point.gds,
        r.point.gmbs,
        r.point.jeq,
        r.point.vgs_eff_prev,
        r.point.vds_eff_prev,
        r.charges.cgs_eval,
        r.charges.cgd_eval,
        r.charges.cgb_eval,
        r.charges.q_gs_eval,
        r.charges.q_gd_eval,
        r.charges.q_gb_eval,
        r.charges.vbs_eval,
        r.charges.vbd_eval,
        r.charges.cbs_eval,
        r.charges.cbd_eval,
        r.charges.q_bs_eval,
        r.charges.q_bd_eval,
        r.histories.gs_hist.q_prev,
        float_of(r.histories.gs_hist.q_prev2.tag),
        r.histories.gs_hist.q_prev2.value,
        r.histories.gs_hist.i_prev,
        r.histories.gd_hist.q_prev,
        float_of(r.histories.gd_hist.q_prev2.tag),
        r.histories.gd_hist.q_prev2.value,
        r.histories.gd_hist.i_prev,
        r.histories.gb_hist.q_prev,
        float_of(r.histories.gb_hist.q_prev2.tag),
        r.histories.gb_hist.q_prev2.value,
        r.histories.gb_hist.i_prev,
        r.histories.bs_hist.q_prev,
        float_of(r.histories.bs_hist.q_prev2.tag),
        r.histories.bs_hist.q_prev2.value,
        r.histories.bs_hist.i_prev,
        r.histories.bd_hist.q_prev,
        float_of(r.histories.bd_hist.q_prev2.tag),
        r.histories.bd_hist.q_prev2.value,
        r.histories.bd_hist.i_prev,
        float_of(r.method.tag),
        r.method.h,
        r.method.h_prev,
        float_of(r.stage),
    ]
}
