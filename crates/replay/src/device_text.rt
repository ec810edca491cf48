// A device's state as text: every field of the Rust's `Mosfet1` but `jac_cells`, in the order of its declaration. The fields are
// printed from the device's words by a list: a loop over it is checked in a fraction of the time of a statement for each field.
use crate::answers::{put_given, put_history, put_method, put_node};
use device::{ChargeHistory, Discretisation, NodeId};
use record::{MethodRecord, NodeRecord};

// Each field's name and its first word. No field starts behind word 109.
const FIELDS: [(&str, usize); 87] = [
    ("vto", 0),
    ("kp", 1),
    ("lambda", 2),
    ("gamma", 3),
    ("phi", 4),
    ("drain_ext", 54),
    ("source_ext", 56),
    ("rd", 26),
    ("rs", 27),
    ("rd_card", 5),
    ("rs_card", 7),
    ("rsh", 9),
    ("nrd", 28),
    ("nrs", 29),
    ("ids_eval", 66),
    ("is_bulk", 10),
    ("js", 11),
    ("isat_bs", 30),
    ("isat_bd", 31),
    ("isat_t_factor", 47),
    ("gbs", 67),
    ("gbd", 68),
    ("ibs_eq", 69),
    ("ibd_eq", 70),
    ("pb_t", 48),
    ("cj_t_factor", 49),
    ("cjsw_t_factor", 50),
    ("kf", 12),
    ("af", 13),
    ("tnom", 14),
    ("vto_t", 51),
    ("kp_t", 52),
    ("phi_t", 53),
    ("polarity", 15),
    ("cgso", 16),
    ("cgdo", 17),
    ("cgbo", 18),
    ("cox", 19),
    ("cj", 20),
    ("cjsw", 21),
    ("pb", 22),
    ("mj", 23),
    ("mjsw", 24),
    ("fc", 25),
    ("w", 32),
    ("l", 33),
    ("w_over_l", 34),
    ("as_", 35),
    ("ad", 36),
    ("ps", 37),
    ("pd", 38),
    ("cgs_ov", 39),
    ("cgd_ov", 40),
    ("cgb_ov", 41),
    ("cox_wl", 42),
    ("cbs_bot", 43),
    ("cbs_sw", 44),
    ("cbd_bot", 45),
    ("cbd_sw", 46),
    ("drain", 58),
    ("gate", 60),
    ("source", 62),
    ("bulk", 64),
    ("gm", 71),
    ("gds", 72),
    ("gmbs", 73),
    ("jeq", 74),
    ("vgs_eff_prev", 75),
    ("vds_eff_prev", 76),
    ("cgs_eval", 77),
    ("cgd_eval", 78),
    ("cgb_eval", 79),
    ("q_gs_eval", 80),
    ("q_gd_eval", 81),
    ("q_gb_eval", 82),
    ("gs_hist", 89),
    ("gd_hist", 93),
    ("gb_hist", 97),
    ("vbs_eval", 83),
    ("vbd_eval", 84),
    ("cbs_eval", 85),
    ("cbd_eval", 86),
    ("q_bs_eval", 87),
    ("q_bd_eval", 88),
    ("bs_hist", 101),
    ("bd_hist", 105),
    ("disc", 109),
];

// The word that stands `more` places behind word k. No field has more than four words.
fn word_at(w: &[f64; 113], k: usize, more: usize) -> f64 {
    w[k.min(109) + more.min(3)]
}

// The bits of a word; all ones, which is no row, for a NaN.
fn bits(x: f64) -> u64 {
    if x.is_nan() {
        return u64::MAX;
    }
    x.to_bits()
}

// A tag of 0 is the float 0, and no other tag is.
fn given(tag: f64, x: f64) -> Option<f64> {
    if tag == 0.0 { None } else { Some(x) }
}

fn node_at(w: &[f64; 113], k: usize) -> NodeId {
    from_record::node_from(NodeRecord {
        tag: bits(word_at(w, k, 0)),
        index: bits(word_at(w, k, 1)) as usize,
    })
}

fn history_at(w: &[f64; 113], k: usize) -> ChargeHistory {
    ChargeHistory {
        q_prev: word_at(w, k, 0),
        q_prev2: given(word_at(w, k, 1), word_at(w, k, 2)),
        i_prev: word_at(w, k, 3),
    }
}

fn method_at(w: &[f64; 113], k: usize) -> Discretisation {
    from_record::method_from(MethodRecord {
        tag: bits(word_at(w, k, 0)),
        h: word_at(w, k, 1),
        h_prev: word_at(w, k, 2),
    })
}

// The value of the field that starts at word k.
fn put_value(out: &mut [u8], at: usize, w: &[f64; 113], k: usize) -> usize {
    match k {
        5 | 7 => put_given(out, at, given(word_at(w, k, 0), word_at(w, k, 1))),
        54..=65 => put_node(out, at, node_at(w, k)),
        89..=108 => put_history(out, at, history_at(w, k)),
        109 => put_method(out, at, method_at(w, k)),
        _ => hex_text::put_number(out, at, word_at(w, k, 0)),
    }
}

// A name after a space, `=` and the value.
fn put_field(out: &mut [u8], at: usize, name: &str, w: &[f64; 113], k: usize) -> usize {
    let a = hex_text::put_text(out, at, b" ");
    let b = hex_text::put_text(out, a, name.as_bytes());
    let c = hex_text::put_text(out, b, b"=");
    put_value(out, c, w, k)
}

// The state's text from the start of out on; without a device there is none.
pub fn put_state(out: &mut [u8], device: Option<[f64; 113]>) -> usize {
    let Some(words) = device else {
        return hex_text::put_text(out, 0, b"state nothing");
    };
    let mut n = hex_text::put_text(out, 0, b"state");
    for (name, k) in FIELDS {
        n = put_field(out, n, name, &words, k);
    }
    n
}
