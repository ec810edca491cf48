// The geometry call (the Rust's `set_instance_params` and `validate` of mosfet1.rs).
#![tactic(auto)]

ghost use Rattle.std.specs.Prelude.{◌≡◌, length};
ghost use Rattle.device.specs.Refusals.{outcome};
ghost use Rattle.keys.specs.declared.Meaning.TheVariants.{Sets};
ghost use Rattle.geometry.specs.Geometry.{
  fresh_sizes,
  assigned,
  oxide_missing,
  saturation,
  geometry_record_of,
  sized_to,
  geometry_of,
  geometry_list_of,
};

use device::{Card, Geometry, Mosfet1, Refusal, Stage};
use entries::{Keyed, Settings};
use key_pairs::LentKeys;
use keys::{Key, Meaning, Table};

// What the keys of a geometry call say.
#[derive(Clone, Copy)]
pub struct Sizes {
    pub w: f64,
    pub l: f64,
    pub nrd: f64,
    pub nrs: f64,
    pub as_: f64,
    pub ad: f64,
    pub ps: f64,
    pub pd: f64,
}

// What a call that says nothing means: default sizes, the squares as they were.
fn fresh_sizes(nrd: f64, nrs: f64) -> Sizes
    ensures { result ≡ fresh_sizes nrd nrs }
{
    Sizes {
        w: 1e-4,
        l: 1e-4,
        nrd,
        nrs,
        as_: 0.0,
        ad: 0.0,
        ps: 0.0,
        pd: 0.0,
    }
}

impl Sizes {
    // Sets what a key sets; the card's keys set none.
    fn set(&mut self, key: Key, v: f64)
        ensures { self.new ≡ assigned self.old (Sets key) v }
    {
        match key {
            Key::W => self.w = v,
            Key::L => self.l = v,
            Key::Nrd => self.nrd = v,
            Key::Nrs => self.nrs = v,
            Key::As => self.as_ = v,
            Key::Ad => self.ad = v,
            Key::Ps => self.ps = v,
            Key::Pd => self.pd = v,
            _ => {}
        }
    }
}

impl Settings for Sizes {
    ghost with_key = { assigned };

    fn assign(&mut self, m: Meaning, v: f64) {
        if let Meaning::Sets(key) = m {
            self.set(key, v);
        }
    }
}

// Row 5, `validate`.
#[tactic(auto, using(crate::proofs::Geometry::finite_is))]
fn oxide_missing(kf: f64, w: f64, l: f64, cox: f64) -> bool
    ensures { result ≡ oxide_missing kf w l cox }
{
    let norm = w * l * cox;
    kf > 0.0 && !(norm.is_finite() && norm > 0.0)
}

// A junction's saturation current: JS times its area where both are given, else IS.
fn saturation(js: f64, area: f64, is: f64) -> f64
    ensures { result ≡ saturation js area is }
{
    if js > 0.0 && area > 0.0 {
        js * area
    } else {
        is
    }
}

// The sizes, and what follows from them and the card.
fn geometry_record(card: Card, s: Sizes) -> Geometry
    ensures { result ≡ geometry_record_of card s }
{
    Geometry {
        rd: card.rd_card.unwrap_or(card.rsh * s.nrd),
        rs: card.rs_card.unwrap_or(card.rsh * s.nrs),
        nrd: s.nrd,
        nrs: s.nrs,
        isat_bs: saturation(card.js, s.as_, card.is_bulk),
        isat_bd: saturation(card.js, s.ad, card.is_bulk),
        w: s.w,
        l: s.l,
        w_over_l: s.w / s.l,
        as_: s.as_,
        ad: s.ad,
        ps: s.ps,
        pd: s.pd,
        cgs_ov: card.cgso * s.w,
        cgd_ov: card.cgdo * s.w,
        cgb_ov: card.cgbo * s.l,
        cox_wl: card.cox * s.w * s.l,
        cbs_bot: card.cj * s.as_,
        cbs_sw: card.cjsw * s.ps,
        cbd_bot: card.cj * s.ad,
        cbd_sw: card.cjsw * s.pd,
    }
}

fn sized(device: Mosfet1, s: Sizes) -> Mosfet1
    ensures { result ≡ sized_to device s }
{
    Mosfet1 {
        geometry: geometry_record(device.card, s),
        // A later stage stays.
        stage: device.stage.max(Stage::Geometry),
        ..device
    }
}

// Sets the instance's sizes: `unknown` is lent for the places of the keys that are no sizes.
pub fn set_instance_params(
    device: Mosfet1,
    lent: LentKeys<'_>,
    unknown: &mut [usize],
) -> Result<Keyed, Refusal>
    ensures { (outcome result ≡ geometry_of device lent.entry.bytes.now lent.entry.offsets.now lent.entry.lengths.now lent.entry.values.now (length unknown.old))
        × (unknown.new ≡ geometry_list_of device lent.entry.bytes.now lent.entry.offsets.now lent.entry.lengths.now lent.entry.values.now unknown.old) }
{
    let keys = lent.paired()?;
    let read = entries::test_paired(Table::Geometry, keys, unknown.len())?;
    let start = fresh_sizes(device.geometry.nrd, device.geometry.nrs);
    let sizes = entries::read(Table::Geometry, start, keys);
    if oxide_missing(device.card.kf, sizes.w, sizes.l, device.card.cox) {
        return Err(Refusal::Oxide);
    }
    if device::before(Stage::Scaled, device.stage) {
        return Err(Refusal::Stage);
    }
    entries::list_unknown(Table::Geometry, keys, unknown);
    Ok(Keyed {
        device: sized(device, sizes),
        unknown: read.unknown,
    })
}
