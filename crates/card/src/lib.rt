// The card call (the Rust's `from_model_params` of mosfet1.rs).
#![tactic(auto)]

ghost use Rattle.std.specs.Prelude.{◌≡◌, length};
ghost use Rattle.device.specs.Refusals.{outcome};
ghost use Rattle.keys.specs.declared.Meaning.TheVariants.{Sets};
ghost use Rattle.card.specs.Card.{assigned, default_vto, defaults_of, kp_from, polarity_of, card_record_of, fresh_geometry, fresh_scaled, fresh_terminals, fresh_point, fresh_charges, fresh_histories, fresh_device, card_of, card_list_of};

use device::{
    Card, ChargeHistory, Charges, Discretisation, Geometry, Histories, Mosfet1, NodeId,
    OperatingPoint, Refusal, Scaled, Stage, Terminals,
};
use entries::{Keyed, Settings};
use key_pairs::LentKeys;
use keys::{Key, Meaning, Table};
use temperature::Celsius;

// The permittivity of silicon dioxide, F/m.
const EPS_OX: f64 = 3.9 * 8.854187817e-12;

// What the keys of a card say. KP, RD and RS may be left out; the others have a default.
#[derive(Clone, Copy)]
pub struct Parameters {
    pub vto: f64,
    pub kp: Option<f64>,
    pub uo: f64,
    pub is_bulk: f64,
    pub js: f64,
    pub lambda: f64,
    pub gamma: f64,
    pub phi: f64,
    pub rd: Option<f64>,
    pub rs: Option<f64>,
    pub rsh: f64,
    pub kf: f64,
    pub af: f64,
    pub cgso: f64,
    pub cgdo: f64,
    pub cgbo: f64,
    pub cox: f64,
    pub cj: f64,
    pub cjsw: f64,
    pub pb: f64,
    pub mj: f64,
    pub mjsw: f64,
    pub fc: f64,
    pub tnom: Celsius,
}

fn default_vto(is_pmos: bool) -> f64
    ensures { result ≡ default_vto is_pmos }
{
    if is_pmos { -0.7 } else { 0.7 }
}

// What a card that says nothing means.
fn defaults(is_pmos: bool) -> Parameters
    ensures { result ≡ defaults_of is_pmos }
{
    Parameters {
        vto: default_vto(is_pmos),
        kp: None,
        uo: 600.0,
        is_bulk: 1e-14,
        js: 0.0,
        lambda: 0.0,
        gamma: 0.0,
        phi: 0.6,
        rd: None,
        rs: None,
        rsh: 0.0,
        kf: 0.0,
        af: 1.0,
        cgso: 0.0,
        cgdo: 0.0,
        cgbo: 0.0,
        cox: 0.0,
        cj: 0.0,
        cjsw: 0.0,
        pb: 0.8,
        mj: 0.5,
        mjsw: 0.33,
        fc: 0.5,
        tnom: temperature::tnom_default(),
    }
}

impl Parameters {
    // Sets what a key sets; the geometry's keys set none.
    fn set(&mut self, key: Key, v: f64)
        ensures { self.new ≡ assigned self.old (Sets key) v }
    {
        match key {
            Key::Vto => self.vto = v,
            Key::Kp => self.kp = Some(v),
            Key::Uo => self.uo = v,
            Key::Is => self.is_bulk = v,
            Key::Js => self.js = v,
            Key::Lambda => self.lambda = v,
            Key::Gamma => self.gamma = v,
            Key::Phi => self.phi = v,
            Key::Rd => self.rd = Some(v),
            Key::Rs => self.rs = Some(v),
            Key::Rsh => self.rsh = v,
            Key::Kf => self.kf = v,
            Key::Af => self.af = v,
            Key::Cgso => self.cgso = v,
            Key::Cgdo => self.cgdo = v,
            Key::Cgbo => self.cgbo = v,
            Key::Cox => self.cox = v,
            Key::Tox => self.cox = EPS_OX / v,
            Key::Cj => self.cj = v,
            Key::Cjsw => self.cjsw = v,
            Key::Pb => self.pb = v,
            Key::Mj => self.mj = v,
            Key::Mjsw => self.mjsw = v,
            Key::Fc => self.fc = v,
            _ => {}
        }
    }
}

impl Settings for Parameters {
    ghost with_key = { assigned };

    fn assign(&mut self, m: Meaning, v: f64) {
        match m {
            Meaning::Sets(key) => self.set(key, v),
            Meaning::Tnom => self.tnom = Celsius(v),
            Meaning::Unread | Meaning::Unknown => {}
        }
    }
}

// KP where it is given, else from the mobility and the oxide, else the fallback.
fn kp_of(kp: Option<f64>, uo: f64, cox: f64) -> f64
    ensures { result ≡ kp_from kp uo cox }
{
    match kp {
        Some(kp) => kp,
        None if cox > 0.0 => uo * 1e-4 * cox,
        None => 2e-5,
    }
}

fn polarity(is_pmos: bool) -> f64
    ensures { result ≡ polarity_of is_pmos }
{
    if is_pmos { -1.0 } else { 1.0 }
}

fn card_record(is_pmos: bool, p: Parameters) -> Card
    ensures { result ≡ card_record_of is_pmos p }
{
    Card {
        vto: p.vto,
        kp: kp_of(p.kp, p.uo, p.cox),
        lambda: p.lambda,
        gamma: p.gamma,
        phi: p.phi,
        rd_card: p.rd,
        rs_card: p.rs,
        rsh: p.rsh,
        is_bulk: p.is_bulk,
        js: p.js,
        kf: p.kf,
        af: p.af,
        tnom: temperature::to_kelvin(p.tnom),
        polarity: polarity(is_pmos),
        cgso: p.cgso,
        cgdo: p.cgdo,
        cgbo: p.cgbo,
        cox: p.cox,
        cj: p.cj,
        cjsw: p.cjsw,
        pb: p.pb,
        mj: p.mj,
        mjsw: p.mjsw,
        fc: p.fc,
    }
}

// What stands before the first calls is no derived `Default`: some of the values are not 0.

// Before a geometry call: default sizes, nothing derived.
fn fresh_geometry(rd: f64, rs: f64) -> Geometry
    ensures { result ≡ fresh_geometry rd rs }
{
    Geometry {
        rd,
        rs,
        nrd: 1.0,
        nrs: 1.0,
        isat_bs: 1e-14,
        isat_bd: 1e-14,
        w: 1e-4,
        l: 1e-4,
        w_over_l: 1.0,
        as_: 0.0,
        ad: 0.0,
        ps: 0.0,
        pd: 0.0,
        cgs_ov: 0.0,
        cgd_ov: 0.0,
        cgb_ov: 0.0,
        cox_wl: 0.0,
        cbs_bot: 0.0,
        cbs_sw: 0.0,
        cbd_bot: 0.0,
        cbd_sw: 0.0,
    }
}

// Before a scaling: the nominal values.
fn fresh_scaled(vto: f64, kp: f64, phi: f64) -> Scaled
    ensures { result ≡ fresh_scaled vto kp phi }
{
    Scaled {
        isat_t_factor: 1.0,
        pb_t: 0.8,
        cj_t_factor: 1.0,
        cjsw_t_factor: 1.0,
        vto_t: vto,
        kp_t: kp,
        phi_t: phi,
    }
}

fn fresh_terminals() -> Terminals
    ensures { result ≡ fresh_terminals }
{
    Terminals {
        drain_ext: NodeId::Ground,
        source_ext: NodeId::Ground,
        drain: NodeId::Ground,
        gate: NodeId::Ground,
        source: NodeId::Ground,
        bulk: NodeId::Ground,
    }
}

fn fresh_point() -> OperatingPoint
    ensures { result ≡ fresh_point }
{
    OperatingPoint {
        ids_eval: 0.0,
        gbs: 0.0,
        gbd: 0.0,
        ibs_eq: 0.0,
        ibd_eq: 0.0,
        gm: 1e-12,
        gds: 1e-12,
        gmbs: 0.0,
        jeq: 0.0,
        vgs_eff_prev: 0.0,
        vds_eff_prev: 0.0,
    }
}

fn fresh_charges() -> Charges
    ensures { result ≡ fresh_charges }
{
    Charges {
        cgs_eval: 0.0,
        cgd_eval: 0.0,
        cgb_eval: 0.0,
        q_gs_eval: 0.0,
        q_gd_eval: 0.0,
        q_gb_eval: 0.0,
        vbs_eval: 0.0,
        vbd_eval: 0.0,
        cbs_eval: 0.0,
        cbd_eval: 0.0,
        q_bs_eval: 0.0,
        q_bd_eval: 0.0,
    }
}

fn fresh_histories() -> Histories
    ensures { result ≡ fresh_histories }
{
    let none = ChargeHistory {
        q_prev: 0.0,
        q_prev2: None,
        i_prev: 0.0,
    };
    Histories {
        gs_hist: none,
        gd_hist: none,
        gb_hist: none,
        bs_hist: none,
        bd_hist: none,
    }
}

// The device that the parameters make.
fn fresh_device(is_pmos: bool, p: Parameters) -> Mosfet1
    ensures { result ≡ fresh_device is_pmos p }
{
    let card = card_record(is_pmos, p);
    Mosfet1 {
        card,
        geometry: fresh_geometry(p.rd.unwrap_or(0.0), p.rs.unwrap_or(0.0)),
        scaled: fresh_scaled(card.vto, card.kp, card.phi),
        terminals: fresh_terminals(),
        point: fresh_point(),
        charges: fresh_charges(),
        histories: fresh_histories(),
        disc: Discretisation::None,
        stage: Stage::Card,
    }
}

// Reads a card: `unknown` is lent for the places of the keys that no model knows.
pub fn from_model_params(
    is_pmos: bool,
    lent: LentKeys<'_>,
    unknown: &mut [usize],
) -> Result<Keyed, Refusal>
    ensures { (outcome result ≡ card_of is_pmos lent.entry.bytes.now lent.entry.offsets.now lent.entry.lengths.now lent.entry.values.now (length unknown.old))
        × (unknown.new ≡ card_list_of lent.entry.bytes.now lent.entry.offsets.now lent.entry.lengths.now lent.entry.values.now unknown.old) }
{
    let keys = lent.paired()?;
    let read = entries::test_paired(Table::Card, keys, unknown.len())?;
    if read.outside {
        return Err(Refusal::Temperature);
    }
    entries::list_unknown(Table::Card, keys, unknown);
    let parameters = entries::read(Table::Card, defaults(is_pmos), keys);
    Ok(Keyed {
        device: fresh_device(is_pmos, parameters),
        unknown: read.unknown,
    })
}
