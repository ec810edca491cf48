// Card and geometry of a device that is a record.
#![tactic(auto)]

ghost use Rattle.std.specs.Prelude.{◌≡◌, length};
ghost use Rattle.device.specs.Refusals.{outcome};
ghost use Rattle.record_card.specs.Keys.{keys_outcome, card_call, card_call_list, geometry_call, geometry_call_list};

use device::Refusal;
use entries::Keyed;
use key_pairs::LentKeys;
use record::DeviceRecord;

// The device after a card or geometry call, the count of unknown keys, and the number of the refusal. A refused call's device is
// the record handed in, its count 0.
#[repr(C)]
#[derive(Clone, Copy)]
pub struct KeysOutcome {
    pub refusal: u64,
    pub unknown: usize,
    pub device: DeviceRecord,
}

// Copied into its callers: as a call it would take a whole device from memory, which a refusal fills with zeros by a call of memset.
#[tactic(auto, unfolding(crate::specs::Keys::keys_outcome))]
#[inline(always)]
fn keys_outcome(old: DeviceRecord, answer: Result<Keyed, Refusal>) -> KeysOutcome
    ensures { result ≡ keys_outcome old (outcome answer) }
{
    match answer {
        Ok(keyed) => KeysOutcome {
            refusal: 0,
            unknown: keyed.unknown,
            device: DeviceRecord::from(keyed.device),
        },
        Err(refusal) => KeysOutcome {
            refusal: record::wide(u8::from(refusal)),
            unknown: 0,
            device: old,
        },
    }
}

// A card read into the caller's record, whatever that held: `polarity` is 0 for NMOS and 1 for PMOS.
#[tactic(auto, unfolding(crate::specs::Keys::card_call, crate::specs::Keys::card_call_list, crate::specs::Keys::keys_outcome))]
pub fn from_model_params(
    old: DeviceRecord,
    polarity: u64,
    bytes: &[u8],
    offsets: &[usize],
    lengths: &[usize],
    values: &[f64],
    unknown: &mut [usize],
) -> KeysOutcome
    ensures { (result ≡ card_call old polarity bytes.now offsets.now lengths.now values.now (length unknown.old))
        × (unknown.new ≡ card_call_list polarity bytes.now offsets.now lengths.now values.now unknown.old) }
{
    if 1 < polarity {
        return keys_outcome(old, Err(Refusal::Tag));
    }
    let is_pmos = polarity == 1;
    let lent = LentKeys {
        bytes,
        offsets,
        lengths,
        values,
    };
    keys_outcome(old, card::from_model_params(is_pmos, lent, unknown))
}

#[tactic(auto, unfolding(crate::specs::Keys::geometry_call, crate::specs::Keys::geometry_call_list, crate::specs::Keys::keys_outcome))]
pub fn set_instance_params(
    r: DeviceRecord,
    bytes: &[u8],
    offsets: &[usize],
    lengths: &[usize],
    values: &[f64],
    unknown: &mut [usize],
) -> KeysOutcome
    ensures { (result ≡ geometry_call r bytes.now offsets.now lengths.now values.now (length unknown.old))
        × (unknown.new ≡ geometry_call_list r bytes.now offsets.now lengths.now values.now unknown.old) }
{
    if !from_record::good_tags(r) {
        return keys_outcome(r, Err(Refusal::Tag));
    }
    let device = from_record::device_from(r);
    let lent = LentKeys {
        bytes,
        offsets,
        lengths,
        values,
    };
    keys_outcome(r, geometry::set_instance_params(device, lent, unknown))
}
