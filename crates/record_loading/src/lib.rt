// Loading a device that is a record.
#![tactic(auto)]

ghost use Rattle.std.specs.Prelude.{◌≡◌};
ghost use Rattle.record_loading.specs.Load.{kind_from, load_call, loaded_side, loaded_matrix};

use loading::LoadKind;
use pattern::Pattern;
use record::DeviceRecord;

#[tactic(auto, unfolding(crate::specs::Load::kind_from))]
pub fn kind_from(transient: u64, alpha: f64) -> LoadKind
    ensures { result ≡ kind_from transient alpha }
{
    if transient == 0 {
        LoadKind::DirectCurrent
    } else {
        LoadKind::Transient(alpha)
    }
}

// A load; `transient` is 0 or 1. Answers the number of the refusal, 0 where both slices were loaded.
#[tactic(auto, unfolding(crate::specs::Load::good_load, crate::specs::Load::load_call, crate::specs::Load::loaded_side, crate::specs::Load::loaded_matrix))]
pub fn load(
    r: DeviceRecord,
    transient: u64,
    alpha: f64,
    rhs: &mut [f64],
    values: &mut [f64],
    columns: &[u32],
    offsets: &[usize],
    lengths: &[usize],
) -> u64
    ensures { (result ≡ load_call r transient alpha (record { columns = columns.now; offsets = offsets.now; lengths = lengths.now }) rhs.old values.old)
        × ((rhs.new ≡ loaded_side r transient alpha (record { columns = columns.now; offsets = offsets.now; lengths = lengths.now }) rhs.old values.old)
        × (values.new ≡ loaded_matrix r transient alpha (record { columns = columns.now; offsets = offsets.now; lengths = lengths.now }) rhs.old values.old)) }
{
    if !from_record::good_tags(r) || 1 < transient {
        return 100;
    }
    let d = from_record::device_from(r);
    let kind = kind_from(transient, alpha);
    let pattern = Pattern {
        columns,
        offsets,
        lengths,
    };
    record::number(loading::load(d, kind, rhs, values, pattern))
}
