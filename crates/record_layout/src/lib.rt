// What a builder asks of a device that is a record, before it is evaluated.
#![tactic(auto)]

ghost use Rattle.std.specs.Prelude.{◌≡◌};
ghost use Rattle.device.specs.Refusals.{outcome};
ghost use Rattle.record_layout.specs.Layout.{
  count_outcome,
  extra_nodes_needed_call,
  layout_outcome,
  layout_call,
  layout_columns,
  layout_offsets,
  layout_lengths,
};

use cell_pattern::Needed;
use device::Refusal;
use record::DeviceRecord;
use record_setup::CountOutcome;

// The lengths that the pattern needs, of the columns and of the rows' two slices, and the number of the refusal; a refused call answers zeros.
#[repr(C)]
#[derive(Clone, Copy)]
pub struct LayoutOutcome {
    pub refusal: u64,
    pub columns: usize,
    pub rows: usize,
}

#[tactic(auto, unfolding(crate::specs::Layout::count_outcome))]
fn count_outcome(a: Result<usize, Refusal>) -> CountOutcome
    ensures { result ≡ count_outcome (outcome a) }
{
    match a {
        Ok(n) => CountOutcome {
            refusal: 0,
            count: n,
        },
        Err(row) => CountOutcome {
            refusal: record::wide(u8::from(row)),
            count: 0,
        },
    }
}

// How many nodes beyond the four terminals a binding takes; refused before the first geometry call.
#[tactic(auto, unfolding(crate::specs::Layout::extra_nodes_needed_call))]
pub fn extra_nodes(r: DeviceRecord) -> CountOutcome
    ensures { result ≡ extra_nodes_needed_call r }
{
    if !from_record::good_tags(r) {
        return CountOutcome {
            refusal: 100,
            count: 0,
        };
    }
    let d = from_record::device_from(r);
    let a = matrix_layout::extra_nodes(d);
    count_outcome(a)
}

#[tactic(auto, unfolding(crate::specs::Layout::layout_outcome))]
fn layout_outcome(a: Result<Needed, Refusal>) -> LayoutOutcome
    ensures { result ≡ layout_outcome (outcome a) }
{
    match a {
        Ok(needed) => LayoutOutcome {
            refusal: 0,
            columns: needed.columns,
            rows: needed.rows,
        },
        Err(refusal) => LayoutOutcome {
            refusal: record::wide(u8::from(refusal)),
            columns: 0,
            rows: 0,
        },
    }
}

// Writes the pattern of every cell that the bound device may ever load in front of what the three slices hold; nothing where one is short.
pub fn matrix_layout(
    r: DeviceRecord,
    columns: &mut [u32],
    offsets: &mut [usize],
    lengths: &mut [usize],
) -> LayoutOutcome
    ensures { (result ≡ layout_call r)
        × ((columns.new ≡ layout_columns r columns.old offsets.old lengths.old)
        × ((offsets.new ≡ layout_offsets r columns.old offsets.old lengths.old)
        × (lengths.new ≡ layout_lengths r columns.old offsets.old lengths.old))) }
{
    if !from_record::good_tags(r) {
        return LayoutOutcome {
            refusal: 100,
            columns: 0,
            rows: 0,
        };
    }
    let d = from_record::device_from(r);
    let a = matrix_layout::matrix_layout(d, columns, offsets, lengths);
    layout_outcome(a)
}
