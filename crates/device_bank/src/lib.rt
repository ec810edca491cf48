// A caller's bank of devices, read where it lies: 113 words a record. What the loads of a block and of a bridge do for all of its devices:
// the tags, the rows, asked of all of them before the first write, and the loads in device order.
#![tactic(auto)]

ghost use Rattle.std.specs.Prelude.{◌≡◌, false, not, length, is_some};
ghost use Rattle.pattern.specs.Pattern.{lists};
ghost use Rattle.device.specs.Refusals.{number, outcome};
ghost use Rattle.from_record.specs.Devices.{device_from};
ghost use Rattle.record_words.specs.Words.{record_of};
ghost use Rattle.bridge_devices.specs.Steps.{first_of};
ghost use Rattle.bridge.specs.Bridge.{load_in_order, zeroed};
ghost use Rattle.device_bank.specs.Bank.{devices_of, bank_good, bank_row};

use device::{Mosfet1, Refusal};
use loading::LoadKind;
use pattern::{Pattern, WellFormed};

// Whether every tag of every record is known.
pub fn good_bank(bank: &[[f64; 113]]) -> bool
    ensures { result ≡ bank_good bank.now }
{
    bank.iter().all(|w| record_words::good_words(w))
}

fn device_of(w: &[f64; 113]) -> Mosfet1
    ensures { result ≡ device_from (record_of w.now) }
{
    from_record::device_from(record_words::record_of(w))
}

// Row 12 by itself: it speaks of the pattern, and is asked without a device too.
#[tactic(auto, unfolding(bridge_devices::specs::Steps::first_of))]
fn pattern_row(tested: Option<WellFormed<'_>>) -> Result<(), Refusal>
    ensures { number (outcome result) ≡ first_of false false false (not (is_some tested.entry)) false }
{
    match tested {
        Some(_) => Ok(()),
        None => Err(Refusal::Pattern),
    }
}

// The lowest row that refuses one of the devices, or the pattern, into a right-hand side of so many rows.
pub fn lowest_row(
    bank: &[[f64; 113]],
    kind: LoadKind,
    rows: usize,
    values: usize,
    pattern: Pattern<'_>,
) -> Result<(), Refusal>
    ensures { number (outcome result) ≡ bank_row bank.now kind (lists pattern.entry) rows values }
{
    let tested = pattern.tested(values);
    let mut row = pattern_row(tested);
    for w in bank {
        let own = bridge_devices::device_row(device_of(w), kind, rows, pattern, tested);
        row = bridge_devices::lower(row, own);
    }
    row
}

// The loads of the devices in device order, where no row refuses one. So the pattern is one that row 12's test passed.
pub fn add_devices(
    bank: &[[f64; 113]],
    kind: LoadKind,
    rhs: &mut [f64],
    values: &mut [f64],
    pattern: Pattern<'_>,
)
    requires { bank_row bank.now kind (lists pattern) (length rhs.old) (length values.old) ≡ 0 }
    ensures { record { side = rhs.new; matrix = values.new }
        ≡ load_in_order kind (lists pattern.entry) (devices_of bank.now) (record { side = rhs.old; matrix = values.old }) }
{
    let tested = WellFormed { pattern };
    for w in bank {
        bridge_devices::add_device(device_of(w), kind, rhs, values, tested);
    }
}

// +0 is stored in every entry, whatever it held.
pub fn set_to_zero(xs: &mut [f64])
    ensures { xs.new ≡ zeroed xs.old }
{
    xs.fill(0.0);
}
