// The loads of a block and of a whole bridge for C and Rust on x86-64 (include/mivtolgya.h), which `mivtolgya_bridge_c` exports in an archive of
// its own beside mivtolgya's: with a second caller in one archive the compiler would no longer make one function of the load of a single
// device, which then takes half as long again. The devices are records of the caller's in a row, read where they lie. Everything is tested
// before the first write.
#![tactic(auto)]

ghost use Rattle.std.specs.Prelude.{◌≡◌};
ghost use Rattle.pattern.specs.Pattern.{lists};
ghost use Rattle.device.specs.Refusals.{number, outcome};
ghost use Rattle.bridge_calls.specs.Calls.{bridge_call, bridge_side, bridge_matrix, block_call, block_side, block_matrix, resolved_bridge_call, resolved_bridge_side, resolved_bridge_matrix};
ghost use Rattle.bridge_calls.specs.Steps.{bridge_number, block_number, resolved_bridge_number};

use bridge::BlockRuns;
use device::Refusal;
use pattern::Pattern;

// Why a load of the whole bridge is refused, by the lengths of its slices. The two tests are two refusals.
fn bridge_row(
    bank: &[[f64; 113]],
    runs: BlockRuns<'_>,
    transient: u64,
    alpha: f64,
    rows: usize,
    values: usize,
    pattern: Pattern<'_>,
) -> Result<(), Refusal>
    ensures { number (outcome result) ≡ bridge_number bank.now runs.entry.starts.now runs.entry.counts.now transient alpha (lists pattern.entry) rows values }
{
    if !device_bank::good_bank(bank) || 1 < transient {
        return Err(Refusal::Tag);
    }
    if bridge::bridge_refused(runs, rows, bank.len()) {
        return Err(Refusal::Run);
    }
    let kind = record_loading::kind_from(transient, alpha);
    device_bank::lowest_row(bank, kind, rows, values, pattern)
}

// The same of a block's load. Its devices are asked against the rows of its run.
fn block_row(
    bank: &[[f64; 113]],
    block: usize,
    runs: BlockRuns<'_>,
    transient: u64,
    alpha: f64,
    rows: usize,
    values: usize,
    pattern: Pattern<'_>,
) -> Result<(), Refusal>
    ensures { number (outcome result) ≡ block_number bank.now block runs.entry.starts.now runs.entry.counts.now transient alpha (lists pattern.entry) rows values }
{
    if !device_bank::good_bank(bank) || 1 < transient {
        return Err(Refusal::Tag);
    }
    if bridge::block_refused(block, runs, rows, bank.len()) {
        return Err(Refusal::Run);
    }
    let kind = record_loading::kind_from(transient, alpha);
    let own = runs.counts[block];
    device_bank::lowest_row(bank, kind, own, values, pattern)
}

// Sets both slices to zero and loads the devices of the whole bridge in device order. The calls answer a number, as C has it, and no `Result`
// that `?` could hand on.
pub fn mivtolgya_load_bridge(
    bank: &[[f64; 113]],
    starts: &[usize],
    counts: &[usize],
    transient: u64,
    alpha: f64,
    rhs: &mut [f64],
    values: &mut [f64],
    columns: &[u32],
    offsets: &[usize],
    lengths: &[usize],
) -> u64
    ensures { (result ≡ bridge_call bank.now starts.now counts.now transient alpha (record { columns = columns.now; offsets = offsets.now; lengths = lengths.now }) rhs.old values.old)
        × ((rhs.new ≡ bridge_side bank.now starts.now counts.now transient alpha (record { columns = columns.now; offsets = offsets.now; lengths = lengths.now }) rhs.old values.old)
        × (values.new ≡ bridge_matrix bank.now starts.now counts.now transient alpha (record { columns = columns.now; offsets = offsets.now; lengths = lengths.now }) rhs.old values.old)) }
{
    let runs = BlockRuns { starts, counts };
    let pattern = Pattern {
        columns,
        offsets,
        lengths,
    };
    if let Err(refusal) = bridge_row(
        bank,
        runs,
        transient,
        alpha,
        rhs.len(),
        values.len(),
        pattern,
    ) {
        return record::number(Err(refusal));
    }
    let kind = record_loading::kind_from(transient, alpha);
    device_bank::set_to_zero(rhs);
    device_bank::set_to_zero(values);
    device_bank::add_devices(bank, kind, rhs, values, pattern);
    0
}

// Loads the devices of one block in device order into the block's own matrix and its own run of rows: that part of the right-hand side is lent
// on.
pub fn mivtolgya_load_block(
    bank: &[[f64; 113]],
    block: usize,
    starts: &[usize],
    counts: &[usize],
    transient: u64,
    alpha: f64,
    rhs: &mut [f64],
    values: &mut [f64],
    columns: &[u32],
    offsets: &[usize],
    lengths: &[usize],
) -> u64
    ensures { (result ≡ block_call bank.now block starts.now counts.now transient alpha (record { columns = columns.now; offsets = offsets.now; lengths = lengths.now }) rhs.old values.old)
        × ((rhs.new ≡ block_side bank.now block starts.now counts.now transient alpha (record { columns = columns.now; offsets = offsets.now; lengths = lengths.now }) rhs.old values.old)
        × (values.new ≡ block_matrix bank.now block starts.now counts.now transient alpha (record { columns = columns.now; offsets = offsets.now; lengths = lengths.now }) rhs.old values.old)) }
{
    let runs = BlockRuns { starts, counts };
    let pattern = Pattern {
        columns,
        offsets,
        lengths,
    };
    if let Err(refusal) = block_row(
        bank,
        block,
        runs,
        transient,
        alpha,
        rhs.len(),
        values.len(),
        pattern,
    ) {
        return record::number(Err(refusal));
    }
    let kind = record_loading::kind_from(transient, alpha);
    let start = starts[block];
    let end = start + counts[block];
    device_bank::add_devices(bank, kind, &mut rhs[start..end], values, pattern);
    0
}

// The number of a load of the whole bridge by cells, 0 where nothing refuses it; a number, since the devices' own is one. Where no device is
// refused by itself, every tag is known and need not be asked again.
fn resolved_number(
    bank: &[[f64; 113]],
    runs: BlockRuns<'_>,
    transient: u64,
    alpha: f64,
    cells: &[[usize; 37]],
    rows: usize,
    values: usize,
) -> u64
    ensures { result ≡ resolved_bridge_number bank.now runs.entry.starts.now runs.entry.counts.now transient alpha cells.now rows values }
{
    let number = bank_resolved::lowest_number(bank, transient, alpha, cells, rows, values);
    if number != 0 && !device_bank::good_bank(bank) || 1 < transient {
        return record::number(Err(Refusal::Tag));
    }
    if bridge::bridge_refused(runs, rows, bank.len()) {
        return record::number(Err(Refusal::Run));
    }
    number
}

// The load of the whole bridge by the cells that `mivtolgya_resolve` answered for each of its devices, for the loop: no pattern, no search.
pub fn mivtolgya_load_bridge_resolved(
    bank: &[[f64; 113]],
    starts: &[usize],
    counts: &[usize],
    transient: u64,
    alpha: f64,
    cells: &[[usize; 37]],
    rhs: &mut [f64],
    values: &mut [f64],
) -> u64
    ensures { (result ≡ resolved_bridge_call bank.now starts.now counts.now transient alpha cells.now rhs.old values.old)
        × ((rhs.new ≡ resolved_bridge_side bank.now starts.now counts.now transient alpha cells.now rhs.old values.old)
        × (values.new ≡ resolved_bridge_matrix bank.now starts.now counts.now transient alpha cells.now rhs.old values.old)) }
{
    let runs = BlockRuns { starts, counts };
    let number = resolved_number(bank, runs, transient, alpha, cells, rhs.len(), values.len());
    if number != 0 {
        return number;
    }
    device_bank::set_to_zero(rhs);
    device_bank::set_to_zero(values);
    bank_resolved::add_devices(bank, transient, alpha, cells, rhs, values);
    0
}
