// The loads of a block and of a whole bridge for C and Rust on x86-64 (include/mivtolgya.h), as an archive. Each export is the call of the
// same name of `mivtolgya_bridge`.
#![tactic(auto)]

ghost use Rattle.std.specs.Prelude.{◌≡◌};
ghost use Rattle.bridge_calls.specs.Calls.{bridge_call, bridge_side, bridge_matrix, block_call, block_side, block_matrix, resolved_bridge_call, resolved_bridge_side, resolved_bridge_matrix};

#[unsafe(no_mangle)]
pub extern "C" fn mivtolgya_load_bridge(
    bank: &[[f64; 113]],
    starts: &[usize],
    counts: &[usize],
    transient: u64,
    alpha: f64,
    rhs: &mut [f64],
    values: &mut [f64],
    columns: &[u32],
    offsets: &[usize],
    lengths: &[usize],
) -> u64
    ensures { (result ≡ bridge_call bank.now starts.now counts.now transient alpha (record { columns = columns.now; offsets = offsets.now; lengths = lengths.now }) rhs.old values.old)
        × ((rhs.new ≡ bridge_side bank.now starts.now counts.now transient alpha (record { columns = columns.now; offsets = offsets.now; lengths = lengths.now }) rhs.old values.old)
        × (values.new ≡ bridge_matrix bank.now starts.now counts.now transient alpha (record { columns = columns.now; offsets = offsets.now; lengths = lengths.now }) rhs.old values.old)) }
{
    mivtolgya_bridge::mivtolgya_load_bridge(
        bank, starts, counts, transient, alpha, rhs, values, columns, offsets, lengths,
    )
}

#[unsafe(no_mangle)]
pub extern "C" fn mivtolgya_load_block(
    bank: &[[f64; 113]],
    block: usize,
    starts: &[usize],
    counts: &[usize],
    transient: u64,
    alpha: f64,
    rhs: &mut [f64],
    values: &mut [f64],
    columns: &[u32],
    offsets: &[usize],
    lengths: &[usize],
) -> u64
    ensures { (result ≡ block_call bank.now block starts.now counts.now transient alpha (record { columns = columns.now; offsets = offsets.now; lengths = lengths.now }) rhs.old values.old)
        × ((rhs.new ≡ block_side bank.now block starts.now counts.now transient alpha (record { columns = columns.now; offsets = offsets.now; lengths = lengths.now }) rhs.old values.old)
        × (values.new ≡ block_matrix bank.now block starts.now counts.now transient alpha (record { columns = columns.now; offsets = offsets.now; lengths = lengths.now }) rhs.old values.old)) }
{
    mivtolgya_bridge::mivtolgya_load_block(
        bank, block, starts, counts, transient, alpha, rhs, values, columns, offsets, lengths,
    )
}

#[unsafe(no_mangle)]
pub extern "C" fn mivtolgya_load_bridge_resolved(
    bank: &[[f64; 113]],
    starts: &[usize],
    counts: &[usize],
    transient: u64,
    alpha: f64,
    cells: &[[usize; 37]],
    rhs: &mut [f64],
    values: &mut [f64],
) -> u64
    ensures { (result ≡ resolved_bridge_call bank.now starts.now counts.now transient alpha cells.now rhs.old values.old)
        × ((rhs.new ≡ resolved_bridge_side bank.now starts.now counts.now transient alpha cells.now rhs.old values.old)
        × (values.new ≡ resolved_bridge_matrix bank.now starts.now counts.now transient alpha cells.now rhs.old values.old)) }
{
    mivtolgya_bridge::mivtolgya_load_bridge_resolved(
        bank, starts, counts, transient, alpha, cells, rhs, values,
    )
}
