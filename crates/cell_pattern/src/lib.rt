// A device's cells laid out as a matrix pattern in three lent slices.
#![tactic(auto)]

ghost use Rattle.std.specs.Prelude.{◌≡◌, true, false, suc, ◌+◌, ◌≤◌, ◌<◌, ◌/◌, ◌%◌, length, take};
ghost use Rattle.pattern.specs.Pattern.{rising};
ghost use Rattle.device.specs.Nodes.{node_beyond};
ghost use Rattle.cells.specs.Cells.{row_width, cells_of};
ghost use Rattle.cell_pattern.specs.CellPattern.{columns_in, lengths_in, running_offsets, rows_to, row_count, over, pattern_in, pattern_of, have_room, LaidOut};
ghost use Rattle.cell_pattern.specs.Steps.{count_before};

use cells::{BoundTerminals, CellList};
use device::NodeId;

// The lengths that the pattern needs: of the columns, and of the offsets and the lengths.
#[derive(Clone, Copy)]
pub struct Needed {
    pub columns: usize,
    pub rows: usize,
}

// A cell's row and column, of its number.
fn row_of(cell: u64) -> usize
    ensures { result ≡ cell / row_width }
{
    (cell / 4294967296) as usize
}

fn column_of(cell: u64) -> u32
    ensures { result ≡ cell % row_width }
{
    (cell % 4294967296) as u32
}

// The columns of the cells, in front of what the slice held.
fn write_columns(cells: &[u64], columns: &mut [u32])
    requires { length cells.now ≤ length columns.old }
    ensures { columns.new ≡ over (columns_in cells.now) columns.old }
{
    for i in 0..cells.len() {
        columns[i] = column_of(cells[i]);
    }
}

// Where the cells of a row end; at is where they begin.
fn row_end(cells: &[u64], at: usize, row: usize) -> usize
    requires { (rising cells.now ≡ true) × (at ≡ count_before row cells.now) }
    ensures { result ≡ count_before (suc row) cells.now }
{
    for i in at..cells.len() {
        if row < row_of(cells[i]) {
            return i;
        }
    }
    cells.len()
}

// The offsets and lengths of so many rows from 0 on, in one pass over the rising cells.
fn write_rows(cells: &[u64], rows: usize, offsets: &mut [usize], lengths: &mut [usize])
    requires { (rising cells.now ≡ true) × ((rows ≤ length offsets.old) × (rows ≤ length lengths.old)) }
    ensures { (offsets.new ≡ over (running_offsets 0 (lengths_in cells.now 0 rows)) offsets.old) × (lengths.new ≡ over (lengths_in cells.now 0 rows) lengths.old) }
{
    let mut at: usize = 0;
    for row in 0..rows {
        let end = row_end(cells, at, row);
        offsets[row] = at;
        lengths[row] = end - at;
        at = end;
    }
}

// Whether each of the three slices is long enough for so many cells and rows.
#[tactic(auto, unfolding(crate::specs::CellPattern::have_room))]
fn have_room(cells: usize, rows: usize, columns: usize, offsets: usize, lengths: usize) -> bool
    ensures { result ≡ have_room cells rows columns offsets lengths }
{
    cells <= columns && rows <= offsets && rows <= lengths
}

// The pattern of some cells in front of what the slices held; nothing is written where one is short.
fn write(
    cells: &[u64],
    rows: usize,
    columns: &mut [u32],
    offsets: &mut [usize],
    lengths: &mut [usize],
)
    requires { rising cells.now ≡ true }
    ensures { LaidOut (pattern_in cells.now rows) columns.old offsets.old lengths.old columns.new offsets.new lengths.new }
{
    if have_room(
        cells.len(),
        rows,
        columns.len(),
        offsets.len(),
        lengths.len(),
    ) {
        write_columns(cells, columns);
        write_rows(cells, rows, offsets, lengths);
    }
}

// The rows up to a node, its own among them.
fn rows_to(node: NodeId) -> usize
    requires { node_beyond row_width node ≡ false }
    ensures { result ≡ rows_to node }
{
    match node {
        NodeId::Ground => 0,
        NodeId::At(i) => i + 1,
    }
}

// One more than the largest node, 0 where all nodes are ground.
fn row_count(t: BoundTerminals) -> usize
    ensures { result ≡ row_count t.terminals }
{
    let nodes = t.terminals;
    rows_to(nodes.drain_ext)
        .max(rows_to(nodes.source_ext))
        .max(rows_to(nodes.drain))
        .max(rows_to(nodes.gate))
        .max(rows_to(nodes.source))
        .max(rows_to(nodes.bulk))
}

// The cells of a list, laid out.
fn write_list(
    list: CellList,
    rows: usize,
    columns: &mut [u32],
    offsets: &mut [usize],
    lengths: &mut [usize],
)
    requires { (list.count ≤ 44) × (rising (take list.count list.numbers) ≡ true) }
    ensures { LaidOut (pattern_in (take list.count list.numbers) rows) columns.old offsets.old lengths.old columns.new offsets.new lengths.new }
{
    let numbers = list.numbers;
    write(&numbers[..list.count], rows, columns, offsets, lengths);
}

// The pattern of a device's cells in front of what the slices held; nothing is written where one is short. The lengths that it needs.
pub fn lay_out(
    t: BoundTerminals,
    columns: &mut [u32],
    offsets: &mut [usize],
    lengths: &mut [usize],
) -> Needed
    ensures { (result.columns ≡ length (cells_of t.terminals)) × ((result.rows ≡ row_count t.terminals) × LaidOut (pattern_of t.terminals) columns.old offsets.old lengths.old columns.new offsets.new lengths.new) }
{
    let list = cells::cells(t);
    let rows = row_count(t);
    write_list(list, rows, columns, offsets, lengths);
    Needed {
        columns: list.count,
        rows,
    }
}
