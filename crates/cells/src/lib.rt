// The list of the cells that a device may ever load, by its nodes: before any evaluation, and for every one.
#![tactic(auto)]

ghost use Rattle.std.specs.Prelude.{◌≡◌, false, [], ◌<◌, take};
ghost use Rattle.device.specs.Nodes.{any_node_beyond};
ghost use Rattle.cells.specs.Cells.{row_width, positions_of, cells_of, Listed};
ghost use Rattle.cells.specs.Steps.{carry_of, carry_cell_of, carry_cells_of, row_indices, column_indices, Grown};

use device::Terminals;
use places::Nodes;

// Terminals whose nodes' indices are all below 2^32, as row 8 lets pass: each cell is then a number.
#[derive(Clone, Copy)]
pub struct BoundTerminals {
    pub terminals: Terminals,
    pub ghost below: { any_node_beyond row_width terminals ≡ false },
}

// Cells, each as row · 2^32 + column, in rising order: the first `count` numbers, and ones behind them.
#[derive(Clone, Copy)]
pub struct CellList {
    pub numbers: [u64; 44],
    pub count: usize,
}

// A number put among rising ones, unless it is there.
fn insert(list: CellList, number: u64) -> CellList
    requires { list.count < 44 }
    ensures { Grown (carry_of number (take list.count list.numbers)) list.numbers list.count result.numbers result.count }
{
    let count = list.count;
    let mut numbers = list.numbers;
    let mut carried = number;
    for i in 0..count {
        let here = numbers[i];
        if here == carried {
            return CellList { numbers, count };
        }
        numbers[i] = carried.min(here);
        carried = carried.max(here);
    }
    numbers[count] = carried;
    CellList {
        numbers,
        count: count + 1,
    }
}

// A cell by the indices of its row and column; ground's is not below 2^32.
#[tactic(auto, using(crate::proofs::Insertion::skip_row, crate::proofs::Insertion::skip_column, crate::proofs::Insertion::put_cell))]
fn insert_cell(list: CellList, row: usize, column: usize) -> CellList
    requires { list.count < 44 }
    ensures { Grown (carry_cell_of row column (take list.count list.numbers)) list.numbers list.count result.numbers result.count }
{
    if 4294967296 <= row || 4294967296 <= column {
        return list;
    }
    insert(list, row as u64 * 4294967296 + column as u64)
}

// The cells of all positions, put in one after the other. The array starts with ones: zeros would be filled in by a call of memset, and the library is to need no symbol but memcpy.
fn insert_cells(rows: [usize; 44], columns: [usize; 44]) -> CellList
    ensures { Listed (carry_cells_of rows columns []) result.numbers result.count }
{
    let mut list = CellList {
        numbers: [1; 44],
        count: 0,
    };
    for i in 0..44 {
        list = insert_cell(list, rows[i], columns[i]);
    }
    list
}

// The rows of the 44 positions in their order, by index: the channel's eight, four of RD, RS and each junction, four of each charge branch.
fn rows(t: Terminals) -> [usize; 44]
    ensures { result ≡ row_indices (positions_of t) }
{
    let Nodes {
        drain_ext: dx,
        source_ext: sx,
        drain: d,
        gate: g,
        source: s,
        bulk: b,
    } = places::indices(t);
    [
        d, d, d, d, s, s, s, s, dx, dx, d, d, sx, sx, s, s, b, b, s, s, b, b, d, d, g, g, s, s, g,
        g, d, d, g, g, b, b, b, b, s, s, b, b, d, d,
    ]
}

// Their columns.
fn columns(t: Terminals) -> [usize; 44]
    ensures { result ≡ column_indices (positions_of t) }
{
    let Nodes {
        drain_ext: dx,
        source_ext: sx,
        drain: d,
        gate: g,
        source: s,
        bulk: b,
    } = places::indices(t);
    [
        g, d, s, b, g, d, s, b, dx, d, dx, d, sx, s, sx, s, b, s, b, s, b, d, b, d, g, s, s, g, g,
        d, d, g, g, b, b, g, b, s, s, b, b, d, d, b,
    ]
}

// The cells that a device with these terminals may ever load: the 24 of the Jacobian's values and those of the charge branches.
pub fn cells(t: BoundTerminals) -> CellList
    ensures { Listed (cells_of t.terminals) result.numbers result.count }
{
    insert_cells(rows(t.terminals), columns(t.terminals))
}
