// The matrix pattern (the Rust's `Pattern` of mna.rs): row 12's test, and the place of a cell.
#![tactic(auto)]

ghost use Rattle.std.specs.Prelude.{◌≡◌, ◌+◌, ◌^◌, ◌<◌, ◌≤◌, true, length, is_some, IfSome};
ghost use Rattle.std.proofs.Math.Seq.{slice};
ghost use Rattle.pattern.specs.Pattern.{lists, rising, well_formed, place_in, cell_of, span_of, guess_of};

// The columns of all rows, and for each row the offset and the length of its part of them, as a caller lends them.
#[derive(Clone, Copy)]
pub struct Pattern<'a> {
    pub columns: &'a [u32],
    pub offsets: &'a [usize],
    pub lengths: &'a [usize],
}

// A pattern that row 12's test passed.
#[derive(Clone, Copy)]
pub struct WellFormed<'a> {
    pub pattern: Pattern<'a>,
    pub ghost fits: { well_formed pattern.columns.now pattern.offsets.now pattern.lengths.now (length pattern.columns.now) ≡ true },
}

// A row's part of the columns, and the first column in it, 0 where the row is empty.
#[derive(Clone, Copy)]
pub struct RowSpan {
    pub from: usize,
    pub len: usize,
    pub first: usize,
}

// Whether the columns from `from` up to `to` rise.
fn rises(columns: &[u32], from: usize, to: usize) -> bool
    requires { (from ≤ to) × (to ≤ length columns.now) }
    ensures { result ≡ rising (slice from to columns.now) }
{
    columns[from..to].is_sorted_by(|a, b| a < b)
}

// Binary search for a column among rising ones. It serves the next layer, as do `row_span` and `guess`: the pattern has
// passed row 12's test.
pub fn search(columns: &[u32], from: usize, to: usize, column: usize) -> Option<usize>
    requires { (from ≤ to) × ((to ≤ length columns.now) × (rising (slice from to columns.now) ≡ true)) }
    ensures { result ≡ place_in from (slice from to columns.now) column }
{
    // The loop stands: a slice's `binary_search` takes a `u32`, and a column that none fits would need a test of its own before it.
    let mut lo = from;
    let mut hi = to;
    while lo < hi {
        let mid = lo + ((hi - lo) >> 1);
        let here = wide(columns[mid]);
        if here == column {
            return Some(mid);
        }
        if here < column {
            lo = mid + 1;
        } else {
            hi = mid;
        }
    }
    None
}

fn wide(x: u32) -> usize
    ensures { result ≡ x }
{
    x as usize
}

// The place that a column has in a row without gaps, tried before the search: in a short row it is mostly the right one.
pub fn guess(columns: &[u32], from: usize, len: usize, first: usize, column: usize) -> Option<usize>
    requires { (from + len ≤ length columns.now) × (rising (slice from (from + len) columns.now) ≡ true) }
    ensures place { result ≡ guess_of columns.now from len first column }
    ensures column_fits { IfSome result (λ _. column < 2 ^ 32) }
{
    let ahead = std::num::wrapping_sub_usize(column, first);
    if len <= ahead {
        return None;
    }
    let at = from + ahead;
    if wide(columns[at]) == column {
        return Some(at);
    }
    None
}

impl<'a> Pattern<'a> {
    // Row 12's test, in one pass over the columns: false where the row applies. An end that would overflow lies behind
    // the columns' end, so the length is compared with what is left.
    pub fn is_well_formed(self, values: usize) -> bool
        ensures { result ≡ well_formed self.entry.columns.now self.entry.offsets.now self.entry.lengths.now values }
    {
        let Pattern {
            columns,
            offsets,
            lengths,
        } = self;
        if values != columns.len() || offsets.len() != lengths.len() {
            return false;
        }
        let mut end = 0;
        for i in 0..offsets.len() {
            let offset = offsets[i];
            let len = lengths[i];
            if offset < end || columns.len() < offset || columns.len() - offset < len {
                return false;
            }
            end = offset + len;
            if !rises(columns, offset, end) {
                return false;
            }
        }
        true
    }

    // The pattern as one that the test passed, if it does.
    pub fn tested(self, values: usize) -> Option<WellFormed<'a>>
        ensures answer { is_some result ≡ well_formed self.entry.columns.now self.entry.offsets.now self.entry.lengths.now values }
        ensures kept { IfSome result (λ w. lists w.pattern ≡ lists self.entry) }
    {
        if self.is_well_formed(values) {
            return Some(WellFormed { pattern: self });
        }
        None
    }
}

impl WellFormed<'_> {
    // A row's part of the columns; a row behind the last is empty.
    pub fn row_span(self, row: usize) -> RowSpan
        ensures { result ≡ span_of self.entry.pattern.columns.now self.entry.pattern.offsets.now self.entry.pattern.lengths.now row }
    {
        let Pattern {
            columns,
            offsets,
            lengths,
        } = self.pattern;
        if offsets.len() <= row {
            return RowSpan {
                from: 0,
                len: 0,
                first: 0,
            };
        }
        let from = offsets[row];
        let len = lengths[row];
        if len == 0 {
            return RowSpan {
                from,
                len,
                first: 0,
            };
        }
        let first = wide(columns[from]);
        RowSpan { from, len, first }
    }

    // `Pattern::cell`.
    pub fn cell(self, row: usize, column: usize) -> Option<usize>
        ensures { result ≡ cell_of self.entry.pattern.columns.now self.entry.pattern.offsets.now self.entry.pattern.lengths.now row column }
    {
        let columns = self.pattern.columns;
        let RowSpan { from, len, first } = self.row_span(row);
        // The arms stand as they are: the closure of an `or_else` has to show what `search` requires, and that proof did not close.
        match guess(columns, from, len, first, column) {
            Some(p) => Some(p),
            None => search(columns, from, from + len, column),
        }
    }
}
