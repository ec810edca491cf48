// Row 14 of the refusals: the runs of rows that the blocks of a bridge own in the shared right-hand side.
#![tactic(auto)]

ghost use Rattle.std.specs.Prelude.{◌≡◌, ◌+◌, ◌<◌, true, false, length, drop, get_or};
ghost use Rattle.bridge.specs.Runs.{any_of, leaves, overlap, any_overlap, runs_of, bad_runs, bridge_refused, block_refused};
ghost use Rattle.bridge.specs.Steps.{run_of, limit_of, rising};

// A run of rows: its first one, and how many there are.
#[derive(Clone, Copy)]
pub struct Run {
    pub start: usize,
    pub count: usize,
}

impl Run {
    // It shares a row with another. No end is worked out, so that none can overflow.
    #[tactic(auto, unfolding(crate::specs::Runs::overlap))]
    fn overlaps(self, other: Run) -> bool
        ensures { result ≡ overlap self other }
    {
        if self.count == 0 || other.count == 0 {
            return false;
        }
        if self.start <= other.start {
            other.start - self.start < self.count
        } else {
            self.start - other.start < other.count
        }
    }

    // The first row of neither lies in the other: no row is shared. The distance of the first rows is taken both ways, where one goes round
    // the end of the numbers, so that nothing hangs on which of the two begins first: the processor foresees it for runs in any order. Of runs
    // that share no row some are not apart so: an empty one inside the other, and one so long that it comes round to the other's first row.
    #[tactic(auto, unfolding(crate::specs::Runs::overlap))]
    fn apart(self, other: Run) -> bool
        ensures { result ≡ true → overlap self other ≡ false }
    {
        other.count <= self.start.wrapping_sub(other.start)
            && self.count <= other.start.wrapping_sub(self.start)
    }

    // It goes past so many rows. Its count is compared with what is left behind its first row, since the sum could overflow.
    #[tactic(auto, unfolding(crate::specs::Runs::leaves))]
    fn leaves(self, rows: usize) -> bool
        ensures { result ≡ leaves rows self }
    {
        rows < self.start || rows - self.start < self.count
    }
}

// The runs of all blocks, as they are lent: two slices, which row 14 holds to one length.
#[derive(Clone, Copy)]
pub struct BlockRuns<'a> {
    pub starts: &'a [usize],
    pub counts: &'a [usize],
}

impl BlockRuns<'_> {
    fn any_leaves(self, rows: usize) -> bool
        ensures { result ≡ any_of (leaves rows) (runs_of self.entry.starts.now self.entry.counts.now) }
    {
        self.starts
            .iter()
            .zip(self.counts)
            .any(|(&start, &count)| Run { start, count }.leaves(rows))
    }

    // Two of the runs share a row. Asked only of runs that are not apart, and out of line, so that the loop over the pairs stays short.
    #[inline(never)]
    fn pair_overlaps(self, k: usize, j: usize) -> bool
        requires first { k < length self.starts.now }
        requires second { j < length self.starts.now }
        requires same { length self.starts.now ≡ length self.counts.now }
        ensures { result ≡ overlap (run_of self.entry.starts.now self.entry.counts.now k) (run_of self.entry.starts.now self.entry.counts.now j) }
    {
        let run = Run {
            start: self.starts[k],
            count: self.counts[k],
        };
        let other = Run {
            start: self.starts[j],
            count: self.counts[j],
        };
        run.overlaps(other)
    }

    // A run shares a row with one of those behind it; an empty one need not be held to them. By index: `zip` asks for two ends at each step,
    // and this is asked of each pair.
    fn overlaps_later(self, k: usize) -> bool
        requires inside { k < length self.starts.now }
        requires same { length self.starts.now ≡ length self.counts.now }
        ensures { result ≡ any_of (overlap (run_of self.entry.starts.now self.entry.counts.now k)) (drop (k + 1) (runs_of self.entry.starts.now self.entry.counts.now)) }
    {
        let run = Run {
            start: self.starts[k],
            count: self.counts[k],
        };
        if run.count == 0 {
            return false;
        }
        for j in k + 1..self.starts.len() {
            let other = Run {
                start: self.starts[j],
                count: self.counts[j],
            };
            if !run.apart(other) && self.pair_overlaps(k, j) {
                return true;
            }
        }
        false
    }

    // Out of line: the loops of all loads are then one code, whose time hangs less on where the linker puts it.
    #[inline(never)]
    fn any_overlap(self) -> bool
        requires same { length self.starts.now ≡ length self.counts.now }
        ensures { result ≡ any_overlap (runs_of self.entry.starts.now self.entry.counts.now) }
    {
        for k in 0..self.starts.len() {
            if self.overlaps_later(k) {
                return true;
            }
        }
        false
    }

    // The row at which a run must have ended: the first row of the next one, or the end of so many rows.
    fn limit_behind(self, i: usize, rows: usize) -> usize
        requires inside { i < length self.starts.now }
        requires same { length self.starts.now ≡ length self.counts.now }
        ensures { result ≡ limit_of rows (drop (i + 1) (runs_of self.entry.starts.now self.entry.counts.now)) }
    {
        if i + 1 < self.starts.len() {
            self.starts[i + 1]
        } else {
            rows
        }
    }

    // Each run ends where the next one begins, or before, and the last one inside so many rows. Then no run leaves the rows and no two
    // overlap, and the usual runs need this one pass, where `any_overlap` compares each run with each.
    fn rising(self, rows: usize) -> bool
        requires same { length self.starts.now ≡ length self.counts.now }
        ensures { result ≡ rising rows (runs_of self.entry.starts.now self.entry.counts.now) }
    {
        for i in 0..self.starts.len() {
            let run = Run {
                start: self.starts[i],
                count: self.counts[i],
            };
            if run.leaves(self.limit_behind(i, rows)) {
                return false;
            }
        }
        true
    }
}

// Row 14 of a bridge's load, of so many devices into a right-hand side of so many rows.
#[tactic(auto, using(crate::proofs::RisingRuns::refused_by_pass))]
pub fn bridge_refused(runs: BlockRuns, rows: usize, devices: usize) -> bool
    ensures { result ≡ bridge_refused runs.entry.starts.now runs.entry.counts.now rows devices }
{
    if 64 < devices || runs.starts.len() != runs.counts.len() {
        return true;
    }
    !runs.rising(rows) && (runs.any_leaves(rows) || runs.any_overlap())
}

// Row 14 of a block's load: its number must be that of a run too.
#[tactic(auto, unfolding(crate::specs::Runs::block_refused))]
pub fn block_refused(block: usize, runs: BlockRuns, rows: usize, devices: usize) -> bool
    ensures { result ≡ block_refused block runs.entry.starts.now runs.entry.counts.now rows devices }
{
    bridge_refused(runs, rows, devices) || runs.starts.len() <= block
}
