// Areas and sizes: own values of cells, added up along the queue of a search, backwards.
ghost use Rattle.std.specs.Prelude.{◌≡◌, ◌*◌, ◌≤◌, length};
ghost use Rattle.sheet.specs.Sheet.{Sheet, grid};
ghost use Rattle.directions.specs.Sizes.{Sized, grid_of};
ghost use Rattle.sheet.specs.Area.{row_weight};
ghost use Rattle.sheet.specs.Label.{areas_of, list_from};
ghost use Rattle.sheet.specs.Refusal.{written};
ghost use Rattle.upstream.specs.Work.{positions_part, receiver_of, with_sizes};
ghost use Rattle.upstream.specs.Search.{Drained};
ghost use Rattle.drainage.specs.Total.{Gathers, Adds, added, totals_in, value_at, own_value, own_values};
ghost use Rattle.drainage.specs.Total.{Weighted, all_ones, sizes_of};

use directions::Grid;
use upstream::parts;

// What a cell adds by itself: the value inside, 0 outside.
#[tactic(auto, unfolding(crate::specs::Total::own_value))]
fn own_value(code: u8, value: u32) -> u32
    ensures { result ≡ own_value code value }
{
    if code == 0 { 0 } else { value }
}

// What each of the first n cells adds by itself, of one value for all.
fn own_values(dirs: &[u8], value: u32, n: usize, totals: &mut [u32])
    requires { (n ≤ length dirs.now) × (n ≤ length totals.old) }
    ensures { totals.new
        ≡ written (list_from (own_values dirs.now (λ c. value)) 0 n) totals.old }
{
    for (c, code) in dirs[..n].iter().enumerate() {
        totals[c] = own_value(*code, value);
    }
}

// What each cell adds by itself to areas: the weight of its row.
fn own_weights(grid: Grid<'_>, weights: &[u16], totals: &mut [u32])
    requires { Sized grid.rows grid.cols grid.dirs.now × (grid.rows ≤ length weights.now) × (grid.rows * grid.cols ≤ length totals.old) }
    ensures { totals.new
        ≡ written (list_from (own_values grid.entry.dirs.now (row_weight grid.entry.cols weights.now)) 0 (grid.entry.rows * grid.entry.cols))
        totals.old }
{
    for row in 0..grid.rows {
        let first = row * grid.cols;
        own_values(
            &grid.dirs[first..],
            weights[row] as u32,
            grid.cols,
            &mut totals[first..],
        );
    }
}

// Adds a cell's total to its receiver's.
fn add_to_receiver(work: &[u32], n: usize, cell: usize, totals: &mut [u32])
    requires { Adds n work.now cell totals.old }
    ensures { totals.new ≡ added (receiver_of n work.now cell) totals.old cell }
{
    let receiver = work[parts::RECEIVERS * n + cell] as usize;
    if receiver != 0 {
        let to = receiver - 1;
        totals[to] += totals[cell];
    }
}

// Adds up own values along the queue, backwards: afterwards each cell has the sum over the cells whose water passes it.
fn gather(work: &[u32], n: usize, queued: usize, totals: &mut [u32])
    requires { Gathers n work.now queued totals.old }
    ensures { totals.new
        ≡ written (totals_in n work.now (value_at totals.old)) totals.old }
{
    for cell in work[..queued].iter().rev() {
        add_to_receiver(work, n, *cell as usize, totals);
    }
}

// The areas of a drained sheet: of any sheet with this grid and these weights.
fn areas(grid: Grid<'_>, weights: &[u16], work: &[u32], queued: usize, areas: &mut [u32])
    requires { Sized grid.rows grid.cols grid.dirs.now × Drained (grid_of grid) work.now queued
        × Weighted grid.rows weights.now × (grid.rows * grid.cols ≤ length areas.old) }
    ensures { (S : Sheet) → S.grid ≡ grid_of grid.entry → S.weights ≡ weights.now
        → areas.new ≡ written (areas_of S) areas.old }
{
    own_weights(grid, weights, areas);
    gather(work, grid.rows * grid.cols, queued, areas);
}

// Copies all places. No `copy_from_slice`: with it the archive for C needs `memmove` from outside.
fn copy(from: &[u32], to: &mut [u32])
    requires { length from.now ≡ length to.old }
    ensures { to.new ≡ from.now }
{
    for (i, value) in from.iter().enumerate() {
        to[i] = *value;
    }
}

// The sizes of a drained sheet, into their part of the work places. They are gathered in the places lent for areas.
fn sizes(grid: Grid<'_>, work: &mut [u32], queued: usize, areas: &mut [u32])
    requires { Sized grid.rows grid.cols grid.dirs.now × Drained (grid_of grid) work.old queued
        × (grid.rows * grid.cols ≤ length areas.old) × (positions_part * (grid.rows * grid.cols) ≤ length work.old) }
    ensures { (work.new
        ≡ with_sizes (grid.entry.rows * grid.entry.cols) (sizes_of (grid_of grid.entry)) work.old)
        × (areas.new ≡ written (sizes_of (grid_of grid.entry)) areas.old) }
{
    let n = grid.rows * grid.cols;
    own_values(grid.dirs, 1, n, areas);
    gather(work, n, queued, areas);
    let from = parts::SIZES * n;
    copy(&areas[..n], &mut work[from..from + n]);
}

// The weights of the rows are all 1.
fn all_ones(weights: &[u16], rows: usize) -> bool
    requires { rows ≤ length weights.now }
    ensures { result ≡ all_ones rows weights.now }
{
    weights[..rows].iter().all(|weight| *weight == 1)
}

// The sizes of a drained sheet, then its areas, which are the sizes where all weights are 1.
pub fn measure(
    grid: Grid<'_>,
    weights: &[u16],
    work: &mut [u32],
    queued: usize,
    lent_areas: &mut [u32],
)
    requires { Sized grid.rows grid.cols grid.dirs.now × Drained (grid_of grid) work.old queued
        × Weighted grid.rows weights.now × (grid.rows * grid.cols ≤ length lent_areas.old)
        × (positions_part * (grid.rows * grid.cols) ≤ length work.old) }
    ensures { (work.new
        ≡ with_sizes (grid.entry.rows * grid.entry.cols) (sizes_of (grid_of grid.entry)) work.old)
        × ((S : Sheet) → S.grid ≡ grid_of grid.entry → S.weights ≡ weights.now
        → lent_areas.new ≡ written (areas_of S) lent_areas.old) }
{
    sizes(grid, work, queued, lent_areas);
    if all_ones(weights, grid.rows) {
        return;
    }
    areas(grid, weights, work, queued, lent_areas);
}
