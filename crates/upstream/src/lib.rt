// The search upstream from the outlets: a queue of cells, each after the cell that its water goes to.
#![tactic(auto)]

pub mod parts;

ghost use Rattle.std.specs.Prelude.{◌≡◌, ◌+◌, ◌*◌, ◌/◌, ◌%◌, ◌<◌, ◌≤◌, length};
ghost use Rattle.sheet.specs.Sheet.{grid, is_outlet};
ghost use Rattle.directions.specs.Sizes.{most_cells, OnSheet, Sized, grid_of};
ghost use Rattle.upstream.specs.Work.{sizes_part, Unranked, KeptFrom, pushed};
ghost use Rattle.upstream.specs.Search.{Coded, Searched};
ghost use Rattle.upstream.specs.Growth.{Ready, DonorsPushed, AllPushed, Seeded, Spread};

use directions::Grid;

// Queues a cell. Its receiver is the number, from 1, of the cell that its water goes to; 0 for an outlet.
fn push(work: &mut [u32], n: usize, end: usize, cell: usize, receiver: usize) -> usize
    requires { (sizes_part * n ≤ length work.old) × (n ≤ most_cells) × (end < n) × (cell < n) × (receiver ≤ n) }
    ensures { (result ≡ end + 1) × (work.new ≡ pushed n work.old end cell receiver) }
{
    work[end] = cell as u32;
    work[parts::RANKS * n + cell] = (end + 1) as u32;
    work[parts::RECEIVERS * n + cell] = receiver as u32;
    end + 1
}

// Queues the cell in a row and a column, if it is an outlet.
fn push_outlet(grid: Grid<'_>, work: &mut [u32], end: usize, row: usize, col: usize) -> usize
    requires { Sized grid.rows grid.cols grid.dirs.now × OnSheet grid.rows grid.cols row col
        × Seeded (grid_of grid) work.old end (row * grid.cols + col) }
    ensures { Seeded (grid_of grid.entry) work.new result (row * grid.entry.cols + col + 1)
        × KeptFrom (sizes_part * (grid.entry.rows * grid.entry.cols)) work.old work.new }
{
    if grid.is_outlet(row, col) {
        push(work, grid.rows * grid.cols, end, row * grid.cols + col, 0)
    } else {
        end
    }
}

// Queues the outlets of a row.
fn seed_row(grid: Grid<'_>, work: &mut [u32], end: usize, row: usize) -> usize
    requires { Sized grid.rows grid.cols grid.dirs.now × (row < grid.rows)
        × Seeded (grid_of grid) work.old end (row * grid.cols) }
    ensures { Seeded (grid_of grid.entry) work.new result ((row + 1) * grid.entry.cols)
        × KeptFrom (sizes_part * (grid.entry.rows * grid.entry.cols)) work.old work.new }
{
    let mut last = end;
    for col in 0..grid.cols {
        last = push_outlet(grid, work, last, row, col);
    }
    last
}

// Queues the outlets, in reading order.
fn seed(grid: Grid<'_>, work: &mut [u32]) -> usize
    requires { Sized grid.rows grid.cols grid.dirs.now × Unranked (grid.rows * grid.cols) work.old }
    ensures { Seeded (grid_of grid.entry) work.new result (grid.entry.rows * grid.entry.cols)
        × KeptFrom (sizes_part * (grid.entry.rows * grid.entry.cols)) work.old work.new }
{
    let mut end = 0;
    for row in 0..grid.rows {
        end = seed_row(grid, work, end, row);
    }
    end
}

// Queues the donor, against the k-th step, of the cell in a row and a column, unless it is queued already.
fn push_donor(
    grid: Grid<'_>,
    work: &mut [u32],
    end: usize,
    row: usize,
    col: usize,
    k: usize,
) -> usize
    requires { Ready (grid_of grid) work.old end row col × (k < 8) }
    ensures { DonorsPushed (grid_of grid.entry) work.old end
        work.new result row col k (k + 1) }
{
    let n = grid.rows * grid.cols;
    let Some(donor) = grid.neighbour_against(row, col, k) else {
        return end;
    };
    if work[parts::RANKS * n + donor] == 0 {
        push(work, n, end, donor, row * grid.cols + col + 1)
    } else {
        end
    }
}

// Queues the donors of a queued cell.
fn push_donors(grid: Grid<'_>, work: &mut [u32], end: usize, cell: usize) -> usize
    requires { Coded (grid_of grid)
        × Ready (grid_of grid) work.old end (cell / grid.cols) (cell % grid.cols) }
    ensures { AllPushed (grid_of grid.entry) work.old end
        work.new result cell }
{
    let row = cell / grid.cols;
    let col = cell - row * grid.cols;
    let mut last = end;
    for k in 0..8 {
        last = push_donor(grid, work, last, row, col, k);
    }
    last
}

// Goes through the queue, and queues the donors of each cell.
fn spread(grid: Grid<'_>, work: &mut [u32], outlets: usize) -> usize
    requires { Sized grid.rows grid.cols grid.dirs.now × Coded (grid_of grid)
        × Spread (grid_of grid) work.old outlets 0 }
    ensures { Spread (grid_of grid.entry) work.new result result
        × KeptFrom (sizes_part * (grid.entry.rows * grid.entry.cols)) work.old work.new }
{
    let mut end = outlets;
    let mut head = 0;
    while head < end {
        let cell = work[head] as usize;
        end = push_donors(grid, work, end, cell);
        head += 1;
    }
    end
}

// Queues every inside cell whose water comes to an outlet, each after the cell that its water goes to. How many there
// are.
pub fn search(grid: Grid<'_>, work: &mut [u32]) -> usize
    requires { Sized grid.rows grid.cols grid.dirs.now × Coded (grid_of grid) × Unranked (grid.rows * grid.cols) work.old }
    ensures { Searched (grid_of grid.entry) work.new result
        × KeptFrom (sizes_part * (grid.entry.rows * grid.entry.cols)) work.old work.new }
{
    let outlets = seed(grid, work);
    spread(grid, work, outlets)
}
