// Positions in the order along rivers, and the cell and the size at each.
ghost use Rattle.std.specs.Prelude.{◌≡◌, map, ◌*◌, ◌<◌, ◌≤◌, length, take};
ghost use Rattle.sheet.specs.Sheet.{grid};
ghost use Rattle.directions.specs.Sizes.{most_cells, grid_of};
ghost use Rattle.order.specs.Keys.{cell_of};
ghost use Rattle.order.specs.Places.{position_at, Measured, Surveyed, positioned, PositionsFit, Standing};
ghost use Rattle.order.specs.Places.{first_outlets, OutletsFit};
ghost use Rattle.order.specs.Places.{DonorsPlaced, Placed, entered, Apart, Entered, Arranged, OtherPlaces};

use crate::donors::donors_of;
use directions::Grid;
use upstream::parts;

// Gives the cells of keys positions one after the other from `first` on.
fn place_donors(n: usize, first: u32, keys: &[u64], work: &mut [u32])
    requires { PositionsFit n first (map cell_of keys.now) work.old }
    ensures { work.new ≡ positioned n first (map cell_of keys.now) work.old }
{
    let sizes = parts::SIZES * n;
    let positions = parts::POSITIONS * n;
    let mut at = first;
    for key in keys {
        let cell = (*key % 65536) as usize;
        let size = work[sizes + cell];
        work[positions + cell] = at;
        at += size;
    }
}

// Gives the donors of a cell their positions: the first stands next after the cell.
fn place_upstream(grid: Grid<'_>, areas: &[u32], cell: usize, work: &mut [u32])
    requires measured { Measured (grid_of grid) areas.now }
    requires standing { Standing (grid_of grid) areas.now work.old cell }
    ensures { DonorsPlaced (grid_of grid.entry) areas.now
        work.old work.new cell }
{
    let n = grid.rows * grid.cols;
    if work[parts::SIZES * n + cell] == 1 {
        return;
    }
    let first = work[parts::POSITIONS * n + cell] + 1;
    let mut keys = [0u64; 8];
    let count = donors_of(grid, areas, cell, &mut keys);
    place_donors(n, first, &keys[..count], work);
}

// Gives the outlets, which stand first in the queue, positions one after the other from 0 on.
fn place_outlets(n: usize, queued: usize, work: &mut [u32])
    requires { OutletsFit n queued work.old }
    ensures { work.new
        ≡ positioned n 0 (first_outlets n work.old (take queued work.old)) work.old }
{
    let mut at = 0;
    // By place, since a turn writes to the slice that holds the queue.
    for i in 0..queued {
        let cell = work[i] as usize;
        if work[parts::RECEIVERS * n + cell] > 0 {
            return;
        }
        work[parts::POSITIONS * n + cell] = at;
        at += work[parts::SIZES * n + cell];
    }
}

// Gives every queued cell its position. A cell's receiver stands before it in the queue.
fn place_all(grid: Grid<'_>, areas: &[u32], queued: usize, work: &mut [u32])
    requires { Surveyed (grid_of grid) areas.now work.old queued }
    ensures { Placed (grid_of grid.entry) areas.now
        work.old work.new queued queued }
{
    place_outlets(grid.rows * grid.cols, queued, work);
    // By place, since a turn writes to the slice that holds the queue.
    for i in 0..queued {
        let cell = work[i] as usize;
        place_upstream(grid, areas, cell, work);
    }
}

// Writes a cell and its size at its position.
fn enter(n: usize, cell: usize, work: &mut [u32])
    requires { (n ≤ most_cells) × (8 * n ≤ length work.old) × (cell < n) × (position_at n work.old cell < n) }
    ensures { work.new ≡ entered n work.old cell }
{
    let at = work[parts::POSITIONS * n + cell] as usize;
    let size = work[parts::SIZES * n + cell];
    work[parts::CELLS * n + at] = cell as u32;
    work[parts::ORDERED_SIZES * n + at] = size;
}

// Writes every queued cell and its size at its position.
fn enter_all(n: usize, queued: usize, work: &mut [u32])
    requires { Apart n work.old queued }
    ensures { Entered n work.old work.new queued }
{
    // By place, since a turn writes to the slice that holds the queue.
    for i in 0..queued {
        let cell = work[i] as usize;
        enter(n, cell, work);
    }
}

// The order of the queued cells along rivers, with the size at each position.
pub fn arrange(grid: Grid<'_>, areas: &[u32], queued: usize, work: &mut [u32])
    requires { Surveyed (grid_of grid) areas.now work.old queued }
    ensures order { Arranged (grid_of grid.entry) areas.now
        work.new queued }
    ensures places { OtherPlaces (grid_of grid.entry)
        work.old work.new queued }
{
    place_all(grid, areas, queued, work);
    enter_all(grid.rows * grid.cols, queued, work);
}
