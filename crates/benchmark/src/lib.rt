// Check 4 by words and by bytes, for bench/run alone: no other crate uses them, and the exported library has neither.
#![tactic(auto)]

ghost use Rattle.std.specs.Prelude.{◌≡◌};
ghost use Rattle.benchmark.specs.Cells.{has_cells, cell_or, first_bad_cell};

use directions::Grid;

// Whether rows and columns are 1 to 256 each and there is a byte for each cell.
#[tactic(auto, unfolding(crate::specs::Cells::has_cells))]
fn has_cells(rows: usize, cols: usize, dirs: &[u8]) -> bool
    ensures { result ≡ has_cells rows cols dirs.now }
{
    checks::sizes_fit(rows, cols) && rows * cols <= dirs.len()
}

// The cell that was found, or n.
#[tactic(auto, unfolding(crate::specs::Cells::cell_or))]
fn cell_or(n: usize, found: Option<usize>) -> usize
    ensures { result ≡ cell_or n found }
{
    found.unwrap_or(n)
}

// Check 4 as labelling does it.
#[unsafe(no_mangle)]
pub extern "C" fn bench_codes_by_words(rows: usize, cols: usize, dirs: &[u8]) -> usize
    ensures { result ≡ first_bad_cell rows cols dirs.now }
{
    if has_cells(rows, cols, dirs) {
        let grid = Grid { rows, cols, dirs };
        return cell_or(rows * cols, checks::codes::first_bad_code(grid));
    }
    0
}

// The same, a byte at a time from the first to the last.
#[unsafe(no_mangle)]
pub extern "C" fn bench_codes_by_bytes(rows: usize, cols: usize, dirs: &[u8]) -> usize
    ensures { result ≡ first_bad_cell rows cols dirs.now }
{
    if has_cells(rows, cols, dirs) {
        let grid = Grid { rows, cols, dirs };
        return cell_or(rows * cols, checks::codes::first_bad_from(grid, 0));
    }
    0
}
