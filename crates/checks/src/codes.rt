// Check 4: the first bad byte in reading order, one that is none of the nine codes.
ghost use Rattle.std.specs.Prelude.{◌≡◌, ℕ, slice_index, ◌<◌, ◌+◌, ◌-◌, ◌*◌, ◌≤◌, length};
ghost use Rattle.sheet.specs.Sheet.{first, first_from};
ghost use Rattle.sheet.specs.Word.{number_at};
ghost use Rattle.sheet.specs.Refusal.{bad_code};
ghost use Rattle.directions.specs.Sizes.{Sized, grid_of};

use directions::{Grid, word};

// Eight bytes from a place on as one word, lowest byte first. Written as shifts that are joined, it compiles to one
// load. The bound of its bytes is told, since a slice in a struct does not tell it by itself.
fn word_at(bytes: &[u8], at: usize) -> u64
    requires { at + 8 ≤ length bytes.now }
    ensures word { result ≡ number_at 8 bytes.now at }
    ensures bytes { (m : ℕ) → slice_index bytes.now m < 256 }
{
    (bytes[at] as u64)
        | ((bytes[at + 1] as u64) << 8)
        | ((bytes[at + 2] as u64) << 16)
        | ((bytes[at + 3] as u64) << 24)
        | ((bytes[at + 4] as u64) << 32)
        | ((bytes[at + 5] as u64) << 40)
        | ((bytes[at + 6] as u64) << 48)
        | ((bytes[at + 7] as u64) << 56)
}

// The first bad byte from a cell on, a byte at a time.
pub fn first_bad_from(grid: Grid<'_>, from: usize) -> Option<usize>
    requires { Sized grid.rows grid.cols grid.dirs.now × (from ≤ grid.rows * grid.cols) }
    ensures { result ≡ first_from (bad_code (grid_of grid.entry)) from (grid.entry.rows * grid.entry.cols - from) }
{
    for cell in from..grid.rows * grid.cols {
        if !directions::is_code(grid.dirs[cell]) {
            return Some(cell);
        }
    }
    None
}

// The first bad byte of a sheet: a word at a time while eight bytes remain, then the rest, or a word with a bad byte, a
// byte at a time.
pub fn first_bad_code(grid: Grid<'_>) -> Option<usize>
    requires { Sized grid.rows grid.cols grid.dirs.now }
    ensures { result ≡ first (bad_code (grid_of grid.entry)) (grid.entry.rows * grid.entry.cols) }
{
    let words = grid.rows * grid.cols / 8;
    for word in 0..words {
        if word::first_bad(word_at(grid.dirs, 8 * word)) < 8 {
            return first_bad_from(grid, 8 * word);
        }
    }
    first_bad_from(grid, 8 * words)
}
