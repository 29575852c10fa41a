// The fixed table of steps, where a cell's water goes, and the neighbours one step back; in `word` the test of eight
// directions at once.
#![tactic(auto)]

pub mod word;

ghost use Rattle.std.specs.Prelude.{◌≡◌, ◌+◌, ◌*◌, ◌<◌};
ghost use Rattle.sheet.specs.Direction.{step_of, is_code, moved_by, step_end};
ghost use Rattle.sheet.specs.Sheet.{next, is_outlet};
ghost use Rattle.directions.specs.Sizes.{OnSheet, Sized, grid_of};
ghost use Rattle.directions.specs.Steps.{step_at, Near, Short, neighbour_against};

use sheet::Step;

// The eight codes from east on, each an eighth of a turn clockwise from the one before: the step back is four entries
// on.
const STEPS: [Step; 8] = [
    Step {
        code: 1,
        row: 0,
        col: 1,
    },
    Step {
        code: 2,
        row: 1,
        col: 1,
    },
    Step {
        code: 4,
        row: 1,
        col: 0,
    },
    Step {
        code: 8,
        row: 1,
        col: -1,
    },
    Step {
        code: 16,
        row: 0,
        col: -1,
    },
    Step {
        code: 32,
        row: -1,
        col: -1,
    },
    Step {
        code: 64,
        row: -1,
        col: 0,
    },
    Step {
        code: 128,
        row: -1,
        col: 1,
    },
];

// The k-th step of the table. Each entry is named by its number: compiled, that is a look-up in fixed memory, where an
// index that is not known would have the table built anew at each call.
fn step_at(k: usize) -> Step
    requires { k < 8 }
    ensures { result ≡ step_at k }
{
    let steps = STEPS;
    match k {
        0 => steps[0],
        1 => steps[1],
        2 => steps[2],
        3 => steps[3],
        4 => steps[4],
        5 => steps[5],
        6 => steps[6],
        _ => steps[7],
    }
}

// The step of a code; of any other byte, the step that stays in place.
fn step_of(code: u8) -> Step
    ensures { result ≡ step_of code }
{
    match code {
        1 => step_at(0),
        2 => step_at(1),
        4 => step_at(2),
        8 => step_at(3),
        16 => step_at(4),
        32 => step_at(5),
        64 => step_at(6),
        128 => step_at(7),
        _ => Step {
            code: 0,
            row: 0,
            col: 0,
        },
    }
}

// Whether a byte is one of the nine codes: it is tested as a word whose other bytes are 0, which is a code.
pub fn is_code(byte: u8) -> bool
    ensures { result ≡ is_code byte }
{
    word::first_bad(byte as u64) == 8
}

// The row or column that a signed step leads to, of count many.
fn moved(at: usize, step: i32, count: usize) -> Option<usize>
    requires { Near at step }
    ensures { result ≡ moved_by at step count }
{
    let x = (at as i32) + step;
    if x < 0 {
        return None;
    }
    let y = x as usize;
    if y < count { Some(y) } else { None }
}

// The cell that a step from a row and a column ends on.
fn step_end(rows: usize, cols: usize, row: usize, col: usize, s: Step) -> Option<usize>
    requires { OnSheet rows cols row col × Short s }
    ensures { result ≡ step_end rows cols row col s }
{
    let to_row = moved(row, s.row, rows)?;
    let to_col = moved(col, s.col, cols)?;
    Some(to_row * cols + to_col)
}

// The rows, the columns and the direction bytes of a sheet; more bytes than cells may be lent.
#[derive(Clone, Copy)]
pub struct Grid<'a> {
    pub rows: usize,
    pub cols: usize,
    pub dirs: &'a [u8],
}

impl Grid<'_> {
    // Where the water of the cell in a row and a column goes.
    fn next_at(self, row: usize, col: usize) -> Option<usize>
        requires { Sized self.rows self.cols self.dirs.now × OnSheet self.rows self.cols row col }
        ensures { result ≡ next (grid_of self.entry) (row * self.entry.cols + col) }
    {
        let code = self.dirs[row * self.cols + col];
        if code == 0 {
            return None;
        }
        let to = step_end(self.rows, self.cols, row, col, step_of(code))?;
        if self.dirs[to] == 0 { None } else { Some(to) }
    }

    // Whether the cell in a row and a column is an outlet.
    pub fn is_outlet(self, row: usize, col: usize) -> bool
        requires { Sized self.rows self.cols self.dirs.now × OnSheet self.rows self.cols row col }
        ensures { result ≡ is_outlet (grid_of self.entry) (row * self.entry.cols + col) }
    {
        self.dirs[row * self.cols + col] != 0 && self.next_at(row, col).is_none()
    }

    // The neighbour of a cell against the k-th step of the table: the cell one step back, if that step is its own. Of
    // an inside cell it is a donor.
    pub fn neighbour_against(self, row: usize, col: usize, k: usize) -> Option<usize>
        requires { Sized self.rows self.cols self.dirs.now × OnSheet self.rows self.cols row col × (k < 8) }
        ensures { result ≡ neighbour_against (grid_of self.entry) row col k }
    {
        let back = step_at((k + 4) % 8);
        let from = step_end(self.rows, self.cols, row, col, back)?;
        if self.dirs[from] == step_at(k).code {
            Some(from)
        } else {
            None
        }
    }
}
