// What refuses a cell that a file lists.
ghost use Rattle.std.specs.Prelude.{◌≡◌};
ghost use Rattle.sheet.specs.Direction.{is_code};
ghost use Rattle.directions.specs.Sizes.{Sized};
ghost use Rattle.sheet.specs.Answer.{outcome_of_fault};
ghost use Rattle.faults.specs.Faults.{cell_in, on_sheet, may_set, cell_fault};

use super::{Cell, Sizes};
use lines::columns::{Column, Columns};
use lines::values::{Values, value_of};
use sheet::Refusal;

pub fn cell_in(columns: Columns, values: Values) -> Cell
    ensures { result ≡ cell_in columns values }
{
    Cell {
        row: value_of(columns, values, Some(Column::Row)) as usize,
        col: value_of(columns, values, Some(Column::Col)) as usize,
        dir: value_of(columns, values, Some(Column::Dir)),
    }
}

#[tactic(auto, unfolding(crate::specs::Faults::on_sheet))]
fn on_sheet(sizes: Sizes, cell: Cell) -> bool
    ensures { result ≡ on_sheet sizes cell }
{
    cell.row < sizes.rows && cell.col < sizes.cols
}

// Whether a value is one of the nine codes.
fn is_dir(dir: u32) -> bool
    ensures { result ≡ is_code dir }
{
    dir < 256 && directions::is_code(dir as u8)
}

// Whether a line with this dir may come for a cell with this byte: with 0 for every cell, which withdraws it, with
// another code only for a cell whose byte is 0.
#[tactic(auto, unfolding(crate::specs::Faults::may_set))]
fn may_set(dir: u32, byte: u8) -> bool
    ensures { result ≡ may_set dir byte }
{
    dir == 0 || byte == 0
}

// The refusal of a cell by 9, 4, 10.
#[tactic(auto, unfolding(crate::specs::Faults::cell_fault))]
pub fn cell_fault(sizes: Sizes, cell: Cell, dirs: &[u8]) -> Result<(), Refusal>
    requires { Sized sizes.rows sizes.cols dirs.now }
    ensures { result ≡ outcome_of_fault (cell_fault sizes cell dirs.now) }
{
    if !on_sheet(sizes, cell) {
        return Err(checks::numbered(9));
    }
    if !is_dir(cell.dir) {
        return Err(checks::numbered(4));
    }
    if !may_set(cell.dir, dirs[cell.row * sizes.cols + cell.col]) {
        return Err(checks::numbered(10));
    }
    Ok(())
}
