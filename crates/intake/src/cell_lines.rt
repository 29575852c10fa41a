// A cell and its line.
ghost use Rattle.std.specs.Prelude.{◌≡◌, Some, List, ℕ};
ghost use Rattle.lines.specs.Values.{values_line};
ghost use Rattle.directions.specs.Sizes.{Sized};
ghost use Rattle.faults.specs.Faults.{cell_fault};
ghost use Rattle.intake.specs.Intake.{lent_sheet, cell_written, on_cells};

use super::{Stage, Taken, accepted, answer, refused};
use faults::cell_faults::{cell_fault, cell_in};
use faults::{Cell, Sizes};
use lines::columns::Columns;
use lines::values::{Values, read_values};

// Sets the byte of a cell that has no fault; weights, which are not lent here, stay as they are.
fn write_cell(sizes: Sizes, cell: Cell, dirs: &mut [u8])
    requires sized { Sized sizes.rows sizes.cols dirs.old }
    requires dirs_value { cell_fault sizes cell dirs.old ≡ 0 }
    ensures { (weights : List ℕ) → lent_sheet dirs.new weights
        ≡ cell_written sizes cell (lent_sheet dirs.old weights) }
{
    dirs[cell.row * sizes.cols + cell.col] = cell.dir as u8;
}

fn take_cell(sizes: Sizes, columns: Columns, values: Values, dirs: &mut [u8]) -> Taken
    requires { Sized sizes.rows sizes.cols dirs.old }
    ensures { (weights : List ℕ) → record { taken = result; lent = lent_sheet dirs.new weights }
        ≡ on_cells sizes columns (Some values) (lent_sheet dirs.old weights) }
{
    let cell = cell_in(columns, values);
    match cell_fault(sizes, cell, dirs) {
        Ok(()) => {
            write_cell(sizes, cell, dirs);
            accepted(Stage::TakingCells(sizes, columns))
        }
        Err(refusal) => answer(Stage::TakingCells(sizes, columns), Err(refusal)),
    }
}

pub fn cell_line(sizes: Sizes, columns: Columns, line: &[u8], dirs: &mut [u8]) -> Taken
    requires { Sized sizes.rows sizes.cols dirs.old }
    ensures { (weights : List ℕ) → record { taken = result; lent = lent_sheet dirs.new weights }
        ≡ on_cells sizes columns (values_line columns line.now)
        (lent_sheet dirs.old weights) }
{
    let Some(values) = read_values(line, columns) else {
        return refused(Stage::TakingCells(sizes, columns), 8);
    };
    take_cell(sizes, columns, values, dirs)
}
