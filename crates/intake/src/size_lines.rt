// Sizes and their line.
ghost use Rattle.std.specs.Prelude.{◌≡◌, Some};
ghost use Rattle.lines.specs.Values.{values_line};
ghost use Rattle.intake.specs.Intake.{lent_sheet, on_sizes};

use super::{Stage, Taken, accepted, answer, refused};
use faults::size_faults::{sizes_fault, sizes_in};
use lines::columns::Columns;
use lines::values::{Values, read_values};

fn take_sizes(columns: Columns, values: Values, dirs: &mut [u8], weights: &mut [u16]) -> Taken
    ensures { record { taken = result; lent = lent_sheet dirs.new weights.new }
        ≡ on_sizes columns (Some values) (lent_sheet dirs.old weights.old) }
{
    let sizes = sizes_in(columns, values);
    match sizes_fault(sizes, dirs.len(), weights.len()) {
        Ok(()) => {
            dirs[..sizes.rows * sizes.cols].fill(0);
            weights[..sizes.rows].fill(1);
            accepted(Stage::WaitingForWeightOrCellNames(sizes))
        }
        Err(refusal) => answer(Stage::WaitingForSizes(columns), Err(refusal)),
    }
}

pub fn sizes_line(columns: Columns, line: &[u8], dirs: &mut [u8], weights: &mut [u16]) -> Taken
    ensures { record { taken = result; lent = lent_sheet dirs.new weights.new }
        ≡ on_sizes columns (values_line columns line.now)
        (lent_sheet dirs.old weights.old) }
{
    let Some(values) = read_values(line, columns) else {
        return refused(Stage::WaitingForSizes(columns), 8);
    };
    take_sizes(columns, values, dirs, weights)
}
