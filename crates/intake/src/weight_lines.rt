// The weight of a row and its line.
ghost use Rattle.std.specs.Prelude.{◌≡◌, Some, List, ℕ, ◌<◌, ◌≤◌, length};
ghost use Rattle.lines.specs.Values.{values_line};
ghost use Rattle.names.specs.Columns.{weight_columns};
ghost use Rattle.intake.specs.Intake.{lent_sheet, after_weights, on_weight};

use super::{Stage, Taken, accepted, refused};
use checks::weight_fits;
use faults::Sizes;
use lines::values::{Values, read_values};

// The stage after the weights of so many rows: it waits for the next row's, and after the last for cell names.
fn after_weights(sizes: Sizes, count: usize) -> Stage
    ensures { result ≡ after_weights sizes count }
{
    if count < sizes.rows {
        return Stage::WaitingForWeight(sizes, count);
    }
    Stage::WaitingForCellNames(sizes)
}

fn take_weight(sizes: Sizes, row: usize, values: Values, weights: &mut [u16]) -> Taken
    requires row_lt_rows { row < sizes.rows }
    requires rows_in_bounds { sizes.rows ≤ length weights.old }
    ensures { (dirs : List ℕ) → record { taken = result; lent = lent_sheet dirs weights.new }
        ≡ on_weight sizes row (Some values) (lent_sheet dirs weights.old) }
{
    let weight = values.places[0];
    let count = row + 1;
    if weight_fits(weight) {
        weights[row] = weight as u16;
        let next = after_weights(sizes, count);
        return accepted(next);
    }
    refused(Stage::WaitingForWeight(sizes, row), 17)
}

pub fn weight_line(sizes: Sizes, row: usize, line: &[u8], weights: &mut [u16]) -> Taken
    requires row_lt_rows { row < sizes.rows }
    requires rows_in_bounds { sizes.rows ≤ length weights.old }
    ensures { (dirs : List ℕ) → record { taken = result; lent = lent_sheet dirs weights.new }
        ≡ on_weight sizes row (values_line weight_columns line.now)
        (lent_sheet dirs weights.old) }
{
    let Some(values) = read_values(line, names::weight_columns()) else {
        return refused(Stage::WaitingForWeight(sizes, row), 8);
    };
    take_weight(sizes, row, values, weights)
}
