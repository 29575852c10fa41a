// Names lines: those of the sizes, of the weights and of the cells.
ghost use Rattle.std.specs.Prelude.{◌≡◌};
ghost use Rattle.names.specs.Columns.{weight_columns, cell_columns};
ghost use Rattle.names.specs.Names.{names_line, size_names_line};
ghost use Rattle.intake.specs.Intake.{on_size_names, on_weight_or_cell_names, on_cell_names};

use super::{Stage, Taken, accepted, refused};
use faults::Sizes;

pub fn size_names_line(line: &[u8]) -> Taken
    ensures { result ≡ on_size_names (size_names_line line.now) }
{
    let Some(columns) = names::read_size_names(line) else {
        return refused(Stage::WaitingForSizeNames, 8);
    };
    accepted(Stage::WaitingForSizes(columns))
}

// Cell names, in a stage that takes them.
pub fn cell_names_line(stage: Stage, sizes: Sizes, line: &[u8]) -> Taken
    ensures { result ≡ on_cell_names stage sizes (names_line cell_columns line.now) }
{
    let Some(columns) = names::read_cell_names(line) else {
        return refused(stage, 8);
    };
    accepted(Stage::TakingCells(sizes, columns))
}

// After the sizes: the name of the weights, or cell names.
pub fn weight_or_cell_names_line(sizes: Sizes, line: &[u8]) -> Taken
    ensures { result ≡ on_weight_or_cell_names sizes (names_line weight_columns line.now)
        (names_line cell_columns line.now) }
{
    let Some(_) = names::read_weight_names(line) else {
        return cell_names_line(Stage::WaitingForWeightOrCellNames(sizes), sizes, line);
    };
    accepted(Stage::WaitingForWeight(sizes, 0))
}
