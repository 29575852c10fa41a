// The intake of a sheet's file: it takes one line at a time and hands its state back.
#![tactic(auto)]

ghost use Rattle.std.specs.Prelude.{◌≡◌, length};
ghost use Rattle.intake.specs.Intake.{taken_values, lent_sheet, new_intake, state_fault, line_in, line_after, end_taken};
ghost use Rattle.intake.specs.Intake.{ended_sizes, accepted, refused};
ghost use Rattle.sheet.specs.Answer.{outcome_of_fault};

mod cell_lines;
mod name_lines;
mod size_lines;
mod weight_lines;

use cell_lines::cell_line;
use faults::Sizes;
use faults::size_faults::{row_fault, sizes_fault};
use lines::columns::Columns;
use name_lines::{cell_names_line, size_names_line, weight_or_cell_names_line};
use sheet::Refusal;
use size_lines::sizes_line;
use weight_lines::weight_line;

// The stage of an intake, with what later lines need: the order of the columns, the sizes, the row whose weight comes
// next.
#[derive(Clone, Copy)]
pub enum Stage {
    WaitingForSizeNames,
    WaitingForSizes(Columns),
    WaitingForWeightOrCellNames(Sizes),
    WaitingForWeight(Sizes, usize),
    WaitingForCellNames(Sizes),
    TakingCells(Sizes, Columns),
    Ended(Sizes),
}

#[derive(Clone, Copy)]
pub struct Intake {
    pub stage: Stage,
}

// The next state beside the outcome of a line or of the end: both are handed back, on a refusal too.
#[derive(Clone, Copy)]
pub struct Taken {
    pub intake: Intake,
    pub outcome: Result<(), Refusal>,
}

// Document 01's number of an outcome; 0 is accepted.
pub fn refusal_number(outcome: Result<(), Refusal>) -> u8
    ensures { result ≡ (taken_values outcome).number }
{
    match outcome {
        Ok(()) => 0,
        Err(refusal) => refusal.number,
    }
}

// A line or an end that is accepted, and the state after it.
fn accepted(next: Stage) -> Taken
    ensures { result ≡ accepted next }
{
    answer(next, Ok(()))
}

// A refused line or end returns the state that it got.
fn refused(stage: Stage, number: u8) -> Taken
    ensures { result ≡ refused stage number }
{
    answer(stage, Err(checks::numbered(number)))
}

fn answer(stage: Stage, outcome: Result<(), Refusal>) -> Taken
    ensures { result ≡ record { intake = record { stage = stage }; outcome = outcome } }
{
    Taken {
        intake: Intake { stage },
        outcome,
    }
}

// The refusal of a state by its sizes, or by the row whose weight it waits for. An ended state has none: 13 goes before
// it.
fn state_fault(stage: Stage, dirs: usize, weights: usize) -> Result<(), Refusal>
    ensures { result ≡ outcome_of_fault (state_fault stage dirs weights) }
{
    match stage {
        Stage::WaitingForSizeNames => Ok(()),
        Stage::WaitingForSizes(_) => Ok(()),
        Stage::WaitingForWeightOrCellNames(sizes) => sizes_fault(sizes, dirs, weights),
        Stage::WaitingForWeight(sizes, row) => row_fault(sizes, row, dirs, weights),
        Stage::WaitingForCellNames(sizes) => sizes_fault(sizes, dirs, weights),
        Stage::TakingCells(sizes, _) => sizes_fault(sizes, dirs, weights),
        Stage::Ended(_) => Ok(()),
    }
}

// A line in a state that has no fault.
fn line_in(stage: Stage, line: &[u8], dirs: &mut [u8], weights: &mut [u16]) -> Taken
    requires { state_fault stage (length dirs.old) (length weights.old) ≡ 0 }
    ensures { record { taken = result; lent = lent_sheet dirs.new weights.new }
        ≡ line_in stage line.now (lent_sheet dirs.old weights.old) }
{
    match stage {
        Stage::WaitingForSizeNames => size_names_line(line),
        Stage::WaitingForSizes(columns) => sizes_line(columns, line, dirs, weights),
        Stage::WaitingForWeightOrCellNames(sizes) => weight_or_cell_names_line(sizes, line),
        Stage::WaitingForWeight(sizes, row) => weight_line(sizes, row, line, weights),
        Stage::WaitingForCellNames(sizes) => cell_names_line(stage, sizes, line),
        Stage::TakingCells(sizes, columns) => cell_line(sizes, columns, line, dirs),
        Stage::Ended(_) => refused(stage, 13),
    }
}

impl Intake {
    pub fn new() -> Self
        ensures { result ≡ new_intake }
    {
        Intake {
            stage: Stage::WaitingForSizeNames,
        }
    }

    // Takes one line, without its line feed.
    pub fn line(self, line: &[u8], dirs: &mut [u8], weights: &mut [u16]) -> Taken
        ensures after { record { taken = result; lent = lent_sheet dirs.new weights.new }
            ≡ line_after self line.now (lent_sheet dirs.old weights.old) }
        ensures values { taken_values result.outcome
            ≡ taken_values (line_after self line.now
            (lent_sheet dirs.old weights.old)).taken.outcome }
    {
        let stage = self.stage;
        match state_fault(stage, dirs.len(), weights.len()) {
            Ok(()) => line_in(stage, line, dirs, weights),
            Err(refusal) => answer(stage, Err(refusal)),
        }
    }

    // Takes the end of the file.
    #[tactic(auto, unfolding(crate::specs::Intake::end_taken, crate::specs::Intake::end_in))]
    pub fn end(self) -> Taken
        ensures taken { result ≡ end_taken self }
        ensures values { taken_values result.outcome ≡ taken_values (end_taken self).outcome }
    {
        let stage = self.stage;
        match stage {
            Stage::WaitingForSizeNames => refused(stage, 14),
            Stage::WaitingForSizes(_) => refused(stage, 14),
            Stage::WaitingForWeightOrCellNames(_) => refused(stage, 14),
            Stage::WaitingForWeight(_, _) => refused(stage, 14),
            Stage::WaitingForCellNames(_) => refused(stage, 14),
            Stage::TakingCells(sizes, _) => accepted(Stage::Ended(sizes)),
            Stage::Ended(_) => refused(stage, 13),
        }
    }

    // The sizes of the sheet, if the intake has ended.
    #[tactic(auto, unfolding(crate::specs::Intake::ended_sizes))]
    pub fn ended_sizes(self) -> Option<Sizes>
        ensures { result ≡ ended_sizes self.stage }
    {
        match self.stage {
            Stage::Ended(sizes) => Some(sizes),
            _ => None,
        }
    }
}
