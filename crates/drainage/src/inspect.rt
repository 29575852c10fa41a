// Refusals 4 to 6, in order, with the search upstream on the way.
ghost use Rattle.std.specs.Prelude.{◌≡◌, ◌*◌};
ghost use Rattle.sheet.specs.Sheet.{grid};
ghost use Rattle.directions.specs.Sizes.{Sized, grid_of};
ghost use Rattle.sheet.specs.Refusal.{refused_at};
ghost use Rattle.sheet.specs.Answer.{Accepted, Refused};
ghost use Rattle.drainage.specs.Inspect.{InspectionResult};
ghost use Rattle.upstream.specs.Work.{Unranked};

use crate::Inspection;
use checks::Target;
use directions::Grid;
use sheet::Refusal;
use upstream::{parts, search};

// The outcome of a check: refused by number where it found a cell.
fn refused_by(number: u8, found: Option<usize>) -> Result<(), Refusal>
    ensures { result ≡ refused_at number found Accepted }
{
    match found {
        Some(place) => Err(Refusal { number, place }),
        None => Ok(()),
    }
}

// A refusal before the search.
fn refused(number: u8, place: usize) -> Inspection
    ensures { result.outcome ≡ Refused number place }
{
    Inspection {
        outcome: Err(Refusal { number, place }),
        queued: 0,
    }
}

// Looks for what a sheet is refused for: a byte that is no code, no inside cell, an inside cell that the search did not
// reach.
pub fn inspect(grid: Grid<'_>, work: &mut [u32]) -> Inspection
    requires { Sized grid.rows grid.cols grid.dirs.now × Unranked (grid.rows * grid.cols) work.old }
    ensures { InspectionResult (grid_of grid.entry) work.old work.new result }
{
    if let Some(c) = checks::codes::first_bad_code(grid) {
        return refused(4, c);
    }
    let n = grid.rows * grid.cols;
    let ranks = parts::RANKS * n;
    let end = ranks + n;
    let Some(_) = checks::first_target(grid, &work[ranks..end], Target::Inside) else {
        return refused(5, 0);
    };
    let queued = search(grid, work);
    let unreached = checks::first_target(grid, &work[ranks..end], Target::Unreached);
    Inspection {
        outcome: refused_by(6, unreached),
        queued,
    }
}
