// Labelling of a sheet by a direct call: the areas, labels and basins of its cells, in lent slices.
#![tactic(auto)]

mod basins;
pub mod from_intake;

ghost use Rattle.std.specs.Prelude.{◌≡◌, ℕ, ◌*◌, ◌≤◌, leb, length, replicate};
ghost use Rattle.sheet.specs.Sheet.{grid, cells};
ghost use Rattle.sheet.specs.Record.{label_places};
ghost use Rattle.sheet.specs.Label.{areas_of, labels_of};
ghost use Rattle.sheet.specs.Basins.{basins_of};
ghost use Rattle.sheet.specs.Refusal.{written, if_accepted, both, outcome_from17, outcome, outcome_values, lent_after};
ghost use Rattle.sheet.specs.Answer.{Accepted};
ghost use Rattle.directions.specs.Sizes.{most_cells, Sized};
ghost use Rattle.upstream.specs.Work.{Unranked};
ghost use Rattle.intake.specs.Intake.{lent_sheet};
ghost use Rattle.labelling.specs.FromIntake.{sheet_of};
ghost use Rattle.labelling.specs.Labelling.{sheet, lent, checked_first, Fitting, Inspected, InspectedAs};
ghost use Rattle.labelling.specs.Labelling.{LabelledInOrder};
ghost use Rattle.order.specs.Places.{Arranged};

use crate::basins::label_basins;
use checks::{clear_first, clear_places};
use directions::Grid;
use drainage::Inspection;
use faults::Sizes;
use sheet::Refusal;
use upstream::parts;

// Writes the areas, labels and basins of an accepted sheet, and leaves its order along rivers in the work places.
fn write_labels(
    sizes: Sizes,
    dirs: &[u8],
    weights: &[u16],
    queued: usize,
    areas: &mut [u32],
    labels: &mut [u64],
    basins: &mut [u32],
    work: &mut [u32],
)
    requires fitting { Fitting (sheet_of sizes (lent_sheet dirs.now weights.now))
        (lent areas.old labels.old basins.old work.old) }
    requires inspected { Inspected (sheet_of sizes (lent_sheet dirs.now weights.now)) work.old queued }
    ensures areas { areas.new
        ≡ written (areas_of (sheet_of sizes (lent_sheet dirs.now weights.now)))
        areas.old }
    ensures labels { labels.new
        ≡ written (labels_of (sheet_of sizes (lent_sheet dirs.now weights.now)))
        labels.old }
    ensures basins { basins.new
        ≡ written (basins_of (grid sizes.rows sizes.cols dirs.now)) basins.old }
    ensures order { Arranged (grid sizes.rows sizes.cols dirs.now) areas.new
        work.new queued }
{
    let n = sizes.rows * sizes.cols;
    let grid = Grid {
        rows: sizes.rows,
        cols: sizes.cols,
        dirs,
    };
    labels[..2 * n].fill(0);
    clear_first(basins, n);
    drainage::measure::measure(grid, weights, work, queued, areas);
    order::positions::arrange(grid, areas, queued, work);
    let cells = parts::CELLS * n;
    let cells_end = cells + queued;
    let ordered_sizes = parts::ORDERED_SIZES * n;
    let ordered_sizes_end = ordered_sizes + queued;
    label_basins(
        sizes.depth,
        sizes.split,
        sizes.least as u32,
        &work[cells..cells_end],
        &work[ordered_sizes..ordered_sizes_end],
        areas,
        labels,
        basins,
    );
}

// The same, if the sheet is accepted.
fn write_if_accepted(
    found: Inspection,
    sizes: Sizes,
    dirs: &[u8],
    weights: &[u16],
    areas: &mut [u32],
    labels: &mut [u64],
    basins: &mut [u32],
    work: &mut [u32],
)
    requires fitting { Fitting (sheet_of sizes (lent_sheet dirs.now weights.now))
        (lent areas.old labels.old basins.old work.old) }
    requires inspected { found.outcome
        ≡ Accepted
        → Inspected (sheet_of sizes (lent_sheet dirs.now weights.now)) work.old found.queued }
    ensures areas { areas.new
        ≡ if_accepted found.outcome (areas_of (sheet_of sizes (lent_sheet dirs.now weights.now)))
        areas.old }
    ensures labels { labels.new
        ≡ if_accepted found.outcome (labels_of (sheet_of sizes (lent_sheet dirs.now weights.now)))
        labels.old }
    ensures basins { basins.new
        ≡ if_accepted found.outcome (basins_of (grid sizes.rows sizes.cols dirs.now)) basins.old }
    ensures order { found.outcome
        ≡ Accepted
        → Arranged (grid sizes.rows sizes.cols dirs.now) areas.new work.new found.queued }
{
    match found.outcome {
        Ok(()) => write_labels(
            sizes,
            dirs,
            weights,
            found.queued,
            areas,
            labels,
            basins,
            work,
        ),
        Err(_) => {}
    }
}

// Check 17, then 4 to 6, of a sheet that passed the checks before.
fn inspect_sheet(grid: Grid<'_>, weights: &[u16], work: &mut [u32]) -> Inspection
    requires { Sized grid.rows grid.cols grid.dirs.now × (grid.rows ≤ length weights.now)
        × Unranked (grid.rows * grid.cols) work.old }
    ensures { (depth least split : ℕ) → InspectedAs
        (sheet grid.entry.rows grid.entry.cols depth least split grid.entry.dirs.now weights.now)
        work.new result }
{
    if checks::weights_fit(weights, grid.rows) {
        return drainage::inspect::inspect(grid, work);
    }
    Inspection {
        outcome: Err(checks::numbered(17)),
        queued: 0,
    }
}

// Labels a sheet that passed the first checks. Of an accepted sheet the order along rivers is left in the work places,
// with the number of its cells.
pub fn label_in_order(
    sizes: Sizes,
    dirs: &[u8],
    weights: &[u16],
    areas: &mut [u32],
    labels: &mut [u64],
    basins: &mut [u32],
    work: &mut [u32],
) -> Inspection
    requires { Fitting (sheet_of sizes (lent_sheet dirs.now weights.now))
        (lent areas.old labels.old basins.old work.old) }
    ensures { LabelledInOrder (sheet_of sizes (lent_sheet dirs.now weights.now))
        (lent areas.old labels.old basins.old work.old)
        (lent areas.new labels.new basins.new work.new) result }
{
    let n = sizes.rows * sizes.cols;
    let ranks = parts::RANKS * n;
    let end = ranks + n;
    clear_places(&mut work[ranks..end]);
    let grid = Grid {
        rows: sizes.rows,
        cols: sizes.cols,
        dirs,
    };
    let found = inspect_sheet(grid, weights, work);
    write_if_accepted(found, sizes, dirs, weights, areas, labels, basins, work);
    found
}

// Labels a sheet that passed the first checks. The work places are 0 afterwards.
fn label_fitting(
    sizes: Sizes,
    dirs: &[u8],
    weights: &[u16],
    areas: &mut [u32],
    labels: &mut [u64],
    basins: &mut [u32],
    work: &mut [u32],
) -> Result<(), Refusal>
    requires { Fitting (sheet_of sizes (lent_sheet dirs.now weights.now))
        (lent areas.old labels.old basins.old work.old) }
    ensures outcome { result ≡ outcome_from17 (sheet_of sizes (lent_sheet dirs.now weights.now)) }
    ensures areas { areas.new
        ≡ if_accepted result (areas_of (sheet_of sizes (lent_sheet dirs.now weights.now)))
        areas.old }
    ensures labels { labels.new
        ≡ if_accepted result (labels_of (sheet_of sizes (lent_sheet dirs.now weights.now)))
        labels.old }
    ensures basins { basins.new
        ≡ if_accepted result (basins_of (grid sizes.rows sizes.cols dirs.now)) basins.old }
    ensures work { work.new ≡ replicate (8 * (sizes.rows * sizes.cols)) 0 }
{
    let found = label_in_order(sizes, dirs, weights, areas, labels, basins, work);
    clear_places(work);
    found.outcome
}

#[tactic(auto, unfolding(sheet::specs::Record::label_places))]
// Enough places are lent for n cells in so many rows.
fn slices_fit(
    n: usize,
    rows: usize,
    dirs: usize,
    weights: usize,
    areas: usize,
    labels: usize,
    basins: usize,
    work: usize,
) -> bool
    requires { n ≤ most_cells }
    ensures { result ≡ both (leb n dirs)
        (both (leb rows weights) (both (leb n areas)
        (both (leb n (label_places labels)) (both (leb n basins) (leb (8 * n) work))))) }
{
    dirs >= n && weights >= rows && areas >= n && labels / 2 >= n && basins >= n && work >= 8 * n
}

// Checks 1, 2, 19 and 3, in this order, of a sheet's numbers and the lengths of its slices.
pub fn first_checks(
    sizes: Sizes,
    dirs: usize,
    weights: usize,
    areas: usize,
    labels: usize,
    basins: usize,
    work: usize,
) -> Result<(), Refusal>
    ensures { result ≡ checked_first sizes.rows sizes.cols sizes.depth sizes.least sizes.split dirs weights
        areas labels basins work }
{
    checks::sheet_fault(
        sizes.rows,
        sizes.cols,
        sizes.depth,
        sizes.least,
        sizes.split,
    )?;
    let n = sizes.rows * sizes.cols;
    if !slices_fit(n, sizes.rows, dirs, weights, areas, labels, basins, work) {
        return Err(checks::numbered(3));
    }
    Ok(())
}

// Labels a sheet, whose weights are one a row: refusals 1, 2, 19, 3, 17, 4, 5 and 6, in this order, with their numbers
// and places; accepted, the first rows × cols areas, labels and basins are written.
pub fn label(
    sizes: Sizes,
    dirs: &[u8],
    weights: &[u16],
    areas: &mut [u32],
    labels: &mut [u64],
    basins: &mut [u32],
    work: &mut [u32],
) -> Result<(), Refusal>
    ensures outcome { result ≡ outcome (sheet_of sizes (lent_sheet dirs.now weights.now))
        (lent areas.old labels.old basins.old work.old) }
    ensures values { outcome_values result
        ≡ outcome_values (outcome (sheet_of sizes (lent_sheet dirs.now weights.now))
        (lent areas.old labels.old basins.old work.old)) }
    ensures lent { lent areas.new labels.new basins.new work.new
        ≡ lent_after (sheet_of sizes (lent_sheet dirs.now weights.now))
        (lent areas.old labels.old basins.old work.old) }
{
    first_checks(
        sizes,
        dirs.len(),
        weights.len(),
        areas.len(),
        labels.len(),
        basins.len(),
        work.len(),
    )?;
    let places = 8 * (sizes.rows * sizes.cols);
    label_fitting(
        sizes,
        dirs,
        weights,
        areas,
        labels,
        basins,
        &mut work[..places],
    )
}
