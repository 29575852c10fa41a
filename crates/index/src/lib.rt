// The index of a sheet's units, by basin and then label, each with its outlet cell and its count of cells.
#![tactic(auto)]

pub mod from_intake;
pub mod units;

ghost use Rattle.std.specs.Prelude.{◌≡◌, length};
ghost use Rattle.order.specs.Places.{cells_in};
ghost use Rattle.sheet.specs.Refusal.{lent_after};
ghost use Rattle.sheet.specs.Answer.{Accepted};
ghost use Rattle.intake.specs.Intake.{lent_sheet};
ghost use Rattle.labelling.specs.FromIntake.{sheet_of};
ghost use Rattle.labelling.specs.Labelling.{lent, first_checks, Fitting};
ghost use Rattle.index.specs.Index.{lent_index, indexed_on, indexed, indexed_values, if_indexed, index_after};
ghost use Rattle.index.specs.Steps.{groups_of, InOrder, IndexedFitting};

use crate::units::write_units;
use drainage::Inspection;
use faults::Sizes;
use sheet::Refusal;
use upstream::parts;

// The index of a sheet whose labelling came to `found`: refused as labelling was, else filled from the order along
// rivers in the work places.
pub fn index_in_order(
    found: Inspection,
    n: usize,
    work: &[u32],
    labels: &[u64],
    basins: &[u32],
    units: &mut [u64],
    outlets: &mut [u32],
    counts: &mut [u32],
    unit_basins: &mut [u32],
) -> Result<usize, Refusal>
    requires { found.outcome
        ≡ Accepted
        → InOrder n work.now labels.now basins.now found.queued }
    ensures answer { result ≡ indexed_on found.outcome
        (length (groups_of (cells_in n work.now found.queued) labels.now basins.now))
        (lent_index units.old outlets.old counts.old unit_basins.old) }
    ensures index { lent_index units.new outlets.new counts.new
        unit_basins.new
        ≡ if_indexed result
        (groups_of (cells_in n work.now found.queued) labels.now basins.now)
        (lent_index units.old outlets.old counts.old unit_basins.old) }
{
    found.outcome?;
    let cells = parts::CELLS * n;
    let cells_end = cells + found.queued;
    write_units(
        &work[cells..cells_end],
        labels,
        basins,
        units,
        outlets,
        counts,
        unit_basins,
    )
}

// Labels a sheet that passed the first checks, and fills the index of its units. The work places are 0 afterwards.
fn index_fitting(
    sizes: Sizes,
    dirs: &[u8],
    weights: &[u16],
    areas: &mut [u32],
    labels: &mut [u64],
    basins: &mut [u32],
    work: &mut [u32],
    units: &mut [u64],
    outlets: &mut [u32],
    counts: &mut [u32],
    unit_basins: &mut [u32],
) -> Result<usize, Refusal>
    requires fitting { Fitting (sheet_of sizes (lent_sheet dirs.now weights.now))
        (lent areas.old labels.old basins.old work.old) }
    requires work_value { first_checks (sheet_of sizes (lent_sheet dirs.now weights.now))
        (lent areas.old labels.old basins.old work.old)
        ≡ Accepted }
    ensures { IndexedFitting (sheet_of sizes (lent_sheet dirs.now weights.now))
        (lent areas.old labels.old basins.old work.old)
        (lent areas.new labels.new basins.new work.new)
        (lent_index units.old outlets.old counts.old unit_basins.old)
        (lent_index units.new outlets.new counts.new unit_basins.new) result }
{
    let found = labelling::label_in_order(sizes, dirs, weights, areas, labels, basins, work);
    let answer = index_in_order(
        found,
        sizes.rows * sizes.cols,
        work,
        labels,
        basins,
        units,
        outlets,
        counts,
        unit_basins,
    );
    checks::clear_places(work);
    answer
}

// Labels a sheet as `labelling::label` does, and fills the index of its units: `units` gets their labels, two numbers
// each, and `unit_basins` their basins. The answer is the number of units; refused as labelling is, then by 3 if a
// slice of the index has too few places for them. Refused, no place of the index is written; areas, labels and basins
// are written once labelling is accepted.
pub fn index(
    sizes: Sizes,
    dirs: &[u8],
    weights: &[u16],
    areas: &mut [u32],
    labels: &mut [u64],
    basins: &mut [u32],
    work: &mut [u32],
    units: &mut [u64],
    outlets: &mut [u32],
    counts: &mut [u32],
    unit_basins: &mut [u32],
) -> Result<usize, Refusal>
    ensures answer { result ≡ indexed (sheet_of sizes (lent_sheet dirs.now weights.now))
        (lent areas.old labels.old basins.old work.old)
        (lent_index units.old outlets.old counts.old unit_basins.old) }
    ensures values { indexed_values result
        ≡ indexed_values (indexed (sheet_of sizes (lent_sheet dirs.now weights.now))
        (lent areas.old labels.old basins.old work.old)
        (lent_index units.old outlets.old counts.old unit_basins.old)) }
    ensures lent { lent areas.new labels.new basins.new work.new
        ≡ lent_after (sheet_of sizes (lent_sheet dirs.now weights.now))
        (lent areas.old labels.old basins.old work.old) }
    ensures index { lent_index units.new outlets.new counts.new
        unit_basins.new
        ≡ index_after (sheet_of sizes (lent_sheet dirs.now weights.now))
        (lent areas.old labels.old basins.old work.old)
        (lent_index units.old outlets.old counts.old unit_basins.old) }
{
    labelling::first_checks(
        sizes,
        dirs.len(),
        weights.len(),
        areas.len(),
        labels.len(),
        basins.len(),
        work.len(),
    )?;
    let places = 8 * (sizes.rows * sizes.cols);
    index_fitting(
        sizes,
        dirs,
        weights,
        areas,
        labels,
        basins,
        &mut work[..places],
        units,
        outlets,
        counts,
        unit_basins,
    )
}
