// The basin levy: a total of whole cents, shared among the units of one basin of a sheet by the weights of their cells.
#![tactic(auto)]

pub mod from_intake;

ghost use Rattle.std.specs.Prelude.{◌≡◌, ◌≤◌};
ghost use Rattle.order.specs.Places.{cells_in, sizes_in};
ghost use Rattle.intake.specs.Intake.{lent_sheet};
ghost use Rattle.labelling.specs.FromIntake.{sheet_of};
ghost use Rattle.labelling.specs.Labelling.{lent, first_checks, Fitting};
ghost use Rattle.index.specs.Index.{lent_index, indexed_values};
ghost use Rattle.dues.specs.Levy.{greatest_total, levied, lent_after_levy, index_after_levy, dues_after};
ghost use Rattle.dues.specs.Steps.{basin_cells, LevyInOrder, LeviedInOrder, LeviedFitting};
ghost use Rattle.sheet.specs.Answer.{Accepted};

use drainage::Inspection;
use dues::{basin_part, dues_fit, dues_in_order};
use faults::Sizes;
use sheet::Refusal;

// The greatest total, in cents.
pub const GREATEST_TOTAL: u64 = 100000000000;

// Fills the index of an accepted sheet's units and the dues of one basin's, from the order along rivers in the work
// places; by 3, neither.
fn levy_accepted(
    found: Inspection,
    n: usize,
    cols: usize,
    weights: &[u16],
    areas: &[u32],
    labels: &[u64],
    basins: &[u32],
    work: &[u32],
    units: &mut [u64],
    outlets: &mut [u32],
    counts: &mut [u32],
    unit_basins: &mut [u32],
    basin: u32,
    total: u64,
    dues: &mut [u64],
) -> Result<usize, Refusal>
    requires outcome_value { found.outcome ≡ Accepted }
    requires levy_in_order { LevyInOrder n found.queued basin total cols weights.now areas.now labels.now basins.now
        work.now dues.old }
    ensures { LeviedInOrder found.outcome total cols weights.now labels.now
        basins.now (cells_in n work.now found.queued)
        (basin_cells (cells_in n work.now found.queued) (sizes_in n work.now found.queued)
        basin)
        (lent_index units.old outlets.old counts.old unit_basins.old)
        (lent_index units.new outlets.new counts.new unit_basins.new)
        dues.old dues.new result }
{
    let queued = found.queued;
    let part = basin_part(n, queued, work, basin);
    if dues_fit(&work[part.first..part.end], labels, basins, dues.len()) {
        let answer = index::index_in_order(
            found,
            n,
            work,
            labels,
            basins,
            units,
            outlets,
            counts,
            unit_basins,
        );
        dues_in_order(
            answer,
            total,
            cols,
            weights,
            areas,
            &work[part.first..part.end],
            labels,
            basins,
            dues,
        );
        return answer;
    }
    Err(checks::numbered(3))
}

// The same of a sheet whose labelling came to `found`: refused as labelling was.
fn levy_in_order(
    found: Inspection,
    n: usize,
    cols: usize,
    weights: &[u16],
    areas: &[u32],
    labels: &[u64],
    basins: &[u32],
    work: &[u32],
    units: &mut [u64],
    outlets: &mut [u32],
    counts: &mut [u32],
    unit_basins: &mut [u32],
    basin: u32,
    total: u64,
    dues: &mut [u64],
) -> Result<usize, Refusal>
    requires { found.outcome
        ≡ Accepted
        → LevyInOrder n found.queued basin total cols weights.now areas.now labels.now basins.now
        work.now dues.old }
    ensures { LeviedInOrder found.outcome total cols weights.now labels.now
        basins.now (cells_in n work.now found.queued)
        (basin_cells (cells_in n work.now found.queued) (sizes_in n work.now found.queued)
        basin)
        (lent_index units.old outlets.old counts.old unit_basins.old)
        (lent_index units.new outlets.new counts.new unit_basins.new)
        dues.old dues.new result }
{
    found.outcome?;
    levy_accepted(
        found,
        n,
        cols,
        weights,
        areas,
        labels,
        basins,
        work,
        units,
        outlets,
        counts,
        unit_basins,
        basin,
        total,
        dues,
    )
}

// Labels a sheet that passed the first checks, and fills the index of its units and the dues of one basin's. The work
// places are 0 afterwards.
fn levy_fitting(
    sizes: Sizes,
    dirs: &[u8],
    weights: &[u16],
    areas: &mut [u32],
    labels: &mut [u64],
    basins: &mut [u32],
    work: &mut [u32],
    units: &mut [u64],
    outlets: &mut [u32],
    counts: &mut [u32],
    unit_basins: &mut [u32],
    basin: u32,
    total: u64,
    dues: &mut [u64],
) -> Result<usize, Refusal>
    requires fitting { Fitting (sheet_of sizes (lent_sheet dirs.now weights.now))
        (lent areas.old labels.old basins.old work.old) }
    requires work_value { first_checks (sheet_of sizes (lent_sheet dirs.now weights.now))
        (lent areas.old labels.old basins.old work.old)
        ≡ Accepted }
    requires total_le_greatest_total { total ≤ greatest_total }
    ensures { LeviedFitting (sheet_of sizes (lent_sheet dirs.now weights.now))
        (lent areas.old labels.old basins.old work.old)
        (lent areas.new labels.new basins.new work.new)
        (lent_index units.old outlets.old counts.old unit_basins.old)
        (lent_index units.new outlets.new counts.new unit_basins.new)
        basin total dues.old dues.new result }
{
    let found = labelling::label_in_order(sizes, dirs, weights, areas, labels, basins, work);
    let answer = levy_in_order(
        found,
        sizes.rows * sizes.cols,
        sizes.cols,
        weights,
        areas,
        labels,
        basins,
        work,
        units,
        outlets,
        counts,
        unit_basins,
        basin,
        total,
        dues,
    );
    checks::clear_places(work);
    answer
}

// Labels a sheet and fills the index of its units as `index::index` does, and shares a total of whole cents among those
// of one basin: `dues` gets what each owes, from its first place on; none, if the sheet lacks the basin. Refused by 18
// if the total is too large, before all else; then as the index call, and by 3 if the dues have fewer places than the
// basin has units. Refused, no place of the index or of the dues is written.
pub fn levy(
    sizes: Sizes,
    dirs: &[u8],
    weights: &[u16],
    areas: &mut [u32],
    labels: &mut [u64],
    basins: &mut [u32],
    work: &mut [u32],
    units: &mut [u64],
    outlets: &mut [u32],
    counts: &mut [u32],
    unit_basins: &mut [u32],
    basin: u32,
    total: u64,
    dues: &mut [u64],
) -> Result<usize, Refusal>
    ensures answer { result ≡ levied (sheet_of sizes (lent_sheet dirs.now weights.now))
        (lent areas.old labels.old basins.old work.old)
        (lent_index units.old outlets.old counts.old unit_basins.old)
        basin total dues.old }
    ensures values { indexed_values result
        ≡ indexed_values (levied (sheet_of sizes (lent_sheet dirs.now weights.now))
        (lent areas.old labels.old basins.old work.old)
        (lent_index units.old outlets.old counts.old unit_basins.old)
        basin total dues.old) }
    ensures lent { lent areas.new labels.new basins.new work.new
        ≡ lent_after_levy (sheet_of sizes (lent_sheet dirs.now weights.now))
        (lent areas.old labels.old basins.old work.old) total }
    ensures index { lent_index units.new outlets.new counts.new
        unit_basins.new
        ≡ index_after_levy (sheet_of sizes (lent_sheet dirs.now weights.now))
        (lent areas.old labels.old basins.old work.old)
        (lent_index units.old outlets.old counts.old unit_basins.old)
        basin total dues.old }
    ensures dues { dues.new
        ≡ dues_after (sheet_of sizes (lent_sheet dirs.now weights.now))
        (lent areas.old labels.old basins.old work.old)
        (lent_index units.old outlets.old counts.old unit_basins.old)
        basin total dues.old }
{
    if total > GREATEST_TOTAL {
        return Err(checks::numbered(18));
    }
    labelling::first_checks(
        sizes,
        dirs.len(),
        weights.len(),
        areas.len(),
        labels.len(),
        basins.len(),
        work.len(),
    )?;
    let places = 8 * (sizes.rows * sizes.cols);
    levy_fitting(
        sizes,
        dirs,
        weights,
        areas,
        labels,
        basins,
        &mut work[..places],
        units,
        outlets,
        counts,
        unit_basins,
        basin,
        total,
        dues,
    )
}
