// The levy on the sheet of an intake.
ghost use Rattle.std.specs.Prelude.{◌≡◌};
ghost use Rattle.intake.specs.Intake.{lent_sheet};
ghost use Rattle.labelling.specs.Labelling.{lent};
ghost use Rattle.index.specs.Index.{lent_index, indexed_values};
ghost use Rattle.dues.specs.FromIntake.{intake_levied, intake_lent_after_levy, intake_index_after_levy, intake_dues_after};

use crate::{GREATEST_TOTAL, levy};
use intake::Intake;
use sheet::Refusal;

// Labels the sheet of an intake and fills the index of its units and the dues of one basin's: refused by 18 if the
// total is too large, by 15 if the intake has not ended, then as a direct call with its sizes.
pub fn levy_intake(
    intake: Intake,
    dirs: &[u8],
    weights: &[u16],
    areas: &mut [u32],
    labels: &mut [u64],
    basins: &mut [u32],
    work: &mut [u32],
    units: &mut [u64],
    outlets: &mut [u32],
    counts: &mut [u32],
    unit_basins: &mut [u32],
    basin: u32,
    total: u64,
    dues: &mut [u64],
) -> Result<usize, Refusal>
    ensures answer { result ≡ intake_levied intake (lent_sheet dirs.now weights.now)
        (lent areas.old labels.old basins.old work.old)
        (lent_index units.old outlets.old counts.old unit_basins.old)
        basin total dues.old }
    ensures values { indexed_values result
        ≡ indexed_values (intake_levied intake (lent_sheet dirs.now weights.now)
        (lent areas.old labels.old basins.old work.old)
        (lent_index units.old outlets.old counts.old unit_basins.old)
        basin total dues.old) }
    ensures lent { lent areas.new labels.new basins.new work.new
        ≡ intake_lent_after_levy intake (lent_sheet dirs.now weights.now)
        (lent areas.old labels.old basins.old work.old) total }
    ensures index { lent_index units.new outlets.new counts.new
        unit_basins.new
        ≡ intake_index_after_levy intake (lent_sheet dirs.now weights.now)
        (lent areas.old labels.old basins.old work.old)
        (lent_index units.old outlets.old counts.old unit_basins.old)
        basin total dues.old }
    ensures dues { dues.new
        ≡ intake_dues_after intake (lent_sheet dirs.now weights.now)
        (lent areas.old labels.old basins.old work.old)
        (lent_index units.old outlets.old counts.old unit_basins.old)
        basin total dues.old }
{
    if total > GREATEST_TOTAL {
        return Err(checks::numbered(18));
    }
    let Some(sizes) = intake.ended_sizes() else {
        return Err(checks::numbered(15));
    };
    levy(
        sizes,
        dirs,
        weights,
        areas,
        labels,
        basins,
        work,
        units,
        outlets,
        counts,
        unit_basins,
        basin,
        total,
        dues,
    )
}
