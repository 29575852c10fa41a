// The index of the sheet of an intake.
ghost use Rattle.std.specs.Prelude.{◌≡◌};
ghost use Rattle.intake.specs.Intake.{lent_sheet};
ghost use Rattle.labelling.specs.Labelling.{lent};
ghost use Rattle.labelling.specs.FromIntake.{intake_lent};
ghost use Rattle.index.specs.Index.{lent_index, indexed_values};
ghost use Rattle.index.specs.FromIntake.{intake_indexed, intake_index_after};

use crate::index;
use intake::Intake;
use sheet::Refusal;

// Labels the sheet of an intake and fills the index of its units: refused 15 if it has not ended, then as a direct call
// with its sizes.
#[tactic(auto, unfolding(crate::specs::FromIntake::intake_indexed, crate::specs::FromIntake::indexed_with, crate::specs::FromIntake::intake_index_after, crate::specs::FromIntake::index_with, labelling::specs::FromIntake::intake_lent, labelling::specs::FromIntake::lent_with))]
pub fn index_intake(
    intake: Intake,
    dirs: &[u8],
    weights: &[u16],
    areas: &mut [u32],
    labels: &mut [u64],
    basins: &mut [u32],
    work: &mut [u32],
    units: &mut [u64],
    outlets: &mut [u32],
    counts: &mut [u32],
    unit_basins: &mut [u32],
) -> Result<usize, Refusal>
    ensures answer { result ≡ intake_indexed intake (lent_sheet dirs.now weights.now)
        (lent areas.old labels.old basins.old work.old)
        (lent_index units.old outlets.old counts.old unit_basins.old) }
    ensures values { indexed_values result
        ≡ indexed_values (intake_indexed intake (lent_sheet dirs.now weights.now)
        (lent areas.old labels.old basins.old work.old)
        (lent_index units.old outlets.old counts.old unit_basins.old)) }
    ensures lent { lent areas.new labels.new basins.new work.new
        ≡ intake_lent intake (lent_sheet dirs.now weights.now)
        (lent areas.old labels.old basins.old work.old) }
    ensures index { lent_index units.new outlets.new counts.new
        unit_basins.new
        ≡ intake_index_after intake (lent_sheet dirs.now weights.now)
        (lent areas.old labels.old basins.old work.old)
        (lent_index units.old outlets.old counts.old unit_basins.old) }
{
    let Some(sizes) = intake.ended_sizes() else {
        return Err(checks::numbered(15));
    };
    index(
        sizes,
        dirs,
        weights,
        areas,
        labels,
        basins,
        work,
        units,
        outlets,
        counts,
        unit_basins,
    )
}
