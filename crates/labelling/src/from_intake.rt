// Labelling from an intake.
ghost use Rattle.std.specs.Prelude.{◌≡◌};
ghost use Rattle.sheet.specs.Refusal.{outcome_values};
ghost use Rattle.intake.specs.Intake.{lent_sheet};
ghost use Rattle.labelling.specs.Labelling.{lent};
ghost use Rattle.labelling.specs.FromIntake.{intake_outcome, intake_lent};

use crate::label;
use intake::Intake;
use sheet::Refusal;

// Labels the sheet of an intake: refused 15 if it has not ended, then as a direct call with its sizes.
#[tactic(auto, unfolding(crate::specs::FromIntake::intake_outcome, crate::specs::FromIntake::outcome_with, crate::specs::FromIntake::intake_lent, crate::specs::FromIntake::lent_with))]
pub fn label_intake(
    intake: Intake,
    dirs: &[u8],
    weights: &[u16],
    areas: &mut [u32],
    labels: &mut [u64],
    basins: &mut [u32],
    work: &mut [u32],
) -> Result<(), Refusal>
    ensures outcome { result ≡ intake_outcome intake (lent_sheet dirs.now weights.now)
        (lent areas.old labels.old basins.old work.old) }
    ensures values { outcome_values result
        ≡ outcome_values (intake_outcome intake (lent_sheet dirs.now weights.now)
        (lent areas.old labels.old basins.old work.old)) }
    ensures lent { lent areas.new labels.new basins.new work.new
        ≡ intake_lent intake (lent_sheet dirs.now weights.now)
        (lent areas.old labels.old basins.old work.old) }
{
    let Some(sizes) = intake.ended_sizes() else {
        return Err(checks::numbered(15));
    };
    label(sizes, dirs, weights, areas, labels, basins, work)
}
