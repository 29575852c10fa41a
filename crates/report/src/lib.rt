// The report of a file that was read: a verdict on it, and the text that tells it.
#![tactic(auto)]

ghost use Rattle.std.specs.Prelude.{◌≡◌, Some};
ghost use Rattle.intake.specs.Intake.{lent_sheet};
ghost use Rattle.labelling.specs.Labelling.{lent};
ghost use Rattle.labelling.specs.FromIntake.{lent_with};
ghost use Rattle.listing.specs.Writing.{listing_values};
ghost use Rattle.report.specs.Report.{verdict_values, sizes_verdict, verdict_of, read_lent, verdict_into, report_into};

use faults::Sizes;
use intake::Intake;
use labelling::label;
use listing::{LabelledSheet, write_listing, write_refusal};
use sheet::Refusal;

// The verdict on a sheet: its sizes, with its areas, labels and basins in what was lent, or its refusal.
fn sheet_verdict(
    sizes: Sizes,
    dirs: &[u8],
    weights: &[u16],
    areas: &mut [u32],
    labels: &mut [u64],
    basins: &mut [u32],
    work: &mut [u32],
) -> Result<Sizes, Refusal>
    ensures verdict { result ≡ sizes_verdict (Some sizes) (lent_sheet dirs.now weights.now)
        (lent areas.old labels.old basins.old work.old) }
    ensures lent { lent areas.new labels.new basins.new work.new
        ≡ lent_with (Some sizes) (lent_sheet dirs.now weights.now)
        (lent areas.old labels.old basins.old work.old) }
{
    label(sizes, dirs, weights, areas, labels, basins, work)?;
    Ok(sizes)
}

// The verdict on a file that was read; its sheet is labelled, and refused by 15 if the intake has not ended.
#[tactic(auto, unfolding(crate::specs::Report::verdict_of, crate::specs::Report::sizes_verdict, crate::specs::Report::read_lent, labelling::specs::FromIntake::intake_lent, labelling::specs::FromIntake::lent_with))]
pub fn verdict_of(
    read: Result<Intake, Refusal>,
    dirs: &[u8],
    weights: &[u16],
    areas: &mut [u32],
    labels: &mut [u64],
    basins: &mut [u32],
    work: &mut [u32],
) -> Result<Sizes, Refusal>
    ensures verdict { result ≡ verdict_of read (lent_sheet dirs.now weights.now)
        (lent areas.old labels.old basins.old work.old) }
    ensures values { verdict_values result
        ≡ verdict_values (verdict_of read (lent_sheet dirs.now weights.now)
        (lent areas.old labels.old basins.old work.old)) }
    ensures lent { lent areas.new labels.new basins.new work.new
        ≡ read_lent read (lent_sheet dirs.now weights.now)
        (lent areas.old labels.old basins.old work.old) }
{
    let intake = read?;
    let Some(sizes) = intake.ended_sizes() else {
        return Err(Refusal {
            number: 15,
            place: 0,
        });
    };
    sheet_verdict(sizes, dirs, weights, areas, labels, basins, work)
}

// Writes the text of a verdict to the start of a buffer.
#[tactic(auto, unfolding(crate::specs::Report::verdict_into))]
fn write_verdict(
    verdict: Result<Sizes, Refusal>,
    dirs: &[u8],
    areas: &[u32],
    labels: &[u64],
    basins: &[u32],
    out: &mut [u8],
) -> Result<usize, Refusal>
    ensures { record { answer = result; buffer = out.new }
        ≡ verdict_into verdict dirs.now areas.now labels.now
        basins.now out.old }
{
    match verdict {
        Err(refusal) => write_refusal(refusal.number, refusal.place, out),
        Ok(sizes) => write_listing(
            LabelledSheet {
                rows: sizes.rows,
                cols: sizes.cols,
                dirs,
                areas,
                labels,
                basins,
            },
            out,
        ),
    }
}

// Writes the report of a file to the start of a buffer.
pub fn write_report(
    read: Result<Intake, Refusal>,
    dirs: &[u8],
    weights: &[u16],
    areas: &mut [u32],
    labels: &mut [u64],
    basins: &mut [u32],
    work: &mut [u32],
    out: &mut [u8],
) -> Result<usize, Refusal>
    ensures report { record {
      answer = result;
      buffer = out.new;
      lent = lent areas.new
          labels.new basins.new work.new;
    }
        ≡ report_into read (lent_sheet dirs.now weights.now)
        (lent areas.old labels.old basins.old work.old)
        out.old }
    ensures values { listing_values result
        ≡ listing_values (report_into read (lent_sheet dirs.now weights.now)
        (lent areas.old labels.old basins.old work.old)
        out.old).answer }
{
    let verdict = verdict_of(read, dirs, weights, areas, labels, basins, work);
    write_verdict(verdict, dirs, areas, labels, basins, out)
}
