// The atlas of a file that was read: the pages of its sheet, or the two lines after a refusal.
#![tactic(auto)]

ghost use Rattle.std.specs.Prelude.{◌≡◌};
ghost use Rattle.listing.specs.Writing.{listing_values};
ghost use Rattle.atlas_file.specs.Atlas.{refusal_page_into, verdict_page_into};

use faults::Sizes;
use listing::{LabelledSheet, write_refusal};
use pages::write_page;
use sheet::Refusal;

// Writes the two lines after a refusal, which are its only page.
#[tactic(auto, unfolding(crate::specs::Atlas::refusal_page_into))]
fn write_refusal_page(refusal: Refusal, page: usize, out: &mut [u8]) -> Result<usize, Refusal>
    ensures { record { answer = result; buffer = out.new }
        ≡ refusal_page_into refusal.number refusal.place page out.old }
{
    if page == 1 {
        return write_refusal(refusal.number, refusal.place, out);
    }
    Ok(0)
}

// Writes a page of the atlas of a verdict to the start of a buffer. Pages are numbered from 1; no byte is written where
// there is no such page.
#[tactic(auto, unfolding(crate::specs::Atlas::verdict_page_into))]
pub fn write_verdict_page(
    verdict: Result<Sizes, Refusal>,
    dirs: &[u8],
    areas: &[u32],
    labels: &[u64],
    basins: &[u32],
    page: usize,
    out: &mut [u8],
) -> Result<usize, Refusal>
    ensures page { record { answer = result; buffer = out.new }
        ≡ verdict_page_into verdict dirs.now areas.now labels.now
        basins.now page out.old }
    ensures values { listing_values result
        ≡ listing_values (verdict_page_into verdict dirs.now areas.now labels.now
        basins.now page out.old).answer }
{
    match verdict {
        Err(refusal) => write_refusal_page(refusal, page, out),
        Ok(sizes) => write_page(
            LabelledSheet {
                rows: sizes.rows,
                cols: sizes.cols,
                dirs,
                areas,
                labels,
                basins,
            },
            page,
            out,
        ),
    }
}
