// The index of units for hosts in C.
ghost use Rattle.std.specs.Prelude.{◌≡◌};
ghost use Rattle.sheet.specs.Refusal.{lent_after};
ghost use Rattle.labelling.specs.Labelling.{sheet, lent};
ghost use Rattle.index.specs.Index.{lent_index, indexed, index_after};
ghost use Rattle.exports.specs.Exports.{indexed_code};

use crate::indexed_code;
use faults::Sizes;

// Labels a sheet, and fills the index of its units.
#[unsafe(no_mangle)]
pub extern "C" fn pf_index(
    rows: usize,
    cols: usize,
    depth: usize,
    least: usize,
    split: usize,
    dirs: &[u8],
    weights: &[u16],
    areas: &mut [u32],
    labels: &mut [u64],
    basins: &mut [u32],
    work: &mut [u32],
    units: &mut [u64],
    outlets: &mut [u32],
    counts: &mut [u32],
    unit_basins: &mut [u32],
) -> u64
    ensures answer { result ≡ indexed_code (indexed
        (sheet rows cols depth least split dirs.now weights.now)
        (lent areas.old labels.old basins.old work.old)
        (lent_index units.old outlets.old counts.old
        unit_basins.old)) }
    ensures lent { lent areas.new labels.new basins.new work.new
        ≡ lent_after (sheet rows cols depth least split dirs.now weights.now)
        (lent areas.old labels.old basins.old work.old) }
    ensures index { lent_index units.new outlets.new counts.new
        unit_basins.new
        ≡ index_after (sheet rows cols depth least split dirs.now weights.now)
        (lent areas.old labels.old basins.old work.old)
        (lent_index units.old outlets.old counts.old
        unit_basins.old) }
{
    let sizes = Sizes {
        rows,
        cols,
        depth,
        least,
        split,
    };
    indexed_code(index::index(
        sizes,
        dirs,
        weights,
        areas,
        labels,
        basins,
        work,
        units,
        outlets,
        counts,
        unit_basins,
    ))
}
