// The basin levy for hosts in C.
ghost use Rattle.std.specs.Prelude.{◌≡◌};
ghost use Rattle.labelling.specs.Labelling.{sheet, lent};
ghost use Rattle.index.specs.Index.{lent_index};
ghost use Rattle.dues.specs.Levy.{levied, lent_after_levy, index_after_levy, dues_after};
ghost use Rattle.exports.specs.Exports.{indexed_code};

use crate::indexed_code;
use faults::Sizes;

// Labels a sheet, fills the index of its units, and shares a total of whole cents among those of one basin.
#[unsafe(no_mangle)]
pub extern "C" fn pf_levy(
    rows: usize,
    cols: usize,
    depth: usize,
    least: usize,
    split: usize,
    dirs: &[u8],
    weights: &[u16],
    areas: &mut [u32],
    labels: &mut [u64],
    basins: &mut [u32],
    work: &mut [u32],
    units: &mut [u64],
    outlets: &mut [u32],
    counts: &mut [u32],
    unit_basins: &mut [u32],
    basin: u32,
    total: u64,
    dues: &mut [u64],
) -> u64
    ensures answer { result ≡ indexed_code (levied
        (sheet rows cols depth least split dirs.now weights.now)
        (lent areas.old labels.old basins.old work.old)
        (lent_index units.old outlets.old counts.old
        unit_basins.old)
        basin total dues.old) }
    ensures lent { lent areas.new labels.new basins.new work.new
        ≡ lent_after_levy (sheet rows cols depth least split dirs.now weights.now)
        (lent areas.old labels.old basins.old work.old) total }
    ensures index { lent_index units.new outlets.new counts.new
        unit_basins.new
        ≡ index_after_levy (sheet rows cols depth least split dirs.now weights.now)
        (lent areas.old labels.old basins.old work.old)
        (lent_index units.old outlets.old counts.old
        unit_basins.old)
        basin total dues.old }
    ensures dues { dues.new
        ≡ dues_after (sheet rows cols depth least split dirs.now weights.now)
        (lent areas.old labels.old basins.old work.old)
        (lent_index units.old outlets.old counts.old
        unit_basins.old)
        basin total dues.old }
{
    let sizes = Sizes {
        rows,
        cols,
        depth,
        least,
        split,
    };
    indexed_code(levy::levy(
        sizes,
        dirs,
        weights,
        areas,
        labels,
        basins,
        work,
        units,
        outlets,
        counts,
        unit_basins,
        basin,
        total,
        dues,
    ))
}
