// The basins of a sheet, one after the other along the order along rivers: each gets its number, and its cells their
// labels.
ghost use Rattle.std.specs.Prelude.{◌≡◌, ◌≤◌, length};
ghost use Rattle.sheet.specs.Record.{label_places};
ghost use Rattle.sheet.specs.Label.{label_of};
ghost use Rattle.sheet.specs.Basins.{basin_of};
ghost use Rattle.rivers.specs.Labelled.{relabelled, cells_labelled, stands};
ghost use Rattle.rivers.specs.UnitAt.{Places};
ghost use Rattle.rivers.specs.Layout.{Layout};
ghost use Rattle.labelling.specs.Labelling.{BasinsOf};

use rivers::heaviest::Rule;
use rivers::units::label_basin;

// Labels the cells of all basins, to the depth given, and gives them the numbers of their basins, from 1.
pub(crate) fn label_basins(
    depth: usize,
    split: usize,
    least: u32,
    cell: &[u32],
    size: &[u32],
    area: &[u32],
    labels: &mut [u64],
    basins: &mut [u32],
)
    requires basins_of { BasinsOf cell.now size.now area.now depth split least }
    requires places { Places cell.now size.now (length area.now) (label_places (length labels.old)) split }
    requires layout { Layout cell.now size.now (length basins.old) }
    ensures labels { (b : BasinsOf cell.now size.now area.now depth split
        least) → labels.new ≡ cells_labelled (stands cell.now 0 (length cell.now))
        (label_of b.sheet) labels.old }
    ensures basins { (b : BasinsOf cell.now size.now area.now depth split
        least) → basins.new ≡ relabelled (stands cell.now 0 (length cell.now))
        (basin_of b.sheet.grid) basins.old }
{
    let rule = Rule { split, least };
    let mut number = 1;
    let mut j = 0;
    // A `while`, since a turn leaps over a basin.
    while j < cell.len() {
        label_basin(j, number, depth, rule, cell, size, area, labels, basins);
        number += 1;
        j += size[j] as usize;
    }
}
