// The dues of one basin's units, from the order along rivers, in which one basin stands after the other and the cells
// of each unit side by side.
#![tactic(auto)]

ghost use Rattle.std.specs.Prelude.{◌≡◌, ◌<◌, leb, length, get_or};
ghost use Rattle.sheet.specs.Area.{row_weight};
ghost use Rattle.sheet.specs.Refusal.{written};
ghost use Rattle.claims.specs.Bounds.{sum};
ghost use Rattle.index.specs.Steps.{CellsLabelled, groups_of};
ghost use Rattle.dues.specs.Levy.{if_levied};
ghost use Rattle.dues.specs.Steps.{basin_start, Sizes, Ordered, HoldsBasin, Weighed, Shared, OutletFirst};
ghost use Rattle.dues.specs.Steps.{group_weights, dues_by};

use index::units::{count_units, last_of_group};
use sheet::Refusal;
use upstream::parts;

// A part of the work places: from `first` up to `end`.
#[derive(Clone, Copy)]
pub struct Part {
    pub first: usize,
    pub end: usize,
}

// The position where a basin begins, by the sizes of the cells at each position; where there is no such basin, the end.
fn basin_start(sizes: &[u32], basin: u32) -> usize
    requires { Sizes sizes.now }
    ensures { result ≡ basin_start sizes.now basin }
{
    let mut start = 0;
    let mut number = 1;
    // A `while`, since a turn leaps over a basin.
    while start < sizes.len() {
        if number == basin {
            return start;
        }
        start += sizes[start] as usize;
        number += 1;
    }
    start
}

// The size at a position; 0 past the end.
fn size_at(sizes: &[u32], position: usize) -> usize
    ensures { result ≡ get_or sizes.now position 0 }
{
    sizes.get(position).copied().unwrap_or(0) as usize
}

// Where the cells of a basin stand in the work places, whose order along rivers has `queued` cells.
pub fn basin_part(n: usize, queued: usize, work: &[u32], basin: u32) -> Part
    requires { Ordered n work.now queued }
    ensures { HoldsBasin n work.now queued basin result }
{
    let sizes = parts::ORDERED_SIZES * n;
    let sizes_end = sizes + queued;
    let start = basin_start(&work[sizes..sizes_end], basin);
    let size = size_at(&work[sizes..sizes_end], start);
    let first = parts::CELLS * n + start;
    Part {
        first,
        end: first + size,
    }
}

// There are no more groups of cells than so many places. There are no more groups than cells, so that they are counted
// only where there are fewer places than that.
#[tactic(auto, using(index::proofs::Room::groups_few))]
pub fn dues_fit(cells: &[u32], labels: &[u64], basins: &[u32], places: usize) -> bool
    requires { CellsLabelled cells.now labels.now basins.now }
    ensures { result ≡ leb (length (groups_of cells.now labels.now basins.now))
        places }
{
    cells.len() <= places || count_units(cells, labels, basins) <= places
}

// The summed weight of cells; a cell weighs what the weight of its row says.
fn weight_of(cols: usize, weights: &[u16], cells: &[u32]) -> u64
    requires { Weighed cols weights.now cells.now }
    ensures { result ≡ sum (row_weight cols weights.now) cells.now }
{
    let mut weight = 0;
    for cell in cells {
        let row = *cell as usize / cols;
        weight += weights[row] as u64;
    }
    weight
}

// Writes the dues of the units of cells, of which each unit's stand side by side.
fn write_dues(
    total: u64,
    whole: u64,
    cols: usize,
    weights: &[u16],
    cells: &[u32],
    labels: &[u64],
    basins: &[u32],
    dues: &mut [u64],
)
    requires { Shared total whole cols weights.now cells.now labels.now basins.now dues.old }
    ensures { dues.new
        ≡ written (dues_by total whole 0
        (group_weights (row_weight cols weights.now) cells.now labels.now
        basins.now))
        dues.old }
{
    let mut at = 0;
    let mut first = 0;
    let mut weight = 0;
    let mut owed = 0;
    // A `while`, since a turn leaps over a group.
    while first < cells.len() {
        let end = last_of_group(cells, labels, basins, first) + 1;
        weight += weight_of(cols, weights, &cells[first..end]);
        let together = total * weight / whole;
        dues[at] = together - owed;
        owed = together;
        first = end;
        at += 1;
    }
}

// Writes the dues of the units of a basin's cells, if the index was filled. The area of the outlet, the first of these
// cells, is the weight of all of them.
pub fn dues_in_order(
    answer: Result<usize, Refusal>,
    total: u64,
    cols: usize,
    weights: &[u16],
    areas: &[u32],
    cells: &[u32],
    labels: &[u64],
    basins: &[u32],
    dues: &mut [u64],
)
    requires { 0
        < length cells.now
        → OutletFirst total cols weights.now areas.now cells.now labels.now basins.now dues.old }
    ensures { dues.new
        ≡ if_levied answer (dues_by total (sum (row_weight cols weights.now) cells.now) 0
        (group_weights (row_weight cols weights.now) cells.now labels.now
        basins.now))
        dues.old }
{
    if cells.is_empty() {
        return;
    }
    match answer {
        Ok(_) => {
            let outlet = cells[0] as usize;
            write_dues(
                total,
                areas[outlet] as u64,
                cols,
                weights,
                cells,
                labels,
                basins,
                dues,
            )
        }
        Err(_) => {}
    }
}
