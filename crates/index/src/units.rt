// Groups of cells of the same unit, counted and written as entries of an index.
ghost use Rattle.std.specs.Prelude.{◌≡◌, ◌<◌, leb, length};
ghost use Rattle.sheet.specs.Refusal.{both};
ghost use Rattle.index.specs.Index.{lent_index, room_for, written_index, if_indexed};
ghost use Rattle.index.specs.Steps.{CellsLabelled, groups_of, Group, Room};

use checks::{label_count, same_unit, unit_at};
use sheet::Refusal;

// The position of the last cell of the group whose first cell stands at `first`.
pub fn last_of_group(cells: &[u32], labels: &[u64], basins: &[u32], first: usize) -> usize
    requires cells_labelled { CellsLabelled cells.now labels.now basins.now }
    requires first_in_bounds { first < length cells.now }
    ensures { Group cells.now labels.now basins.now first result }
{
    let unit = unit_at(basins, labels, cells[first] as usize);
    for next in first + 1..cells.len() {
        if !same_unit(unit_at(basins, labels, cells[next] as usize), unit) {
            return next - 1;
        }
    }
    cells.len() - 1
}

// The number of groups.
pub fn count_units(cells: &[u32], labels: &[u64], basins: &[u32]) -> usize
    requires { CellsLabelled cells.now labels.now basins.now }
    ensures { result ≡ length (groups_of cells.now labels.now basins.now) }
{
    let mut count = 0;
    let mut first = 0;
    // A `while`, since a turn leaps over a group.
    while first < cells.len() {
        first = last_of_group(cells, labels, basins, first) + 1;
        count += 1;
    }
    count
}

// Writes an entry for each group. How many there are.
fn fill_units(
    cells: &[u32],
    labels: &[u64],
    basins: &[u32],
    units: &mut [u64],
    outlets: &mut [u32],
    counts: &mut [u32],
    unit_basins: &mut [u32],
) -> usize
    requires cells_labelled { CellsLabelled cells.now labels.now basins.now }
    requires room { Room (length (groups_of cells.now labels.now basins.now))
        (lent_index units.old outlets.old counts.old unit_basins.old) }
    ensures count { result ≡ length (groups_of cells.now labels.now basins.now) }
    ensures index { lent_index units.new outlets.new counts.new
        unit_basins.new
        ≡ written_index (groups_of cells.now labels.now basins.now)
        (lent_index units.old outlets.old counts.old unit_basins.old) }
{
    let mut at = 0;
    let mut first = 0;
    // A `while`, since a turn leaps over a group.
    while first < cells.len() {
        let last = last_of_group(cells, labels, basins, first);
        let unit = unit_at(basins, labels, cells[first] as usize);
        units[2 * at] = unit.label.first;
        units[2 * at + 1] = unit.label.rest;
        outlets[at] = cells[first];
        counts[at] = (last - first + 1) as u32;
        unit_basins[at] = unit.basin;
        first = last + 1;
        at += 1;
    }
    at
}

// Each slice of the index has a place for each of so many units.
fn index_fits(count: usize, units: usize, outlets: usize, counts: usize, unit_basins: usize) -> bool
    ensures { result ≡ both (leb count units)
        (both (leb count outlets) (both (leb count counts) (leb count unit_basins))) }
{
    count <= units && count <= outlets && count <= counts && count <= unit_basins
}

// Writes an entry for each group, where each slice of the index has a place for each: their number, else 3. There are
// no more groups than cells, so that they are counted first only where a slice has fewer places than that.
pub fn write_units(
    cells: &[u32],
    labels: &[u64],
    basins: &[u32],
    units: &mut [u64],
    outlets: &mut [u32],
    counts: &mut [u32],
    unit_basins: &mut [u32],
) -> Result<usize, Refusal>
    requires { CellsLabelled cells.now labels.now basins.now }
    ensures answer { result ≡ room_for
        (length (groups_of cells.now labels.now basins.now))
        (lent_index units.old outlets.old counts.old unit_basins.old) }
    ensures index { lent_index units.new outlets.new counts.new
        unit_basins.new
        ≡ if_indexed result (groups_of cells.now labels.now basins.now)
        (lent_index units.old outlets.old counts.old unit_basins.old) }
{
    let places = label_count(units);
    if index_fits(
        cells.len(),
        places,
        outlets.len(),
        counts.len(),
        unit_basins.len(),
    ) {
        return Ok(fill_units(cells, labels, basins, units, outlets, counts, unit_basins));
    }
    let count = count_units(cells, labels, basins);
    if index_fits(
        count,
        places,
        outlets.len(),
        counts.len(),
        unit_basins.len(),
    ) {
        return Ok(fill_units(cells, labels, basins, units, outlets, counts, unit_basins));
    }
    Err(checks::numbered(3))
}
