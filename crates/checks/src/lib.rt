// The tests of checks 1, 2, 19, 17 and 4 to 6: sizes, depth, least and split, weights, and the first cell in reading
// order that a check looks for; the refusal of a number; whether two labels or units are the same, those at a place of
// lent slices, how many a slice holds, and places set to 0.
#![tactic(auto)]

pub mod codes;

ghost use Rattle.std.specs.Prelude.{◌≡◌, ◌+◌, ◌*◌, ◌/◌, ◌≤◌, ◌<◌, length, replicate};
ghost use Rattle.sheet.specs.Sheet.{first};
ghost use Rattle.directions.specs.Sizes.{OnSheet, Sized, grid_of};
ghost use Rattle.sheet.specs.Record.{same_label, label_places, label_at, same_unit, unit_at};
ghost use Rattle.sheet.specs.Refusal.{within, sizes_fit, depth_fits, least_fits, split_fits, least_and_split_fit};
ghost use Rattle.sheet.specs.Refusal.{sheet_fault, weight_fits, weights_fit, written};
ghost use Rattle.sheet.specs.Answer.{outcome_of_fault};
ghost use Rattle.checks.specs.Search.{is_target};

use directions::Grid;
use sheet::{Label, Refusal, UnitName};

// What a search in reading order looks for: an inside cell, or an inside cell that a search upstream did not reach.
#[derive(Clone, Copy)]
pub enum Target {
    Inside,
    Unreached,
}

// Whether the cell in a row and a column is one that is looked for.
fn is_target(grid: Grid<'_>, reached: &[u32], target: Target, row: usize, col: usize) -> bool
    requires { Sized grid.rows grid.cols grid.dirs.now × OnSheet grid.rows grid.cols row col
        × (grid.rows * grid.cols ≤ length reached.now) }
    ensures { result ≡ is_target (grid_of grid.entry) reached.now target (row * grid.entry.cols + col) }
{
    let cell = row * grid.cols + col;
    let code = grid.dirs[cell];
    match target {
        Target::Inside => code != 0,
        Target::Unreached => code != 0 && reached[cell] == 0,
    }
}

// The first cell in reading order that is looked for.
pub fn first_target(grid: Grid<'_>, reached: &[u32], target: Target) -> Option<usize>
    requires { Sized grid.rows grid.cols grid.dirs.now × (grid.rows * grid.cols ≤ length reached.now) }
    ensures { result ≡ first (is_target (grid_of grid.entry) reached.now target)
        (grid.entry.rows * grid.entry.cols) }
{
    let mut found = None;
    'rows: for row in 0..grid.rows {
        for col in 0..grid.cols {
            if is_target(grid, reached, target, row, col) {
                found = Some(row * grid.cols + col);
                break 'rows;
            }
        }
    }
    found
}

// From 1 to most.
#[tactic(auto, unfolding(sheet::specs::Refusal::within))]
fn is_within(most: usize, x: usize) -> bool
    ensures { result ≡ within most x }
{
    (1..=most).contains(&x)
}

// Rows and columns: 1 to 256 each.
#[tactic(auto, unfolding(sheet::specs::Refusal::sizes_fit))]
pub fn sizes_fit(rows: usize, cols: usize) -> bool
    ensures { result ≡ sizes_fit rows cols }
{
    is_within(256, rows) && is_within(256, cols)
}

// Depth: 1 to 36 digits.
#[tactic(auto, unfolding(sheet::specs::Refusal::depth_fits))]
pub fn depth_fits(depth: usize) -> bool
    ensures { result ≡ depth_fits depth }
{
    is_within(36, depth)
}

// Least: 1 to 65,536,000.
#[tactic(auto, unfolding(sheet::specs::Refusal::least_fits))]
pub fn least_fits(least: usize) -> bool
    ensures { result ≡ least_fits least }
{
    is_within(65536000, least)
}

// Split: 1 to 4.
#[tactic(auto, unfolding(sheet::specs::Refusal::split_fits))]
fn split_fits(split: usize) -> bool
    ensures { result ≡ split_fits split }
{
    is_within(4, split)
}

// Least and split, for 19.
#[tactic(auto, unfolding(sheet::specs::Refusal::least_and_split_fit))]
fn least_and_split_fit(least: usize, split: usize) -> bool
    ensures { result ≡ least_and_split_fit least split }
{
    least_fits(least) && split_fits(split)
}

// A refusal that names no place.
pub fn numbered(number: u8) -> Refusal
    ensures { result ≡ record { number = number; place = 0 } }
{
    Refusal { number, place: 0 }
}

// The refusal of a sheet by 1, 2, 19, in this order.
#[tactic(auto, unfolding(sheet::specs::Refusal::sheet_fault))]
pub fn sheet_fault(
    rows: usize,
    cols: usize,
    depth: usize,
    least: usize,
    split: usize,
) -> Result<(), Refusal>
    ensures { result ≡ outcome_of_fault (sheet_fault rows cols depth least split) }
{
    if !sizes_fit(rows, cols) {
        return Err(numbered(1));
    }
    if !depth_fits(depth) {
        return Err(numbered(2));
    }
    if !least_and_split_fit(least, split) {
        return Err(numbered(19));
    }
    Ok(())
}

// Two labels are the same: both numbers are equal.
#[tactic(auto, unfolding(sheet::specs::Record::same_label))]
pub fn same_label(p: Label, q: Label) -> bool
    ensures { result ≡ same_label p q }
{
    p == q
}

// The label at a place of a slice of labels, which holds each as two neighbouring numbers.
pub fn label_at(labels: &[u64], place: usize) -> Label
    requires { place < label_places (length labels.now) }
    ensures { result ≡ label_at labels.now place }
{
    Label {
        first: labels[2 * place],
        rest: labels[2 * place + 1],
    }
}

// How many labels a slice holds; an odd number at the end is none.
pub fn label_count(labels: &[u64]) -> usize
    ensures { result ≡ length labels.now / 2 }
{
    labels.len() / 2
}

// Two units are the same: their basins and their labels are equal.
#[tactic(auto, unfolding(sheet::specs::Record::same_unit, sheet::specs::Record::same_label))]
pub fn same_unit(p: UnitName, q: UnitName) -> bool
    ensures { result ≡ same_unit p q }
{
    p == q
}

// The unit at a place of a slice of basins and a slice of labels.
pub fn unit_at(basins: &[u32], labels: &[u64], place: usize) -> UnitName
    requires place_in_bounds { place < length basins.now }
    requires place_bound { place < label_places (length labels.now) }
    ensures { result ≡ unit_at basins.now labels.now place }
{
    UnitName {
        basin: basins[place],
        label: label_at(labels, place),
    }
}

// A weight: 1 to 1000.
#[tactic(auto, unfolding(sheet::specs::Refusal::weight_fits))]
pub fn weight_fits(weight: u32) -> bool
    ensures { result ≡ weight_fits weight }
{
    is_within(1000, weight as usize)
}

// The weights of the rows, one each. Those past the rows are not looked at.
pub fn weights_fit(weights: &[u16], rows: usize) -> bool
    requires { rows ≤ length weights.now }
    ensures { result ≡ weights_fit rows weights.now }
{
    weights[..rows]
        .iter()
        .all(|weight| weight_fits(u32::from(*weight)))
}

// Sets all places to 0.
pub fn clear_places(places: &mut [u32])
    ensures { places.new ≡ replicate (length places.old) 0 }
{
    places.fill(0);
}

// Sets the first `count` places to 0.
pub fn clear_first(places: &mut [u32], count: usize)
    requires { count ≤ length places.old }
    ensures { places.new ≡ written (replicate count 0) places.old }
{
    places[..count].fill(0);
}
