// The labelling of units and rivers, which call each other.
ghost use Rattle.std.specs.Prelude.{ℕ, ◌+◌, ◌-◌, ◌≤◌, ◌<◌, ◌≡◌, length, get_or};
ghost use Rattle.sheet.specs.River.{river};
ghost use Rattle.sheet.specs.Record.{record_of, label_places};
ghost use Rattle.sheet.specs.Label.{label};
ghost use Rattle.rivers.specs.Labelled.{relabelled, cells_labelled, unit_labelled, stands};
ghost use Rattle.rivers.specs.Prefix.{Prefix};
ghost use Rattle.rivers.specs.UnitAt.{NetworkOf, UnitAt, Places};

use crate::heaviest::{Rule, UnitSpan, heaviest};
use crate::keys::key_at;
use crate::prefix::with_digit;
use sheet::Label;

// Gives the cells at positions lo to hi the same label.
fn fill(lo: usize, hi: usize, prefix: Label, cell: &[u32], labels: &mut [u64])
    requires hi_in_bounds { hi ≤ length cell.now }
    requires by_index { (j : ℕ) → j < length cell.now
        → get_or cell.now j 0 < label_places (length labels.old) }
    ensures { labels.new
        ≡ cells_labelled (stands cell.now lo (hi - lo)) (λ c. prefix) labels.old }
{
    // By position, since the contract of `fill` does not ask that lo is at most hi, as `&cell[lo..hi]` would.
    for j in lo..hi {
        let at = 2 * cell[j] as usize;
        labels[at] = prefix.first;
        labels[at + 1] = prefix.rest;
    }
}

// Labels the cells of the unit at `span`, with at most `digits` digits after `prefix`.
#[cycle(label_river_label_run)]
fn label_run(
    span: UnitSpan,
    digits: usize,
    prefix: Label,
    rule: Rule,
    cell: &[u32],
    size: &[u32],
    area: &[u32],
    labels: &mut [u64],
)
    requires unit_at { UnitAt cell.now size.now area.now rule.split rule.least
        span.end span.lo span.hi }
    requires places { Places cell.now size.now (length area.now) (label_places (length labels.old)) rule.split }
    requires prefix { Prefix prefix digits }
    ensures { (u : UnitAt cell.now size.now area.now rule.split
        rule.least span.end span.lo span.hi) (p : Prefix prefix digits) → labels.new
        ≡ unit_labelled u.of.network u.run digits p.gathered labels.old }
{
    let hi = span.hi;
    let end = span.end;
    if digits == 0 {
        fill(span.lo, hi, prefix, cell, labels);
        return;
    }
    let cut = heaviest(span, rule, cell, size, area);
    if cut.finished {
        fill(span.lo, hi, prefix, cell, labels);
        return;
    }
    let key = cut.key;
    let left = digits - 1;
    // The run under way begins at lo and gets digit.
    let mut digit = 1;
    let mut lo = span.lo;
    // A `while`, since a turn leaps over the subtree of a mouth.
    let mut j = lo;
    while j < hi {
        let s = size[j] as usize;
        if j + s == end {
            j += 1;
        } else if key_at(j, cell, area) < key {
            j += s;
        } else {
            let before = UnitSpan { lo, hi: j, end };
            let run = with_digit(prefix, digit);
            label_run(before, left, run, rule, cell, size, area, labels);
            let tributary = with_digit(prefix, digit + 1);
            label_river(j, left, tributary, rule, cell, size, area, labels);
            digit += 2;
            j += s;
            lo = j;
        }
    }
    let last = UnitSpan { lo, hi, end };
    let run = with_digit(prefix, digit);
    label_run(last, left, run, rule, cell, size, area, labels);
}

// Labels the cells of the river whose mouth stands at position j.
#[cycle(label_river_label_run)]
pub fn label_river(
    j: usize,
    digits: usize,
    prefix: Label,
    rule: Rule,
    cell: &[u32],
    size: &[u32],
    area: &[u32],
    labels: &mut [u64],
)
    requires j_in_bounds { j < length cell.now }
    requires network_of { NetworkOf cell.now size.now area.now rule.split rule.least }
    requires places { Places cell.now size.now (length area.now) (label_places (length labels.old)) rule.split }
    requires prefix { Prefix prefix digits }
    ensures { (n : NetworkOf cell.now size.now area.now rule.split
        rule.least) (p : Prefix prefix digits) → labels.new
        ≡ unit_labelled n.network (river n.network (get_or cell.now j 0)) digits p.gathered
        labels.old }
{
    let end = j + size[j] as usize;
    let span = UnitSpan {
        lo: j,
        hi: end,
        end,
    };
    label_run(span, digits, prefix, rule, cell, size, area, labels);
}

// Gives the cells at positions lo to hi the number of their basin.
fn number_cells(lo: usize, hi: usize, number: u32, cell: &[u32], basins: &mut [u32])
    requires hi_in_bounds { hi ≤ length cell.now }
    requires by_index { (j : ℕ) → j < length cell.now → get_or cell.now j 0 < length basins.old }
    ensures { basins.new
        ≡ relabelled (stands cell.now lo (hi - lo)) (λ c. number) basins.old }
{
    // By position, since the contract of `number_cells` does not ask that lo is at most hi, as `&cell[lo..hi]` would.
    for i in lo..hi {
        basins[cell[i] as usize] = number;
    }
}

// Labels the cells of the basin whose outlet stands at position j, to the depth given, and gives them its number.
pub fn label_basin(
    j: usize,
    number: u32,
    depth: usize,
    rule: Rule,
    cell: &[u32],
    size: &[u32],
    area: &[u32],
    labels: &mut [u64],
    basins: &mut [u32],
)
    requires depth_bound { depth ≤ 36 }
    requires j_in_bounds { j < length cell.now }
    requires network_of { NetworkOf cell.now size.now area.now rule.split rule.least }
    requires places { Places cell.now size.now (length area.now) (label_places (length labels.old)) rule.split }
    requires by_index { (i : ℕ) → i < length cell.now → get_or cell.now i 0 < length basins.old }
    ensures labels { (n : NetworkOf cell.now size.now area.now rule.split
        rule.least) → labels.new
        ≡ cells_labelled (stands cell.now j (get_or size.now j 0))
        (λ c. record_of (label n.network depth (river n.network (get_or cell.now j 0)) c))
        labels.old }
    ensures basins { basins.new
        ≡ relabelled (stands cell.now j (get_or size.now j 0)) (λ c. number)
        basins.old }
{
    let none = Label { first: 0, rest: 0 };
    label_river(j, depth, none, rule, cell, size, area, labels);
    number_cells(j, j + size[j] as usize, number, cell, basins);
}
