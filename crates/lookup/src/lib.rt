// Looking up leading digits in a basin: the part of a slice of labels that holds the basin's labels that begin so.
#![tactic(auto)]

ghost use Rattle.std.specs.Prelude.{◌≡◌, true, ◌≤◌, ◌^◌, ltb, length};
ghost use Rattle.sheet.specs.Record.{decimal_digits, number_digits, labels_in, numbers_of, units_in};
ghost use Rattle.sheet.specs.Flow.{every, is_label};
ghost use Rattle.lookup.specs.Lookup.{greatest_depth, stands_before, is_rising, part_found};
ghost use Rattle.lookup.specs.Lookup.{lookup_answer, lookup_values, lookup_part, lookup_place};
ghost use Rattle.lookup.specs.Padded.{padded as paddedOf, padded_end, is_below, count_below};
ghost use Rattle.lookup.specs.PaddedHalves.{number_with_zeros, padded_number, HalvesOf, joined};

use checks::{label_at, label_count, unit_at};
use digits::{count_decimal_digits, is_label};
use sheet::{LEAST_OF_18_DIGITS, Label, NUMBER_DIGITS, Refusal, UnitName};

// A part of the labels: where it starts and how many labels it has.
#[derive(Clone, Copy, Debug, PartialEq, Eq)]
pub struct Part {
    pub start: usize,
    pub length: usize,
}

// A number of 36 digits in two halves, the first 18 digits and the next 18.
#[derive(Clone, Copy)]
pub struct Halves {
    pub first: u64,
    pub rest: u64,
}

// The most digits of any label.
pub const GREATEST_DEPTH: usize = 36;

// Each entry is a label.
pub fn all_labels(labels: &[u64]) -> bool
    ensures { result ≡ every (is_label greatest_depth) (labels_in labels.now) }
{
    (0..label_count(labels)).all(|i| is_label(GREATEST_DEPTH, label_at(labels, i)))
}

// A number of count digits, or the one past the last of those, with zeros behind it, up to 18 digits.
fn with_zeros(number: u64, count: usize) -> u64
    requires number_bound { number ≤ 10 ^ count }
    requires count_le_number_digits { count ≤ number_digits }
    ensures { result ≡ number_with_zeros number count }
{
    number * 10u64.pow((NUMBER_DIGITS - count) as u32)
}

// A number with zeros behind its digits, up to 18 digits; 0 stays 0.
fn padded_number(number: u64) -> u64
    requires { length (decimal_digits number) ≤ number_digits }
    ensures { result ≡ padded_number number }
{
    if number == 0 {
        return 0;
    }
    let mut m = number;
    while m < LEAST_OF_18_DIGITS {
        m *= 10;
    }
    m
}

// A label with zeros behind its digits, up to 36 digits, so that labels compare as in a dictionary.
pub fn padded(label: Label) -> Halves
    requires { is_label greatest_depth label ≡ true }
    ensures { HalvesOf (paddedOf label) result }
{
    Halves {
        first: padded_number(label.first),
        rest: padded_number(label.rest),
    }
}

// The first padded number past those of the labels that begin with the leading digits: one more at their last digit.
pub fn padded_end(leading: Label) -> Halves
    requires { is_label greatest_depth leading ≡ true }
    ensures { HalvesOf (padded_end leading) result }
{
    if leading.rest == 0 {
        return Halves {
            first: with_zeros(leading.first + 1, count_decimal_digits(leading.first)),
            rest: 0,
        };
    }
    Halves {
        first: leading.first,
        rest: with_zeros(leading.rest + 1, count_decimal_digits(leading.rest)),
    }
}

// The padded label is less than a limit: by the first half, and where those are equal by the next.
pub fn is_below(label: Label, limit: Halves) -> bool
    requires label_value { is_label greatest_depth label ≡ true }
    requires rest_bound { limit.rest ≤ 10 ^ number_digits }
    ensures { result ≡ ltb (paddedOf label) (joined limit) }
{
    let first = padded_number(label.first);
    first < limit.first || (first == limit.first && padded_number(label.rest) < limit.rest)
}

// The unit stands before a limit in a basin: by basins, and where those are equal by padded labels.
#[tactic(auto, unfolding(crate::specs::Padded::is_below))]
fn unit_is_below(unit: UnitName, basin: u32, limit: Halves) -> bool
    requires label_value { is_label greatest_depth unit.label ≡ true }
    requires rest_bound { limit.rest ≤ 10 ^ number_digits }
    ensures { result ≡ is_below basin (joined limit) unit }
{
    unit.basin < basin || (unit.basin == basin && is_below(unit.label, limit))
}

// The unit m stands before the unit k.
fn stands_before(m: UnitName, k: UnitName) -> bool
    requires label_value { is_label greatest_depth m.label ≡ true }
    requires label_value_2 { is_label greatest_depth k.label ≡ true }
    ensures { result ≡ stands_before m k }
{
    unit_is_below(m, k.basin, padded(k.label))
}

// Each unit stands before the next.
fn is_rising(labels: &[u64], basins: &[u32]) -> bool
    requires labels_in_bounds { length (labels_in labels.now) ≤ length basins.now }
    requires labels_value { every (is_label greatest_depth) (labels_in labels.now) ≡ true }
    ensures { result ≡ is_rising (units_in basins.now (labels_in labels.now)) }
{
    (1..label_count(labels)).all(|i| stands_before(
        unit_at(basins, labels, i - 1),
        unit_at(basins, labels, i),
    ))
}

// How many units stand before a limit in a basin.
fn count_below(basin: u32, limit: Halves, labels: &[u64], basins: &[u32]) -> usize
    requires rest_bound { limit.rest ≤ 10 ^ number_digits }
    requires labels_in_bounds { length (labels_in labels.now) ≤ length basins.now }
    requires labels_value { every (is_label greatest_depth) (labels_in labels.now) ≡ true }
    ensures { result ≡ count_below basin (joined limit)
        (units_in basins.now (labels_in labels.now)) }
{
    (0..label_count(labels))
        .filter(|i| unit_is_below(unit_at(basins, labels, *i), basin, limit))
        .count()
}

// Where the basin's labels that begin with the leading digits start, and how many there are.
fn part_found(leading: UnitName, labels: &[u64], basins: &[u32]) -> Part
    requires label_value { is_label greatest_depth leading.label ≡ true }
    requires labels_in_bounds { length (labels_in labels.now) ≤ length basins.now }
    requires labels_value { every (is_label greatest_depth) (labels_in labels.now) ≡ true }
    ensures { result ≡ part_found leading (units_in basins.now (labels_in labels.now)) }
{
    let start = count_below(leading.basin, padded(leading.label), labels, basins);
    let end = count_below(leading.basin, padded_end(leading.label), labels, basins);
    Part {
        start,
        length: end - start,
    }
}

// Where the part starts and how many labels it has. Refused by 3 for fewer basins than labels, 11 for the leading
// digits, 11 for the entries, 16, in this order.
#[tactic(auto, using(crate::proofs::Counted::labels_counted))]
pub fn find(leading: UnitName, labels: &[u64], basins: &[u32]) -> Result<Part, Refusal>
    ensures answer { result ≡ lookup_answer leading (labels_in labels.now) basins.now }
    ensures values { lookup_values result
        ≡ lookup_values (lookup_answer leading (labels_in labels.now) basins.now) }
{
    if basins.len() < label_count(labels) {
        return Err(checks::numbered(3));
    }
    if !is_label(GREATEST_DEPTH, leading.label) {
        return Err(checks::numbered(11));
    }
    if all_labels(labels) {
        if is_rising(labels, basins) {
            return Ok(part_found(leading, labels, basins));
        }
        return Err(checks::numbered(16));
    }
    Err(checks::numbered(11))
}

// The part of the slice that holds the basin's labels that begin with the leading digits, empty at the place they would
// take if none does; refused, the empty part at the slice's start. The refusal's number, or 0, goes to the lent number: no
// `Result`, since the clauses `part` and `place` promise a part of the lent slice for a refused lookup too.
pub fn lookup<'a>(
    leading: UnitName,
    labels: &'a [u64],
    basins: &[u32],
    refusal: &mut u8,
) -> &'a [u64]
    ensures part { result.now
        ≡ numbers_of (lookup_part leading (labels_in labels.now) basins.now) }
    ensures place { result.ref_ptr
        ≡ lookup_place leading (labels_in labels.now) basins.now labels.entry.ref_ptr }
    ensures refusal { refusal.new
        ≡ (lookup_values (lookup_answer leading (labels_in labels.now) basins.now)).number }
{
    match find(leading, labels, basins) {
        Ok(part) => {
            *refusal = 0;
            let from = 2 * part.start;
            let to = from + 2 * part.length;
            return &labels[from..to];
        }
        Err(refused) => {
            *refusal = refused.number;
            return &labels[..0];
        }
    }
}
