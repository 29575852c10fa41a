// The listing of a sheet's cells, and the two lines after a refusal, as text in a lent buffer.
#![tactic(auto)]

ghost use Rattle.std.specs.Prelude.{◌≡◌, ◌+◌, ◌*◌, ◌<◌, ◌≤◌, length};
ghost use Rattle.decimal.specs.Text.{decimal_text};
ghost use Rattle.sheet.specs.Answer.{outcome_of_fault};
ghost use Rattle.listing.specs.Listing.{label_text, field};
ghost use Rattle.listing.specs.Labelled.{CanBeListed, grid_of, lines_of, values_at, values_line};
ghost use Rattle.listing.specs.Writing.{listing_values, listing_fault, listing_into, refusal_into};
ghost use Rattle.listing.specs.Steps.{Put};

use checks::{label_count, sizes_fit};
use decimal::{COMMA, LINE_FEED, decimal_length};
use sheet::{Label, Refusal};

// A sheet whose texts are written: its sizes, and a direction, an area, a label and a basin for each of its cells.
#[derive(Clone, Copy)]
pub struct LabelledSheet<'a> {
    pub rows: usize,
    pub cols: usize,
    pub dirs: &'a [u8],
    pub areas: &'a [u32],
    pub labels: &'a [u64],
    pub basins: &'a [u32],
}

// What the line of a cell tells.
#[derive(Clone, Copy)]
pub struct CellValues {
    pub basin: u32,
    pub row: usize,
    pub col: usize,
    pub area: u32,
    pub label: Label,
}

impl LabelledSheet<'_> {
    // The values of a cell.
    pub fn values_at(self, cell: usize) -> CellValues
        requires { CanBeListed self × (cell < self.rows * self.cols) }
        ensures { result ≡ values_at self.entry cell }
    {
        CellValues {
            basin: self.basins[cell],
            row: cell / self.cols,
            col: cell % self.cols,
            area: self.areas[cell],
            label: checks::label_at(self.labels, cell),
        }
    }
}

// The bytes of a label.
pub fn label_length(label: Label) -> usize
    ensures { result ≡ length (label_text label) }
{
    if label.rest == 0 {
        return decimal_length(label.first);
    }
    if label.first == 0 {
        return decimal_length(label.rest);
    }
    let first_digits = decimal_length(label.first);
    let rest_digits = decimal_length(label.rest);
    first_digits + rest_digits
}

// The bytes of the line of a cell.
fn cell_length(values: CellValues) -> usize
    ensures bytes { result ≡ length (values_line values) }
    ensures few { result ≤ 105 }
{
    let basin_digits = decimal_length(values.basin as u64);
    let row_digits = decimal_length(values.row as u64);
    let col_digits = decimal_length(values.col as u64);
    let area_digits = decimal_length(values.area as u64);
    let label_bytes = label_length(values.label);
    basin_digits + row_digits + col_digits + area_digits + label_bytes + 5
}

// The bytes of the lines of all inside cells.
fn lines_length(sheet: LabelledSheet) -> usize
    requires { CanBeListed sheet }
    ensures bytes { result ≡ length (lines_of sheet.entry) }
    ensures few { result ≤ 105 * (sheet.entry.rows * sheet.entry.cols) }
{
    let n = sheet.rows * sheet.cols;
    let mut count = 0;
    for cell in 0..n {
        if sheet.dirs[cell] == 0 {
            continue;
        }
        count += cell_length(sheet.values_at(cell));
    }
    count
}

// Writes a text from a position on, and gives the position after it.
pub fn put_text(text: &[u8], out: &mut [u8], at: usize) -> usize
    requires { at + length text.now ≤ length out.old }
    ensures { Put out.old out.new at result text.now }
{
    let end = at + text.len();
    out[at..end].copy_from_slice(text);
    end
}

// Writes a value.
pub fn put_value(value: u64, out: &mut [u8], at: usize) -> usize
    requires { at + length (decimal_text value) ≤ length out.old }
    ensures { Put out.old out.new at result (decimal_text value) }
{
    decimal::write_decimal(value, out, at).unwrap_or(at)
}

// Writes a value and the byte after it.
fn put_field(value: u64, after: u8, out: &mut [u8], at: usize) -> usize
    requires { at + length (decimal_text value) < length out.old }
    ensures { Put out.old out.new at result (field (decimal_text value) after) }
{
    let end = put_value(value, out, at);
    out[end] = after;
    end + 1
}

// Writes a label and the byte after it: the digits of its two numbers with no gap.
pub fn put_label(label: Label, after: u8, out: &mut [u8], at: usize) -> usize
    requires { at + length (label_text label) < length out.old }
    ensures { Put out.old out.new at result (field (label_text label) after) }
{
    if label.rest == 0 {
        return put_field(label.first, after, out, at);
    }
    if label.first == 0 {
        return put_field(label.rest, after, out, at);
    }
    let rest_at = put_value(label.first, out, at);
    put_field(label.rest, after, out, rest_at)
}

// Writes the line of a cell.
fn put_cell(values: CellValues, out: &mut [u8], at: usize) -> usize
    requires { at + length (values_line values) ≤ length out.old }
    ensures { Put out.old out.new at result (values_line values) }
{
    let row_at = put_field(values.basin as u64, COMMA, out, at);
    let col_at = put_field(values.row as u64, COMMA, out, row_at);
    let area_at = put_field(values.col as u64, COMMA, out, col_at);
    let label_at = put_field(values.area as u64, COMMA, out, area_at);
    put_label(values.label, LINE_FEED, out, label_at)
}

// Writes the lines of all inside cells.
fn put_lines(sheet: LabelledSheet, out: &mut [u8], at: usize) -> usize
    requires { CanBeListed sheet × (at + length (lines_of sheet) ≤ length out.old) }
    ensures { Put out.old out.new at result (lines_of sheet.entry) }
{
    let n = sheet.rows * sheet.cols;
    let mut next = at;
    for cell in 0..n {
        let code = sheet.dirs[cell];
        if code == 0 {
            continue;
        }
        next = put_cell(sheet.values_at(cell), out, next);
    }
    next
}

// Check 1 of the sizes, then 3 of the slices that are lent for a text about a sheet's cells.
#[tactic(auto, unfolding(crate::specs::Writing::listing_fault, sheet::specs::Record::label_places))]
pub fn listing_fault(sheet: LabelledSheet) -> Result<(), Refusal>
    ensures { result ≡ outcome_of_fault (listing_fault (grid_of sheet.entry)
        sheet.entry.areas.now sheet.entry.labels.now sheet.entry.basins.now) }
{
    if !sizes_fit(sheet.rows, sheet.cols) {
        return Err(checks::numbered(1));
    }
    let n = sheet.rows * sheet.cols;
    if sheet.dirs.len() < n
        || sheet.areas.len() < n
        || label_count(sheet.labels) < n
        || sheet.basins.len() < n
    {
        return Err(checks::numbered(3));
    }
    Ok(())
}

// Writes the listing to the start of a buffer.
pub fn write_listing(sheet: LabelledSheet, out: &mut [u8]) -> Result<usize, Refusal>
    ensures listing { record { answer = result; buffer = out.new }
        ≡ listing_into (grid_of sheet.entry) sheet.entry.areas.now
        sheet.entry.labels.now sheet.entry.basins.now out.old }
    ensures values { listing_values result
        ≡ listing_values (listing_into (grid_of sheet.entry)
        sheet.entry.areas.now sheet.entry.labels.now sheet.entry.basins.now out.old).answer }
{
    listing_fault(sheet)?;
    let heading = b"basin,row,col,area,label\n";
    let length = heading.len() + lines_length(sheet);
    if out.len() < length {
        return Err(checks::numbered(3));
    }
    let at = put_text(heading, out, 0);
    Ok(put_lines(sheet, out, at))
}

// Writes the two lines after a refusal to the start of a buffer.
pub fn write_refusal(number: u8, place: usize, out: &mut [u8]) -> Result<usize, Refusal>
    ensures refusal { record { answer = result; buffer = out.new }
        ≡ refusal_into number place out.old }
    ensures values { listing_values result ≡ listing_values (refusal_into number place out.old).answer }
{
    let heading = b"refused,place\n";
    let number_digits = decimal_length(number as u64);
    let place_digits = decimal_length(place as u64);
    if out.len() < heading.len() + number_digits + place_digits + 2 {
        return Err(checks::numbered(3));
    }
    let number_at = put_text(heading, out, 0);
    let place_at = put_field(number as u64, COMMA, out, number_at);
    Ok(put_field(place as u64, LINE_FEED, out, place_at))
}
