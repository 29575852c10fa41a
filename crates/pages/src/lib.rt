// Pages of a sheet's atlas, as text in a lent buffer.
#![tactic(auto)]

ghost use Rattle.std.specs.Prelude.{◌≡◌, true, ◌+◌, ◌-◌, ◌*◌, ◌<◌, ◌≤◌, length};
ghost use Rattle.decimal.specs.Ascii.{line_feed};
ghost use Rattle.decimal.specs.Text.{decimal_text, overwrite};
ghost use Rattle.listing.specs.Listing.{field};
ghost use Rattle.listing.specs.Labelled.{CanBeListed, grid_of};
ghost use Rattle.listing.specs.Steps.{Put};
ghost use Rattle.pages.specs.Line.{texts_fit, line_columns, names, texts_of, page_line};
ghost use Rattle.pages.specs.Page.{inside_cells, page_cells, cell_lines, atlas_line};
ghost use Rattle.listing.specs.Writing.{listing_values};
ghost use Rattle.pages.specs.Writing.{page_fits, page_into};

use decimal::{BLANK, LINE_FEED, decimal_length};
use listing::{
    CellValues, LabelledSheet, label_length, listing_fault, put_label, put_text, put_value,
};
use sheet::Refusal;

// The cells of a page, at most.
const PAGE_SIZE: usize = 59;

// The bytes of a line: 72 columns and a line feed.
const PAGE_LINE_BYTES: usize = 73;

// Sets a number into a line, to the right in a field that ends before the column `end`.
fn set_right(value: u64, line: &mut [u8], end: usize)
    requires { (length (decimal_text value) ≤ end) × (end ≤ length line.old) }
    ensures { line.new
        ≡ overwrite line.old (end - length (decimal_text value)) (decimal_text value) }
{
    let digits = decimal_length(value);
    put_value(value, line, end - digits);
}

// The line of a cell, without its line feed.
fn cell_line(values: CellValues) -> [u8; 72]
    requires { texts_fit (texts_of values) ≡ true }
    ensures { result ≡ line_columns (texts_of values) }
{
    let mut line = [32u8; 72];
    set_right(values.basin as u64, &mut line, 5);
    set_right(values.row as u64, &mut line, 10);
    set_right(values.col as u64, &mut line, 15);
    set_right(values.area as u64, &mut line, 25);
    // the byte after the label is one of the blanks to the end
    put_label(values.label, BLANK, &mut line, 26);
    line
}

// The line of the column names, without its line feed.
fn names_line() -> [u8; 72]
    ensures { result ≡ line_columns names }
{
    let mut line = [32u8; 72];
    put_text(b"basin", &mut line, 0);
    put_text(b"row", &mut line, 7);
    put_text(b"col", &mut line, 12);
    put_text(b"area", &mut line, 21);
    put_text(b"label", &mut line, 26);
    line
}

// Writes a line and its line feed.
fn put_line(line: &[u8], out: &mut [u8], at: usize) -> usize
    requires { at + length line.now < length out.old }
    ensures { Put out.old out.new at result (field line.now line_feed) }
{
    let end = put_text(line, out, at);
    out[end] = LINE_FEED;
    end + 1
}

// Whether the values of a cell fit their fields.
#[tactic(auto, unfolding(crate::specs::Line::texts_fit, crate::specs::Line::value_texts))]
fn values_fit(values: CellValues) -> bool
    ensures { result ≡ texts_fit (texts_of values) }
{
    decimal_length(values.basin as u64) <= 5
        && decimal_length(values.row as u64) <= 4
        && decimal_length(values.col as u64) <= 4
        && decimal_length(values.area as u64) <= 9
        && label_length(values.label) <= 36
}

// How many cells stand on a page. This loop and the two below count the inside cells by hand: a chain of filter, skip and
// take is no plainer, since it would skip (page - 1) * PAGE_SIZE cells, which page 0 and a large page overflow.
fn count_on_page(sheet: LabelledSheet, page: usize) -> usize
    requires { CanBeListed sheet }
    ensures { result ≡ length (page_cells page (inside_cells (grid_of sheet.entry))) }
{
    let n = sheet.rows * sheet.cols;
    let mut seen = 0;
    let mut count = 0;
    for cell in 0..n {
        if sheet.dirs[cell] == 0 {
            continue;
        }
        if seen / PAGE_SIZE + 1 == page {
            count += 1;
        }
        seen += 1;
    }
    count
}

// Whether the values of all cells of a page fit their fields.
fn page_fits(sheet: LabelledSheet, page: usize) -> bool
    requires { CanBeListed sheet }
    ensures { result ≡ page_fits (grid_of sheet.entry) sheet.entry.areas.now sheet.entry.labels.now
        sheet.entry.basins.now page }
{
    let n = sheet.rows * sheet.cols;
    let mut seen = 0;
    for cell in 0..n {
        if sheet.dirs[cell] == 0 {
            continue;
        }
        if seen / PAGE_SIZE + 1 == page {
            if !values_fit(sheet.values_at(cell)) {
                return false;
            }
        }
        seen += 1;
    }
    true
}

// Writes the line of a cell.
fn put_cell(values: CellValues, out: &mut [u8], at: usize) -> usize
    requires { (texts_fit (texts_of values) ≡ true) × (at + 73 ≤ length out.old) }
    ensures { Put out.old out.new at result (page_line (texts_of values)) }
{
    let line = cell_line(values);
    put_line(&line, out, at)
}

// Writes the lines of the cells of a page.
fn put_cells(sheet: LabelledSheet, page: usize, out: &mut [u8], at: usize) -> usize
    requires { CanBeListed sheet
        × (page_fits (grid_of sheet) sheet.areas.now sheet.labels.now sheet.basins.now page ≡ true)
        × (at + 73 * length (page_cells page (inside_cells (grid_of sheet))) ≤ length out.old) }
    ensures { Put out.old out.new at result
        (cell_lines (atlas_line (grid_of sheet.entry) sheet.entry.areas.now sheet.entry.labels.now
        sheet.entry.basins.now) (page_cells page (inside_cells (grid_of sheet.entry)))) }
{
    let n = sheet.rows * sheet.cols;
    let mut seen = 0;
    let mut next = at;
    for cell in 0..n {
        let code = sheet.dirs[cell];
        if code == 0 {
            continue;
        }
        if seen / PAGE_SIZE + 1 == page {
            next = put_cell(sheet.values_at(cell), out, next);
        }
        seen += 1;
    }
    next
}

// Writes a page of a sheet's atlas to the start of a buffer. Pages are numbered from 1; no byte is written where there
// is no such page.
pub fn write_page(sheet: LabelledSheet, page: usize, out: &mut [u8]) -> Result<usize, Refusal>
    ensures page { record { answer = result; buffer = out.new }
        ≡ page_into (grid_of sheet.entry) sheet.entry.areas.now sheet.entry.labels.now
        sheet.entry.basins.now page out.old }
    ensures values { listing_values result
        ≡ listing_values (page_into (grid_of sheet.entry) sheet.entry.areas.now
        sheet.entry.labels.now sheet.entry.basins.now page out.old).answer }
{
    listing_fault(sheet)?;
    if !page_fits(sheet, page) {
        return Err(checks::numbered(3));
    }
    let count = count_on_page(sheet, page);
    if count == 0 {
        return Ok(0);
    }
    if out.len() < PAGE_LINE_BYTES * (count + 1) {
        return Err(checks::numbered(3));
    }
    let names = names_line();
    let at = put_line(&names, out, 0);
    Ok(put_cells(sheet, page, out, at))
}
