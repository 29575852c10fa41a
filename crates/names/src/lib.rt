// Names lines: the expected names in any order, each exactly once, parted by commas.
#![tactic(auto)]

ghost use Rattle.std.specs.Prelude.{◌≡◌};
ghost use Rattle.lines.specs.Fields.{fields};
ghost use Rattle.names.specs.Columns.{column_named, no_columns, count_column, as_often};
ghost use Rattle.names.specs.Columns.{same_columns, size_columns_with, weight_columns, cell_columns};
ghost use Rattle.names.specs.Names.{names_from, names_line, size_names_line, names_values};

use lines::columns::{Column, Columns, with_place};

// The column that a field names; None if it names none.
#[tactic(auto, unfolding(crate::specs::Columns::column_named, crate::specs::Columns::column_if, lines::specs::Fields::same_bytes))]
fn column_named(field: &[u8]) -> Option<Column>
    ensures { result ≡ column_named field.now }
{
    if field == b"rows".as_slice() {
        return Some(Column::Rows);
    }
    if field == b"cols".as_slice() {
        return Some(Column::Cols);
    }
    if field == b"depth".as_slice() {
        return Some(Column::Depth);
    }
    if field == b"least".as_slice() {
        return Some(Column::Least);
    }
    if field == b"split".as_slice() {
        return Some(Column::Split);
    }
    if field == b"row".as_slice() {
        return Some(Column::Row);
    }
    if field == b"col".as_slice() {
        return Some(Column::Col);
    }
    if field == b"dir".as_slice() {
        return Some(Column::Dir);
    }
    if field == b"weight".as_slice() {
        return Some(Column::Weight);
    }
    None
}

// How often a column stands among columns; how many places are left, where it is None.
fn count_column(columns: Columns, column: Option<Column>) -> usize
    ensures { result ≡ count_column columns column }
{
    columns
        .places
        .iter()
        .filter(|named| **named == column)
        .count()
}

// A column stands among columns as often as it is expected.
#[tactic(auto, unfolding(crate::specs::Columns::as_often))]
fn as_often(expected: Columns, columns: Columns, column: Option<Column>) -> bool
    ensures { result ≡ as_often expected columns column }
{
    count_column(columns, column) == count_column(expected, column)
}

// The columns are the expected ones, in any order.
fn same_columns(expected: Columns, columns: Columns) -> bool
    ensures { result ≡ same_columns expected columns }
{
    expected
        .places
        .iter()
        .all(|column| as_often(expected, columns, *column))
}

// The columns that the fields of a line name, if each names one and there is a place for each.
fn columns_in(line: &[u8]) -> Option<Columns>
    ensures { result ≡ names_from 0 (fields line.now) no_columns }
{
    let mut columns = Columns {
        places: [None; lines::MOST_COLUMNS],
    };
    let mut place = 0;
    for field in line.split(|b| *b == decimal::COMMA) {
        let column = column_named(field)?;
        columns.places = with_place(columns.places, place, Some(column));
        place += 1;
    }
    if place <= lines::MOST_COLUMNS {
        Some(columns)
    } else {
        None
    }
}

// The expected columns in any order, each as often as it is expected, and nothing else.
fn read_names(line: &[u8], expected: Columns) -> Option<Columns>
    ensures { result ≡ names_line expected line.now }
{
    if lines::LINE_BYTES < line.len() {
        return None;
    }
    let columns = columns_in(line)?;
    if same_columns(expected, columns) {
        Some(columns)
    } else {
        None
    }
}

// Rows, cols and depth, with two more columns.
fn size_columns(fourth: Option<Column>, fifth: Option<Column>) -> Columns
    ensures { result ≡ size_columns_with fourth fifth }
{
    Columns {
        places: [
            Some(Column::Rows),
            Some(Column::Cols),
            Some(Column::Depth),
            fourth,
            fifth,
        ],
    }
}

// The column of the weights, alone.
pub fn weight_columns() -> Columns
    ensures { result ≡ weight_columns }
{
    Columns {
        places: [Some(Column::Weight), None, None, None, None],
    }
}

// The columns of a cell: row, col and dir.
fn cell_columns() -> Columns
    ensures { result ≡ cell_columns }
{
    Columns {
        places: [
            Some(Column::Row),
            Some(Column::Col),
            Some(Column::Dir),
            None,
            None,
        ],
    }
}

// The names of the sizes: rows, cols and depth, and least and split, both or neither.
pub fn read_size_names(line: &[u8]) -> Option<Columns>
    ensures line { result ≡ size_names_line line.now }
    ensures values { names_values result ≡ names_values (size_names_line line.now) }
{
    if let Some(columns) = read_names(line, size_columns(None, None)) {
        return Some(columns);
    }
    read_names(line, size_columns(Some(Column::Least), Some(Column::Split)))
}

// The name of the weights, alone.
pub fn read_weight_names(line: &[u8]) -> Option<Columns>
    ensures line { result ≡ names_line weight_columns line.now }
    ensures values { names_values result ≡ names_values (names_line weight_columns line.now) }
{
    read_names(line, weight_columns())
}

// The names of a cell: row, col and dir.
pub fn read_cell_names(line: &[u8]) -> Option<Columns>
    ensures line { result ≡ names_line cell_columns line.now }
    ensures values { names_values result ≡ names_values (names_line cell_columns line.now) }
{
    read_names(line, cell_columns())
}
