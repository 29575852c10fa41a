// Value lines: a value for each column, parted by commas.
ghost use Rattle.std.specs.Prelude.{◌≡◌};
ghost use Rattle.lines.specs.Fields.{fields};
ghost use Rattle.lines.specs.Values.{field_value, with_value, no_values, values_from, values_line, line_values};
ghost use Rattle.lines.specs.Values.{value_or, value_of};

use super::columns::{Column, Columns, column_at, column_count, column_digits};

// The values of a line, by the places of its columns; 0 where there are fewer.
#[derive(Clone, Copy)]
pub struct Values {
    pub places: [u32; super::MOST_COLUMNS],
}

// A field that is a value of at most so many digits and nothing else.
fn field_value(field: &[u8], most: u8) -> Option<(u32, usize)>
    ensures { result ≡ field_value most field.now }
{
    let (value, end) = decimal::read_value(field, 0, most)?;
    if end == field.len() {
        Some((value, end))
    } else {
        None
    }
}

// Sets the value at a place, from 0; a place past the last changes nothing. It is set where it stands: `with_place` hands
// back a copy of all, which costs as much as the rest of a field.
#[tactic(auto, unfolding(crate::specs::Values::with_value))]
fn set_value(values: &mut Values, place: usize, value: u32)
    ensures { values.new ≡ with_value values.old place value }
{
    if place < values.places.len() {
        values.places[place] = value;
    }
}

// The values in the fields of a line, if there is one for each column that is named.
fn values_in(line: &[u8], columns: Columns) -> Option<Values>
    ensures { result ≡ values_from columns 0 (fields line.now) no_values }
{
    let count = column_count(columns);
    let mut values = Values {
        places: [0; super::MOST_COLUMNS],
    };
    let mut place = 0;
    for field in line.split(|b| *b == decimal::COMMA) {
        let most = column_digits(column_at(columns, place));
        let (value, _) = field_value(field, most)?;
        set_value(&mut values, place, value);
        place += 1;
    }
    if place == count { Some(values) } else { None }
}

// A line of one value for each column that is named.
pub fn read_values(line: &[u8], columns: Columns) -> Option<Values>
    ensures line { result ≡ values_line columns line.now }
    ensures values { line_values result ≡ line_values (values_line columns line.now) }
{
    if super::LINE_BYTES < line.len() {
        return None;
    }
    values_in(line, columns)
}

// The value in a column: in the first of that name, and `absent` where there is none.
pub fn value_or(columns: Columns, values: Values, column: Option<Column>, absent: u32) -> u32
    ensures { result ≡ value_or columns values column absent }
{
    match columns.places.iter().position(|named| *named == column) {
        Some(place) => values.places[place],
        None => absent,
    }
}

// The value in a column: in the first of that name, and 0 where there is none.
pub fn value_of(columns: Columns, values: Values, column: Option<Column>) -> u32
    ensures { result ≡ value_of columns values column }
{
    value_or(columns, values, column, 0)
}
