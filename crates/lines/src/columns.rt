// Columns, the columns of a line, and the most digits of a value in a column.
ghost use Rattle.std.specs.Prelude.{◌≡◌, set};
ghost use Rattle.lines.specs.Columns.{column_at, column_digits, column_count};

// A column, by its name in the file.
#[derive(Clone, Copy, PartialEq, Eq)]
pub enum Column {
    Rows,
    Cols,
    Depth,
    Least,
    Split,
    Row,
    Col,
    Dir,
    Weight,
}

// The columns of a line, by their places; None where there are fewer.
#[derive(Clone, Copy)]
pub struct Columns {
    pub places: [Option<Column>; super::MOST_COLUMNS],
}

// A line's places with one of them set, from 0; as they are past the last.
pub fn with_place<T: Copy>(
    places: [T; super::MOST_COLUMNS],
    place: usize,
    item: T,
) -> [T; super::MOST_COLUMNS]
    ensures { result ≡ set places place item }
{
    let mut set = places;
    if place < set.len() {
        set[place] = item;
    }
    set
}

// The column at a place from 0; None past the last.
#[tactic(auto, unfolding(crate::specs::Columns::column_at))]
pub fn column_at(columns: Columns, place: usize) -> Option<Column>
    ensures { result ≡ column_at columns place }
{
    *columns.places.get(place)?
}

// The most digits of a value in a column.
pub fn column_digits(column: Option<Column>) -> u8
    ensures { result ≡ column_digits column }
{
    if column == Some(Column::Least) {
        super::LEAST_DIGITS
    } else {
        super::VALUE_DIGITS
    }
}

// How many columns are named.
#[tactic(auto, unfolding(crate::specs::Columns::column_count))]
pub fn column_count(columns: Columns) -> usize
    ensures { result ≡ column_count columns }
{
    columns
        .places
        .iter()
        .filter(|column| column.is_some())
        .count()
}
