// What refuses sizes, and the row whose weight comes next.
ghost use Rattle.std.specs.Prelude.{◌≡◌, true};
ghost use Rattle.sheet.specs.Refusal.{sizes_fit};
ghost use Rattle.sheet.specs.Answer.{outcome_of_fault};
ghost use Rattle.faults.specs.Faults.{sizes_in, lent_enough, sizes_fault, row_fault};

use super::Sizes;
use checks::sheet_fault;
use lines::columns::{Column, Columns};
use lines::values::{Values, value_of, value_or};
use sheet::Refusal;

// A direction byte for each cell and a weight for each row.
#[tactic(auto, unfolding(crate::specs::Faults::lent_enough))]
fn lent_enough(sizes: Sizes, dirs: usize, weights: usize) -> bool
    requires { sizes_fit sizes.rows sizes.cols ≡ true }
    ensures { result ≡ lent_enough sizes dirs weights }
{
    sizes.rows * sizes.cols <= dirs && sizes.rows <= weights
}

// The refusal of sizes by 1, 2, 19, 3, where so many direction bytes and so many weights are lent.
pub fn sizes_fault(sizes: Sizes, dirs: usize, weights: usize) -> Result<(), Refusal>
    ensures { result ≡ outcome_of_fault (sizes_fault sizes dirs weights) }
{
    sheet_fault(
        sizes.rows,
        sizes.cols,
        sizes.depth,
        sizes.least,
        sizes.split,
    )?;
    if !lent_enough(sizes, dirs, weights) {
        return Err(checks::numbered(3));
    }
    Ok(())
}

// The sizes that a line lists: least is 1 and split is 4 where they are not named.
pub fn sizes_in(columns: Columns, values: Values) -> Sizes
    ensures { result ≡ sizes_in columns values }
{
    Sizes {
        rows: value_of(columns, values, Some(Column::Rows)) as usize,
        cols: value_of(columns, values, Some(Column::Cols)) as usize,
        depth: value_of(columns, values, Some(Column::Depth)) as usize,
        least: value_or(columns, values, Some(Column::Least), 1) as usize,
        split: value_or(columns, values, Some(Column::Split), 4) as usize,
    }
}

// The refusal of a state that waits for the weight of a row: by its sizes, then by 9.
pub fn row_fault(sizes: Sizes, row: usize, dirs: usize, weights: usize) -> Result<(), Refusal>
    ensures { result ≡ outcome_of_fault (row_fault sizes row dirs weights) }
{
    sizes_fault(sizes, dirs, weights)?;
    if row >= sizes.rows {
        return Err(checks::numbered(9));
    }
    Ok(())
}
