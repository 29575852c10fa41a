// Lines of the file: their columns, their fields, which are parted by commas, and value lines.
#![tactic(auto)]

pub mod columns;
pub mod values;

// A line has at most 80 bytes before its line feed.
pub const LINE_BYTES: usize = 80;

// The most columns of a line.
pub const MOST_COLUMNS: usize = 5;

// The most digits of a value, in every column but `least`.
pub const VALUE_DIGITS: u8 = 5;

// The most digits of a value of `least`.
pub const LEAST_DIGITS: u8 = 8;
