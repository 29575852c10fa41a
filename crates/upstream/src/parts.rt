// The parts of the work places of a sheet of n cells, each of n places: specs/Work.antt says what they hold. Part 0 is
// the queue.
pub const RANKS: usize = 1;

pub const RECEIVERS: usize = 2;

pub const SIZES: usize = 3;

pub const POSITIONS: usize = 4;

pub const CELLS: usize = 5;

pub const ORDERED_SIZES: usize = 6;
