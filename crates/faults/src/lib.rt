// What refuses the sizes, the row of a weight and the cells that a file lists.
#![tactic(auto)]

pub mod cell_faults;
pub mod size_faults;

// The sizes of a sheet, as the file lists them.
#[derive(Clone, Copy)]
pub struct Sizes {
    pub rows: usize,
    pub cols: usize,
    pub depth: usize,
    pub least: usize,
    pub split: usize,
}

// What a cell line lists.
#[derive(Clone, Copy)]
pub struct Cell {
    pub row: usize,
    pub col: usize,
    pub dir: u32,
}
