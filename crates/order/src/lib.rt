// The order of the cells along rivers: preorder, the donors of each cell from lightest to heaviest.
#![tactic(auto)]

mod donors;
pub mod positions;
