// Rivers: the labelling of units and rivers over a layout.
#![tactic(auto)]

pub mod heaviest;
pub mod keys;
pub mod prefix;
pub mod units;
