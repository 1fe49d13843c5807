// Where the slots of each build come from: the interface, and the straight kind.
#![tactic(auto)]

pub mod straight;
pub mod supply;
pub mod within;
