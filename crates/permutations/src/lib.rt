// Permutations, and what a host can learn from being asked for their slots: laws of lists and numbers, with no code beside them.
#![tactic(auto)]

pub mod correspondence;
pub mod positions;
