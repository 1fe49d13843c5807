// The keyed supply: permutations that only the holder of a key can follow.
#![tactic(auto)]

pub mod keyed;
pub mod law;
mod rounds;
