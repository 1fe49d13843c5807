// What a store is to the client: places that hold slots, asked in rounds.
#![tactic(auto)]

pub mod admit;
pub mod entry;
pub mod meter;
pub mod store;
