// The client: it keeps blocks on a store that belongs to somebody else.
#![tactic(auto)]

pub mod answer;
pub mod client;
pub mod load;
pub mod open;
pub mod record;
mod round;
pub mod turn;
