// The laws over whole runs, of the rules as definitions. Each call does nothing: its contract is the law.
#![tactic(auto)]

pub mod correspondence;
pub mod latest;
pub mod refusals;
pub mod rounds;
pub mod stores;
pub mod teeth;
