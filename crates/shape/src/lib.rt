// The shape of the store and the refusals: numbers only, no state.
#![tactic(auto)]

pub mod dimensions;
pub mod level;
pub mod make_error;
pub mod numbers;
pub mod places;
pub mod refusal;
