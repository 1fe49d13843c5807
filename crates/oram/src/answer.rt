// What a call gives back.
use shape::refusal::Refusal;

// Accepted: the next turn, and how many entries the trace has.
pub struct Done<T> {
    pub turn: T,
    pub entries: u32,
}

// Declined: nothing has changed, and the turn comes back.
pub struct Declined<T> {
    pub turn: T,
    pub refusal: Refusal,
}
