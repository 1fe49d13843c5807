// The block function of ChaCha20 (RFC 8439), and the guard that wipes its working words.
#![tactic(auto)]

pub mod block;
#[cfg(test)]
mod examples;
pub mod guard;
pub mod key;
mod rounds;
pub mod vectors;
