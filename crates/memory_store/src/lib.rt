// A store in memory that is handed over and can be taken back.
#![tactic(auto)]

mod layout;
pub mod memory;

pub use memory::MemoryStore;
