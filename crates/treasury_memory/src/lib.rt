//! A database in memory, for a run that leaves nothing.
#![tactic(auto)]

mod disk;
mod open;

pub use disk::MemoryDisk;
pub use open::{MemoryStore, clean_law, open_memory};
