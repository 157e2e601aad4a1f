//! A disk in memory, for tests and for programs that keep nothing: it crashes and fails where it is told to.
#![tactic(auto)]

mod failing;
mod files;
mod history;
mod memory;
mod node;

pub use memory::MemoryDisk;
