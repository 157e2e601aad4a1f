//! What an engine holds in memory, and the changes of it: each is a step of the machine.
#![tactic(auto)]

mod engine_state;
mod evictions;
mod flushes;
mod ingestions;
mod journals;
mod memtables;
mod merges;
mod reads;
mod refusals;
mod tables;
mod writes;

pub use engine_state::EngineState;
pub use evictions::FlushedBy;
