//! Threads that work beside an engine: the messages that tell them what is to be done, the list in which these wait, which
//! keyspaces wait for a flush, and a pool of workers that take the messages one by one.
#![tactic(auto)]

mod bench;
mod flush_manager;
mod gate;
mod message;
mod moves;
mod pool;
mod queue;
mod waiting;
mod worker;

pub use bench::{Bench, run_job, serve, work};
pub use flush_manager::FlushManager;
pub use gate::{Gate, OpenGate};
pub use message::WorkerMessage;
pub use moves::Moves;
pub use pool::{WorkerPool, claim_and_spawn};
pub use queue::WorkerQueue;
pub use waiting::{MOST_MESSAGES, WaitingMessages};
