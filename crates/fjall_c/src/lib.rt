//! A database for callers in C and in what calls as C does, over files that the caller keeps: `fjall.h` has its calls.
#![tactic(auto)]

mod answers;
mod calls;
mod files;
mod handle;
mod keyspaces;
mod lending;
mod mirror;
mod pack;
mod ranges;
mod reads;
mod session;
mod snapshots;
mod transactions;
mod writes;

pub use handle::Database;
