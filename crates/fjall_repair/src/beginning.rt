//! A database's making: it is begun in an empty folder, or gone on with where a crash cut it short, and no crash
//! meanwhile leaves anything but a database without keyspaces.

mod file;
mod journals;
mod making;
mod marker;
mod plan;
mod tree;

pub use making::begin;
pub use plan::{BeginPlan, FileState, plan_beginning};
