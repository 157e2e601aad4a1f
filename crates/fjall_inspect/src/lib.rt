//! A database folder looked at without a change: whether it is right down to the blocks of its tables, and what is wrong where.
#![tactic(auto)]

mod checking;
mod journals;
mod laws;
mod mending;
mod places;
mod report;
mod surveying;
mod tables;

pub use checking::check;
pub use laws::sound_folders_pass;
pub use report::{Cut, Fault, Report};
pub use surveying::{KeyspaceSurvey, TableCounts, survey};
