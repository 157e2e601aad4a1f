//! A database opened: its folder is read whole, begun or mended, and swept; and what its journals hold beyond its tables is replayed
//! into memory.
#![tactic(auto)]

mod laws;
mod mending;
mod numbers;
mod opened;
mod opening;
mod ready;
mod repair;
mod replaying;
mod sizes;

pub use laws::{settled_folders_come_back, settled_folders_come_back_unfinished};
pub use mending::{mend, plan_mending};
pub use opened::Opened;
pub use opening::open_folder;
