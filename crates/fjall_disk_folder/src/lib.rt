//! A disk over a real folder of the file system.
#![tactic(auto)]

mod disk;
mod faults;
mod folder;
mod kept;
mod lock;
mod names;
mod paths;
mod reader;

pub use disk::FolderDisk;
pub use lock::LockedFileGuard;
pub use names::{is_usable, stays_within};
pub use reader::FolderReader;
