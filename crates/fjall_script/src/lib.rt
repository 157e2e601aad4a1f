//! Sessions: the commands of a script run over the engine in memory or in a folder, and each line is answered.
#![tactic(auto)]

mod answer;
mod calls;
mod laws;
mod output;
mod place;
mod program;
mod session;

pub use fjall_calls::{Config, Engine};
pub use fjall_journal::RecoveryMode;
pub use fjall_lines::Command;
pub use laws::only_wild_crashes_forge;
pub use place::{Folder, Memory, Place};
pub use program::{Status, fail, run, run_folder, run_memory, run_over, usage};
