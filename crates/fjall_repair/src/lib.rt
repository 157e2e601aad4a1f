//! A database folder begun or mended, and swept of what nothing names. Each part plans first, with all its memory, and then changes
//! the disk; no crash meanwhile leaves another store.
#![tactic(auto)]

mod beginning;
mod mending;
mod plan;
mod sweeping;

pub use beginning::{BeginPlan, FileState, begin, plan_beginning};
pub use mending::{FileEnd, MendPlan, active_id, carry_out, plan_of};
pub use plan::{SweepPlan, plan_sweep};
pub use sweeping::sweep;
