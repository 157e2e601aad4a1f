//! What callers may rely on, over lives of engines one after another on one disk: told by what they see alone, calls, replies and stores.
#![tactic(auto)]

mod laws;
mod life;
mod living;
mod outages;
mod power;

pub use laws::optimistic_transactions_act_in_order;
pub use life::{Life, Told};
pub use living::live;
pub use outages::{Outages, Turn};
pub use power::Power;
