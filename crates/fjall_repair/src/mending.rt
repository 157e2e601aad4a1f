//! A folder mended after a crash: first all that is to be done is found out, and then it is done, and no crash meanwhile
//! leaves another store.

mod plan;
mod steps;

pub use plan::{FileEnd, MendPlan, active_id, plan_of};
pub use steps::carry_out;
