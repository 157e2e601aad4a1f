//! Lists of calls on a core and within its transactions: the calls as values, how they are served in order, and what holds of each
//! such list. And engines one after another on one disk: lives, each of which may be cut off at any moment, dropped, closed or refused.
#![tactic(auto)]

mod acts;
mod call;
mod ends;
mod laws;
mod life_laws;
mod lookup;
mod named;
mod serving;

pub use call::{Kind, TxCall, Within};
pub use fjall_core::{
    BatchItem, Call, Config, Core, Engine, JobId, KeyRange, Op, PersistMode, Reply, Ticket, View,
    pairs_reply, reply_of, value_reply,
};
pub use laws::{
    the_single_writer_reads_the_present, transactions_hear_those_before,
    transactions_stand_in_the_history,
};
pub use life_laws::{
    a_closed_core_opens_again, a_core_holds_amid, a_crash_amid_holds, a_last_sync, a_life_holds,
    a_run_blames_the_device, a_wild_crash_amid_holds, crash_holds, crash_stays_tidy,
    each_step_is_tidy, holds_store_amid, holds_through_crash, lives_blame_the_device, lives_hold,
    lives_open, lives_stay_tidy, new_disk_holds, new_disk_tidy, no_calls_run, runs_go_on,
};
pub use named::Named;
pub use serving::run;

// What lists of calls are made of, so that who runs them lists this crate alone.
