//! Calls that open and close snapshots.

ghost use Rattle.std.specs.Prelude.{◌≡◌};
ghost use Rattle.fjall_c.specs.Answers.{Answers, PutsId};
ghost use Rattle.fjall_c.specs.Calls.{Calls, Close, OfTickets, Open, reply_of, ticket_reply};
ghost use Rattle.fjall_c.specs.Live.{live_of};

use crate::answers::{answer, put_id};
use crate::handle::Database;

/// Opens a snapshot, which shows what the database has now until it is closed, and puts its id into `snapshot`.
#[unsafe(no_mangle)]
pub extern "C" fn fjall_c_snapshot(database: &mut Database, snapshot: &mut u64) -> i32
    ensures answers { Answers result (λ opened. Calls (OfTickets Open) ticket_reply (live_of database.old.session) (live_of database.new.session) opened
        × PutsId snapshot.old snapshot.new opened) }
    ensures batch { database.new.session.batch ≡ database.old.session.batch }
{
    let opened = database.session_mut().snapshot();
    put_id(opened, snapshot)
}

/// Closes a snapshot.
#[unsafe(no_mangle)]
pub extern "C" fn fjall_c_snapshot_close(database: &mut Database, snapshot: u64) -> i32
    ensures answers { Answers result (Calls (OfTickets (Close snapshot)) reply_of (live_of database.old.session) (live_of database.new.session)) }
    ensures batch { database.new.session.batch ≡ database.old.session.batch }
{
    answer(database.session_mut().close_snapshot(snapshot))
}
