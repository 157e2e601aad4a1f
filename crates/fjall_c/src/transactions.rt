//! Calls of optimistic transactions.

ghost use Rattle.std.specs.Prelude.{◌≡◌};
ghost use Rattle.fjall_journal.specs.declared.op.Op.TheVariants as ops;
ghost use Rattle.fjall_c.specs.Answers.{Answers, AnswersOutcome, AnswersRange, PutsFound, PutsId, PutsPage, range_at};
ghost use Rattle.fjall_c.specs.Live.{live_of};
ghost use Rattle.fjall_c.specs.Transactions.{Begins, Commits, Gets, Pages, RollsBack, WithinOne, Writes};

use crate::answers::{answer, answer_outcome, put_id};
use crate::handle::Database;
use crate::ranges::range_of;
use crate::reads::{Found, Page, put_found, put_page};
use std::alloc::Global;

/// Begins an optimistic transaction, which reads what the database has now, and puts its id into `transaction`.
#[unsafe(no_mangle)]
pub extern "C" fn fjall_c_begin(database: &mut Database, transaction: &mut u64) -> i32
    ensures answers { Answers result (λ begun. Begins (live_of database.old.session) (live_of database.new.session) begun
        × PutsId transaction.old transaction.new begun) }
    ensures batch { database.new.session.batch ≡ database.old.session.batch }
{
    let begun = database.session_mut().begin();
    put_id(begun, transaction)
}

/// Gives a key of a keyspace a value within a transaction.
#[unsafe(no_mangle)]
pub extern "C" fn fjall_c_tx_insert(
    database: &mut Database,
    transaction: u64,
    keyspace: u64,
    key: &[u8],
    value: &[u8],
) -> i32
    ensures answers { Answers result (λ done. WithinOne transaction (Writes keyspace key.now (ops.Put value.now) done) done (live_of database.old.session) (live_of database.new.session)) }
    ensures batch { database.new.session.batch ≡ database.old.session.batch }
{
    answer(
        database
            .session_mut()
            .insert_in(transaction, keyspace, key, value),
    )
}

/// Takes a key of a keyspace and its value away within a transaction.
#[unsafe(no_mangle)]
pub extern "C" fn fjall_c_tx_remove(
    database: &mut Database,
    transaction: u64,
    keyspace: u64,
    key: &[u8],
) -> i32
    ensures answers { Answers result (λ done. WithinOne transaction (Writes keyspace key.now ops.Remove done) done (live_of database.old.session) (live_of database.new.session)) }
    ensures batch { database.new.session.batch ≡ database.old.session.batch }
{
    answer(database.session_mut().remove_in(transaction, keyspace, key))
}

/// The value that a key of a keyspace has within a transaction, as `fjall_c_get` gives it. The key is marked as read.
#[unsafe(no_mangle)]
pub extern "C" fn fjall_c_tx_get(
    database: &mut Database,
    transaction: u64,
    keyspace: u64,
    key: &[u8],
    room: &mut [u8],
    found: &mut Found,
) -> i32
    ensures answers { Answers result (λ value. WithinOne transaction (Gets keyspace key.now value) value (live_of database.old.session) (live_of database.new.session)
        × PutsFound found.old found.new room.old room.new value) }
    ensures batch { database.new.session.batch ≡ database.old.session.batch }
{
    let read = database.session_mut().get_in(transaction, keyspace, key);
    put_found(read, room, found)
}

/// The pairs of a keyspace between two bounds within a transaction, as `fjall_c_page` gives them. The whole range is marked as read.
#[unsafe(no_mangle)]
pub extern "C" fn fjall_c_tx_page(
    alloc: Global,
    database: &mut Database,
    transaction: u64,
    keyspace: u64,
    start_bound: u8,
    start: &[u8],
    end_bound: u8,
    end: &[u8],
    back: bool,
    max: usize,
    room: &mut [u8],
    page: &mut Page,
) -> i32
    ensures answers { AnswersRange (range_at start_bound start.now end_bound end.now) result
        ((live_of database.new.session ≡ live_of database.old.session) × (page.new ≡ page.old) × (room.new ≡ room.old))
        (λ range pairs. WithinOne transaction (Pages keyspace range back max pairs) pairs (live_of database.old.session) (live_of database.new.session)
        × PutsPage page.old page.new room.old room.new pairs) }
    ensures batch { database.new.session.batch ≡ database.old.session.batch }
{
    match range_of(alloc, start_bound, start, end_bound, end) {
        Ok(range) => {
            let read = database
                .session_mut()
                .page_in(transaction, keyspace, &range, back, max);
            put_page(read, room, page)
        }
        Err(error) => i32::from(error.number()),
    }
}

/// Commits a transaction, which ends it, whatever it answers: 0 where all that it wrote is accepted as one command, -1 where it read
/// what another one wrote and committed since it began, and nothing of it is, or the number of a refusal.
#[unsafe(no_mangle)]
pub extern "C" fn fjall_c_commit(database: &mut Database, transaction: u64) -> i32
    ensures answers { AnswersOutcome result (λ outcome. Commits transaction outcome (live_of database.old.session) (live_of database.new.session)) }
    ensures batch { database.new.session.batch ≡ database.old.session.batch }
{
    answer_outcome(database.session_mut().commit(transaction))
}

/// Ends a transaction, and nothing of what it wrote is accepted.
#[unsafe(no_mangle)]
pub extern "C" fn fjall_c_rollback(database: &mut Database, transaction: u64) -> i32
    ensures answers { Answers result (λ done. RollsBack transaction done (live_of database.old.session) (live_of database.new.session)) }
    ensures batch { database.new.session.batch ≡ database.old.session.batch }
{
    answer(database.session_mut().rollback(transaction))
}
