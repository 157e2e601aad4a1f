//! Calls that read a database, at its present or at a snapshot.

ghost use Rattle.std.specs.Prelude.{◌≡◌};
ghost use Rattle.fjall_c.specs.Answers.{Answers, AnswersRange, PutsFound, PutsPage, answer_of, range_at};
ghost use Rattle.fjall_c.specs.Calls.{Calls, Get, OfRead, Page as PageOf, Present, pairs_reply, seen_at, value_reply};
ghost use Rattle.fjall_c.specs.Live.{live_of};

use crate::answers::copy_to;
use crate::handle::Database;
use crate::pack::pack_pairs;
use crate::ranges::range_of;
use fjall_base::{KvPair, Result, UserValue};
use fjall_core::{Ticket, View};
use std::alloc::Global;

/// Whether a key has a value, and how many bytes it has.
#[repr(C)]
#[derive(Clone, Copy)]
pub struct Found {
    pub is_there: bool,
    pub len: usize,
}

/// How many pairs a page has, and how many bytes they take where they are packed.
#[repr(C)]
#[derive(Clone, Copy)]
pub struct Page {
    pub count: usize,
    pub len: usize,
}

/// Puts a value that was found at the beginning of a room that is as long, and whether there is one, and its length, beside it.
pub(crate) fn put_found(read: Result<Option<UserValue>>, room: &mut [u8], found: &mut Found) -> i32
    ensures number { result ≡ answer_of read }
    ensures puts { PutsFound found.old found.new room.old room.new read }
{
    match read {
        Ok(Some(value)) => {
            copy_to(room, &value);
            found.is_there = true;
            found.len = value.len();
            0
        }
        Ok(None) => {
            found.is_there = false;
            found.len = 0;
            0
        }
        Err(error) => i32::from(error.number()),
    }
}

/// Packs pairs at the beginning of a room, as many as it has place for, and puts how many there are beside it.
pub(crate) fn put_page(read: Result<Vec<KvPair>>, room: &mut [u8], page: &mut Page) -> i32
    ensures number { result ≡ answer_of read }
    ensures puts { PutsPage page.old page.new room.old room.new read }
{
    match read {
        Ok(pairs) => {
            *page = pack_pairs(&pairs, room);
            0
        }
        Err(error) => i32::from(error.number()),
    }
}

/// The value that a key of a keyspace has now, at the beginning of `room`, where that is as long; of a longer one nothing is copied.
/// Whether there is one, and its length, are put into `found`. Both stay as they were where the call is refused.
#[unsafe(no_mangle)]
pub extern "C" fn fjall_c_get(
    database: &mut Database,
    keyspace: u64,
    key: &[u8],
    room: &mut [u8],
    found: &mut Found,
) -> i32
    ensures answers { Answers result (λ value. Calls (OfRead Present keyspace (Get key.now)) value_reply (live_of database.old.session) (live_of database.new.session) value
        × PutsFound found.old found.new room.old room.new value) }
    ensures batch { database.new.session.batch ≡ database.old.session.batch }
{
    let read = database.session_mut().get(View::Present, keyspace, key);
    put_found(read, room, found)
}

/// The same of the value that the key had when a snapshot was opened.
#[unsafe(no_mangle)]
pub extern "C" fn fjall_c_get_at(
    database: &mut Database,
    snapshot: u64,
    keyspace: u64,
    key: &[u8],
    room: &mut [u8],
    found: &mut Found,
) -> i32
    ensures answers { Answers result (λ value. Calls (OfRead (seen_at snapshot) keyspace (Get key.now)) value_reply (live_of database.old.session) (live_of database.new.session) value
        × PutsFound found.old found.new room.old room.new value) }
    ensures batch { database.new.session.batch ≡ database.old.session.batch }
{
    let read = database
        .session_mut()
        .get(snapshot_view(snapshot), keyspace, key);
    put_found(read, room, found)
}

/// The pairs of a keyspace between two bounds, from the first on, or from the last on where `back`: at most `max`, in the order of
/// their keys, packed at the beginning of `room`, as many as it has room for. A pair is the length of its key and that of its value, of
/// eight bytes each, the low one first, and then both. How many there are is put into `page`, which stays as it was where the call is
/// refused.
#[unsafe(no_mangle)]
pub extern "C" fn fjall_c_page(
    alloc: Global,
    database: &mut Database,
    keyspace: u64,
    start_bound: u8,
    start: &[u8],
    end_bound: u8,
    end: &[u8],
    back: bool,
    max: usize,
    room: &mut [u8],
    page: &mut Page,
) -> i32
    ensures answers { AnswersRange (range_at start_bound start.now end_bound end.now) result
        ((live_of database.new.session ≡ live_of database.old.session) × (page.new ≡ page.old) × (room.new ≡ room.old))
        (λ range pairs. Calls (OfRead Present keyspace (PageOf range back max)) pairs_reply (live_of database.old.session) (live_of database.new.session) pairs
        × PutsPage page.old page.new room.old room.new pairs) }
    ensures batch { database.new.session.batch ≡ database.old.session.batch }
{
    match range_of(alloc, start_bound, start, end_bound, end) {
        Ok(range) => {
            let read = database
                .session_mut()
                .page(View::Present, keyspace, &range, back, max);
            put_page(read, room, page)
        }
        Err(error) => i32::from(error.number()),
    }
}

/// The same of the pairs that the keyspace had when a snapshot was opened.
#[unsafe(no_mangle)]
pub extern "C" fn fjall_c_page_at(
    alloc: Global,
    database: &mut Database,
    snapshot: u64,
    keyspace: u64,
    start_bound: u8,
    start: &[u8],
    end_bound: u8,
    end: &[u8],
    back: bool,
    max: usize,
    room: &mut [u8],
    page: &mut Page,
) -> i32
    ensures answers { AnswersRange (range_at start_bound start.now end_bound end.now) result
        ((live_of database.new.session ≡ live_of database.old.session) × (page.new ≡ page.old) × (room.new ≡ room.old))
        (λ range pairs. Calls (OfRead (seen_at snapshot) keyspace (PageOf range back max)) pairs_reply (live_of database.old.session) (live_of database.new.session) pairs
        × PutsPage page.old page.new room.old room.new pairs) }
    ensures batch { database.new.session.batch ≡ database.old.session.batch }
{
    match range_of(alloc, start_bound, start, end_bound, end) {
        Ok(range) => {
            let view = snapshot_view(snapshot);
            let read = database
                .session_mut()
                .page(view, keyspace, &range, back, max);
            put_page(read, room, page)
        }
        Err(error) => i32::from(error.number()),
    }
}

// What the snapshot of this id shows, by which alone it counts.
fn snapshot_view(id: u64) -> View
    ensures { result ≡ seen_at id }
{
    View::At(Ticket { id, instant: 0 })
}
