//! Which calls each line makes.

use crate::items::{counted, items, name, options, pairs};
use crate::list::{List, Wording, Work};
use fjall_calls::{Call, KeyRange, Kind, Op, PersistMode, TxCall, View, Within};
use fjall_recorder::{LineError, Parsed, bytes, durability, mode, number, op, range, size, value};
use std::alloc::Global;
use std::ops::Bound;

const BAD_LINE: Parsed<Wording> = Err(LineError::BadLine);

// A number that a database tells of itself.
fn count(list: &mut List, what: &str) -> Parsed<Wording> {
    list.plain(match what {
        "keyspaces" => Call::KeyspaceCount,
        "seqno" => Call::Seqno,
        "visible" => Call::VisibleSeqno,
        "journals" => Call::JournalCount,
        "journal_space" => Call::JournalDiskSpace,
        "snapshots" => Call::OpenSnapshots,
        "write_buffer" => Call::WriteBufferSize,
        "space" => Call::DiskSpace(None),
        "outstanding" => Call::OutstandingFlushes,
        "merging" => Call::ActiveCompactions,
        "merged" => Call::CompactionsCompleted,
        _ => return BAD_LINE,
    })
}

// The same of a keyspace.
fn count_of(list: &mut List, what: &str, id: &str) -> Parsed<Wording> {
    let id = number(id)?;
    list.plain(match what {
        "versions" => Call::ApproximateLen(id),
        "sealed" => Call::SealedMemtableCount(id),
        "tables" => Call::TableCount(id),
        "level0" => Call::L0TableCount(id),
        "space" => Call::DiskSpace(Some(id)),
        _ => return BAD_LINE,
    })
}

// A line of one word.
fn of_none(list: &mut List, word: &str) -> Parsed<Wording> {
    match word {
        "snapshot" => list.told(Wording::Snapshot, Call::Snapshot),
        "begin" => list.add(Wording::Begin, TxCall::Begin(Kind::Optimistic)),
        "begin_single" => list.add(Wording::Begin, TxCall::Begin(Kind::Single)),
        "gc" => list.told(Wording::Watermark, Call::Gc),
        "persist" => list.plain(Call::Persist(PersistMode::SyncAll)),
        "rotate_journal" => list.plain(Call::RotateJournal),
        "maintenance" => list.plain(Call::Maintenance),
        "waiting" => list.plain(Call::KeyspacesToFlush),
        "names" => list.plain(Call::ListKeyspaceNames),
        _ => BAD_LINE,
    }
}

// A line of a word and an id.
fn of_keyspace(list: &mut List, word: &str, id: &str) -> Parsed<Wording> {
    match word {
        "delete" => list.plain(Call::DeleteKeyspace(number(id)?)),
        "retain" => list.plain(Call::Retain(number(id)?)),
        "release" => list.plain(Call::Release(number(id)?)),
        "clear" => list.plain(Call::Clear(number(id)?)),
        "rotate" => list.plain(Call::RotateMemtable(number(id)?)),
        "wants_rotation" => list.plain(Call::WantsRotation(number(id)?)),
        "len" => whole(list, Wording::Len, id),
        "scan" => whole(list, Wording::Plain, id),
        _ => of_job(list, word, id),
    }
}

// All pairs of a keyspace.
fn whole(list: &mut List, wording: Wording, id: &str) -> Parsed<Wording> {
    let everywhere = (Bound::Unbounded, Bound::Unbounded);
    let id = number(id)?;
    list.told(
        wording,
        Call::PageAt(View::Present, id, everywhere, false, usize::MAX),
    )
}

// A line of a job: a word and an id, or the place of the call that began it.
fn of_job(list: &mut List, word: &str, id: &str) -> Parsed<Wording> {
    match word {
        "flush" => list.whole_job(id, Work::Flush),
        "flush_begin" => list.begin_job(id, Work::Flush),
        "flush_finish" => list.finish_job(id, Work::Flush),
        "flush_out" => list.lose_job(id, Work::Flush),
        "merge" => list.whole_job(id, Work::MajorMerge),
        "merge_begin" => list.begin_job(id, Work::MajorMerge),
        "merge_finish" => list.finish_job(id, Work::MajorMerge),
        "merge_out" => list.lose_job(id, Work::MajorMerge),
        "merge_due" => list.whole_job(id, Work::DueMerge),
        "merge_due_begin" => list.begin_job(id, Work::DueMerge),
        "merge_due_out" => list.lose_job(id, Work::DueMerge),
        _ => BAD_LINE,
    }
}

// A line of a word and another word that is no id.
fn of_one(list: &mut List, word: &str, other: &str) -> Parsed<Wording> {
    match word {
        "persist" => list.plain(Call::Persist(mode(other)?)),
        "count" => count(list, other),
        "exists" => {
            let name = bytes(list.alloc, other)?;
            list.plain(Call::KeyspaceExists(name))
        }
        "snapshot" if other == "id" => list.told(Wording::TicketId, Call::Snapshot),
        "snapshot" if other == "at" => list.told(Wording::Ticket, Call::Snapshot),
        "clone_snapshot" => {
            let ticket = list.ticket(other)?;
            list.told(Wording::TicketId, Call::CloneSnapshot(ticket))
        }
        "close_snapshot" => {
            let ticket = list.ticket(other)?;
            list.plain(Call::CloseSnapshot(ticket))
        }
        "commit" => list.commit(Kind::Optimistic, other),
        "commit_single" => list.commit(Kind::Single, other),
        "rollback" => list.roll_back(other),
        _ => of_keyspace(list, word, other),
    }
}

// A line of a word, an id and a key.
fn of_key(list: &mut List, word: &str, id: &str, key: &str) -> Parsed<Wording> {
    let (id, key) = (number(id)?, bytes(list.alloc, key)?);
    list.plain(match word {
        "remove" => Call::Remove(id, key),
        "remove_weak" => Call::RemoveWeak(id, key),
        "get" => Call::GetAt(View::Present, id, key),
        _ => return BAD_LINE,
    })
}

// Inserts so many keys of two bytes.
fn insert_many(list: &mut List, id: u64, count: u64) -> Parsed<Wording> {
    let pairs = counted(list.alloc, count, b"v")?;
    let many = Wording::Many(pairs.len());
    for (key, op) in pairs {
        if let Op::Put(value) = op {
            list.plain(Call::Insert(id, key, value))?;
        }
    }
    Ok(many)
}

// A line of a word and two more.
fn of_two(list: &mut List, word: &str, first: &str, second: &str) -> Parsed<Wording> {
    match word {
        "clone_snapshot" if second == "at" => {
            let ticket = list.ticket(first)?;
            list.told(Wording::Ticket, Call::CloneSnapshot(ticket))
        }
        "insert_many" => insert_many(list, number(first)?, number(second)?),
        "ingest_many" => {
            let pairs = counted(list.alloc, number(second)?, b"")?;
            list.plain(Call::Ingest(number(first)?, pairs))
        }
        "tx_durability" => list.within(first, Within::Durability(durability(second)?)),
        "count" => count_of(list, first, second),
        _ => of_key(list, word, first, second),
    }
}

// A line of a word, an id, a key and its value.
fn insert(list: &mut List, id: &str, key: &str, new: &str) -> Parsed<Wording> {
    let key = bytes(list.alloc, key)?;
    let value = bytes(list.alloc, new)?;
    list.plain(Call::Insert(number(id)?, key, value))
}

// A line of a word, the number of a snapshot or a transaction, an id and a key.
fn of_three(list: &mut List, word: &str, of: &str, id: &str, key: &str) -> Parsed<Wording> {
    let (id, key) = (number(id)?, bytes(list.alloc, key)?);
    match word {
        "get_at" => {
            let ticket = list.ticket(of)?;
            list.plain(Call::GetAt(View::At(ticket), id, key))
        }
        "tx_get" => list.within(of, Within::Get(id, key)),
        "tx_remove" => list.within(of, Within::Write(id, key, Op::Remove)),
        "tx_remove_weak" => list.within(of, Within::Write(id, key, Op::RemoveWeak)),
        "tx_take" => list.within(of, Within::Take(id, key)),
        _ => BAD_LINE,
    }
}

// A line of a word, a transaction's number, an id, a key, and its value.
fn of_four(list: &mut List, word: &str, of: &str, pair: [&str; 3]) -> Parsed<Wording> {
    let [id, key, new] = pair;
    let (id, key) = (number(id)?, bytes(list.alloc, key)?);
    let new = value(list.alloc, new)?;
    match (word, new) {
        ("tx_insert", Some(new)) => list.within(of, Within::Write(id, key, Op::Put(new))),
        ("tx_fetch_update", new) => list.within(of, Within::FetchUpdate(id, key, new)),
        ("tx_update_fetch", new) => list.within(of, Within::UpdateFetch(id, key, new)),
        _ => BAD_LINE,
    }
}

/// What a page asks for.
#[derive(Drop)]
pub struct Page {
    pub id: u64,
    pub range: KeyRange,
    pub is_back: bool,
    pub max: usize,
}

/// Reads `ID FROM TO MAX [back]`.
pub fn read_page(alloc: Global, words: &[&str]) -> Parsed<Page> {
    let (asked, is_back) = match words {
        [asked @ .., "back"] => (asked, true),
        _ => (words, false),
    };
    let [id, from, to, max] = asked else {
        return Err(LineError::BadLine);
    };
    let (id, max) = (number(id)?, size(max)?);
    Ok(Page {
        id,
        range: range(alloc, from, to)?,
        is_back,
        max,
    })
}

// A page of the present or of a snapshot.
fn add_page(list: &mut List, wording: Wording, view: View, words: &[&str]) -> Parsed<Wording> {
    let page = read_page(list.alloc, words)?;
    list.told(
        wording,
        Call::PageAt(view, page.id, page.range, page.is_back, page.max),
    )
}

// The same of a snapshot that a word names.
fn add_page_at(list: &mut List, wording: Wording, of: &str, words: &[&str]) -> Parsed<Wording> {
    let ticket = list.ticket(of)?;
    add_page(list, wording, View::At(ticket), words)
}

// The same within a transaction that a word names.
fn add_page_within(list: &mut List, of: &str, words: &[&str]) -> Parsed<Wording> {
    let page = read_page(list.alloc, words)?;
    list.within(
        of,
        Within::Page(page.id, page.range, page.is_back, page.max),
    )
}

// A batch.
fn batch(list: &mut List, persisted: Option<PersistMode>, words: &[&str]) -> Parsed<Wording> {
    let items = items(list.alloc, words)?;
    list.plain(Call::CommitBatch(items, persisted))
}

fn keyspace(list: &mut List, word: &str, asked: &[&str]) -> Parsed<Wording> {
    let name = name(list.alloc, word)?;
    let options = options(list.alloc, asked)?;
    list.told(Wording::Keyspace, Call::Keyspace(name, options))
}

fn ingest(list: &mut List, id: &str, words: &[&str]) -> Parsed<Wording> {
    let pairs = pairs(list.alloc, words)?;
    list.plain(Call::Ingest(number(id)?, pairs))
}

/// Adds the calls of a line to a list. A line that is no call adds none; one that is refused may have added some.
pub fn add_line(list: &mut List, words: &[&str]) -> Parsed<Wording> {
    match words {
        ["keyspace", name, asked @ ..] => keyspace(list, name, asked),
        ["batch", items @ ..] => batch(list, Some(PersistMode::Buffer), items),
        ["commit_batch", persisted, items @ ..] => batch(list, durability(persisted)?, items),
        ["ingest", id, pairs @ ..] => ingest(list, id, pairs),
        ["page", asked @ ..] => add_page(list, Wording::Plain, View::Present, asked),
        ["keys", asked @ ..] => add_page(list, Wording::Keys, View::Present, asked),
        ["page_at", of, asked @ ..] => add_page_at(list, Wording::Plain, of, asked),
        ["keys_at", of, asked @ ..] => add_page_at(list, Wording::Keys, of, asked),
        ["tx_page", of, asked @ ..] => add_page_within(list, of, asked),
        [word] => of_none(list, word),
        [word, other] => of_one(list, word, other),
        [word, first, second] => of_two(list, word, first, second),
        ["insert", id, key, new] => insert(list, id, key, new),
        [word, of, id, key] => of_three(list, word, of, id, key),
        [word, of, id, key, new] => of_four(list, word, of, [id, key, new]),
        _ => BAD_LINE,
    }
}
