//! What lines ask for.

use crate::words::{Item, KeyRange, Pair, Wishes, counted, items, name, pairs, read_wishes, text};
use fjall::{PersistMode, Slice};
use fjall_recorder::{LineError, Parsed, bytes, durability, mode, number, range, size, value};
use std::alloc::Global;

const BAD_LINE: LineError = LineError::BadLine;

/// The kinds of databases.
#[derive(Clone, Copy, PartialEq)]
pub enum Kind {
    Plain,
    Optimistic,
    Single,
}

/// The first pairs of a range, or its last ones.
#[derive(Drop)]
pub struct Page {
    pub range: KeyRange,
    pub max: usize,
    pub is_back: bool,
}

/// What is read of a keyspace.
#[derive(Drop)]
pub enum Query {
    Get(Slice),
    Contains(Slice),
    Size(Slice),
    Len,
    IsEmpty,
    First,
    Last,
    Scan,
    Range(KeyRange),
    Prefix(Slice),
    Page(Page),
}

/// How one key changes.
#[derive(Drop)]
pub enum Change {
    Insert(Slice, Slice),
    Remove(Slice),
    RemoveWeak(Slice),
    Take(Slice),
    FetchUpdate(Slice, Option<Slice>),
    UpdateFetch(Slice, Option<Slice>),
}

/// An end of a range.
#[derive(Clone, Copy)]
pub enum End {
    Front,
    Back,
}

/// What a keyspace tells of itself.
#[derive(Clone, Copy)]
pub enum Measure {
    Versions,
    Sealed,
    Tables,
    Level0,
    Space,
}

/// What a line does with a keyspace.
#[derive(Drop)]
pub enum Work {
    Read(Query),
    Change(Change),
    Ends(Vec<End>),
    InsertMany(Vec<Pair>),
    Ingest(Vec<Pair>),
    Measure(Measure),
    Delete,
    Drop,
    Name,
    Path,
    Clear,
    Rotate,
    RotateAndWait,
    Compact,
}

/// What a line does with a transaction.
#[derive(Drop)]
pub enum Step {
    Durability(Option<PersistMode>),
    Commit(Kind),
    Rollback,
    Drop,
}

/// What a database tells of itself.
#[derive(Clone, Copy)]
pub enum Count {
    Keyspaces,
    Seqno,
    Visible,
    Journals,
    JournalSpace,
    Snapshots,
    WriteBuffer,
    Space,
    Outstanding,
    Merging,
    Merged,
}

/// What a line asks for. Keyspaces go by their ids, snapshots and transactions by the numbers of their lines.
#[derive(Drop)]
pub enum Command {
    Keyspace(String, Wishes),
    Work(u64, Work),
    ReadAt(usize, u64, Query),
    ReadWithin(usize, u64, Query),
    ChangeWithin(usize, u64, Change),
    /// A batch that is persisted as the database is.
    Batch(Vec<Item>),
    /// A batch with this mode, or with none.
    CommitBatch(Option<PersistMode>, Vec<Item>),
    Snapshot,
    CloneSnapshot(usize),
    CloseSnapshot(usize),
    Begin(Kind),
    Step(usize, Step),
    Persist(PersistMode),
    Count(Count),
    Exists(String),
    Names,
    Settle,
    Close,
    Open,
    Reopen,
}

impl Command {
    /// Whether databases of this kind have such a line.
    pub fn is_of(&self, kind: Kind) -> bool {
        match self {
            Command::Begin(own) | Command::Step(_, Step::Commit(own)) => *own == kind,
            Command::Work(_, Work::Change(Change::Take(_)))
            | Command::Work(_, Work::Change(Change::FetchUpdate(_, _)))
            | Command::Work(_, Work::Change(Change::UpdateFetch(_, _)))
            | Command::ReadWithin(_, _, _)
            | Command::ChangeWithin(_, _, _)
            | Command::Step(_, _) => kind != Kind::Plain,
            _ => true,
        }
    }
}

// The read of a word and those behind the keyspace's id.
fn read_query(alloc: Global, word: &str, rest: &[&str]) -> Parsed<Option<Query>> {
    Ok(Some(match (word, rest) {
        ("get", [key]) => Query::Get(bytes(alloc, key)?),
        ("contains", [key]) => Query::Contains(bytes(alloc, key)?),
        ("size", [key]) => Query::Size(bytes(alloc, key)?),
        ("len", []) => Query::Len,
        ("is_empty", []) => Query::IsEmpty,
        ("first", []) => Query::First,
        ("last", []) => Query::Last,
        ("scan", []) => Query::Scan,
        ("range", [from, to]) => Query::Range(range(alloc, from, to)?),
        ("prefix", [prefix]) => Query::Prefix(bytes(alloc, prefix)?),
        ("page", [from, to, max]) => Query::Page(read_page(alloc, from, to, max, false)?),
        ("page", [from, to, max, "back"]) => Query::Page(read_page(alloc, from, to, max, true)?),
        _ => return Ok(None),
    }))
}

fn read_page(alloc: Global, from: &str, to: &str, max: &str, is_back: bool) -> Parsed<Page> {
    Ok(Page {
        range: range(alloc, from, to)?,
        max: size(max)?,
        is_back,
    })
}

// The change of a word and those behind the keyspace's id.
fn read_change(alloc: Global, word: &str, rest: &[&str]) -> Parsed<Option<Change>> {
    Ok(Some(match (word, rest) {
        ("insert", [key, new]) => Change::Insert(bytes(alloc, key)?, bytes(alloc, new)?),
        ("remove", [key]) => Change::Remove(bytes(alloc, key)?),
        ("remove_weak", [key]) => Change::RemoveWeak(bytes(alloc, key)?),
        ("take", [key]) => Change::Take(bytes(alloc, key)?),
        ("fetch_update", [key, new]) => Change::FetchUpdate(bytes(alloc, key)?, value(alloc, new)?),
        ("update_fetch", [key, new]) => Change::UpdateFetch(bytes(alloc, key)?, value(alloc, new)?),
        _ => return Ok(None),
    }))
}

// The ends that letters name.
fn ends(alloc: Global, word: &str) -> Parsed<Vec<End>> {
    let mut ends = Vec::new(alloc);
    for letter in word.bytes() {
        ends.push(match letter {
            b'f' => End::Front,
            b'b' => End::Back,
            _ => return Err(BAD_LINE),
        })?;
    }
    Ok(ends)
}

// What else a line does with a keyspace.
fn upkeep(alloc: Global, word: &str, rest: &[&str]) -> Parsed<Work> {
    Ok(match (word, rest) {
        ("ends", [letters]) => Work::Ends(ends(alloc, letters)?),
        ("insert_many", [count]) => Work::InsertMany(counted(alloc, count, b"v")?),
        ("ingest_many", [count]) => Work::Ingest(counted(alloc, count, b"")?),
        ("ingest", items) => Work::Ingest(pairs(alloc, items)?),
        ("delete", []) => Work::Delete,
        ("drop", []) => Work::Drop,
        ("name", []) => Work::Name,
        ("path", []) => Work::Path,
        ("clear", []) => Work::Clear,
        ("rotate", []) => Work::Rotate,
        ("rotate_and_wait", []) => Work::RotateAndWait,
        ("compact", []) => Work::Compact,
        _ => return Err(BAD_LINE),
    })
}

// A line of a word, a keyspace's id, and more.
fn of_keyspace(alloc: Global, word: &str, id: &str, rest: &[&str]) -> Parsed<Command> {
    let id = number(id)?;
    let work = if let Some(query) = read_query(alloc, word, rest)? {
        Work::Read(query)
    } else if let Some(change) = read_change(alloc, word, rest)? {
        Work::Change(change)
    } else {
        upkeep(alloc, word, rest)?
    };
    Ok(Command::Work(id, work))
}

// The same of a snapshot, or of a transaction.
fn of_opened(alloc: Global, word: &str, of: &str, id: &str, rest: &[&str]) -> Parsed<Command> {
    let (of, id) = (size(of)?, number(id)?);
    if let Some(word) = word.strip_suffix("_at") {
        let query = read_query(alloc, word, rest)?;
        return Ok(Command::ReadAt(of, id, query.ok_or(BAD_LINE)?));
    }
    let word = word.strip_prefix("tx_").ok_or(BAD_LINE)?;
    if let Some(query) = read_query(alloc, word, rest)? {
        return Ok(Command::ReadWithin(of, id, query));
    }
    let change = read_change(alloc, word, rest)?;
    Ok(Command::ChangeWithin(of, id, change.ok_or(BAD_LINE)?))
}

// A number that a database tells of itself.
fn read_count(what: &str) -> Parsed<Count> {
    Ok(match what {
        "keyspaces" => Count::Keyspaces,
        "seqno" => Count::Seqno,
        "visible" => Count::Visible,
        "journals" => Count::Journals,
        "journal_space" => Count::JournalSpace,
        "snapshots" => Count::Snapshots,
        "write_buffer" => Count::WriteBuffer,
        "space" => Count::Space,
        "outstanding" => Count::Outstanding,
        "merging" => Count::Merging,
        "merged" => Count::Merged,
        _ => return Err(BAD_LINE),
    })
}

// The same of a keyspace.
fn read_measure(what: &str) -> Parsed<Measure> {
    Ok(match what {
        "versions" => Measure::Versions,
        "sealed" => Measure::Sealed,
        "tables" => Measure::Tables,
        "level0" => Measure::Level0,
        "space" => Measure::Space,
        _ => return Err(BAD_LINE),
    })
}

// A line of one word.
fn of_none(word: &str) -> Parsed<Command> {
    Ok(match word {
        "snapshot" => Command::Snapshot,
        "begin" => Command::Begin(Kind::Optimistic),
        "begin_single" => Command::Begin(Kind::Single),
        "persist" => Command::Persist(PersistMode::SyncAll),
        "names" => Command::Names,
        "settle" => Command::Settle,
        "close" => Command::Close,
        "open" => Command::Open,
        "reopen" => Command::Reopen,
        _ => return Err(BAD_LINE),
    })
}

// A line of a word and another one.
fn of_one(alloc: Global, word: &str, other: &str) -> Parsed<Command> {
    Ok(match word {
        "persist" => Command::Persist(mode(other)?),
        "count" => Command::Count(read_count(other)?),
        "exists" => Command::Exists(text(alloc, &bytes(alloc, other)?)?),
        "clone_snapshot" => Command::CloneSnapshot(size(other)?),
        "close_snapshot" => Command::CloseSnapshot(size(other)?),
        "commit" => Command::Step(size(other)?, Step::Commit(Kind::Optimistic)),
        "commit_single" => Command::Step(size(other)?, Step::Commit(Kind::Single)),
        "rollback" => Command::Step(size(other)?, Step::Rollback),
        "drop_tx" => Command::Step(size(other)?, Step::Drop),
        _ => return of_keyspace(alloc, word, other, &[]),
    })
}

/// What a line asks for.
pub fn parse(alloc: Global, line: &str) -> Parsed<Command> {
    let words: Vec<&str> = line.split(' ').collect(alloc)?;
    Ok(match words.as_slice() {
        ["keyspace", word, rest @ ..] => {
            Command::Keyspace(name(alloc, word)?, read_wishes(rest)?)
        }
        ["batch", rest @ ..] => Command::Batch(items(alloc, rest)?),
        ["commit_batch", how, rest @ ..] => {
            Command::CommitBatch(durability(how)?, items(alloc, rest)?)
        }
        ["count", what, id] => Command::Work(number(id)?, Work::Measure(read_measure(what)?)),
        ["tx_durability", of, how] => Command::Step(size(of)?, Step::Durability(durability(how)?)),
        [word] => return of_none(word),
        [word, other] => return of_one(alloc, word, other),
        [word, of, id, rest @ ..] if word.ends_with("_at") || word.starts_with("tx_") => {
            return of_opened(alloc, word, of, id, rest);
        }
        [word, id, rest @ ..] => return of_keyspace(alloc, word, id, rest),
        [] => return Err(BAD_LINE),
    })
}
