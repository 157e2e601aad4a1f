//! Answers to lines, and their texts.

use fjall::{Error, KvPair, Slice};
use fjall_recorder::{LineError, Parsed};
use std::alloc::{AllocError, Global};

/// What a line is answered that was done.
#[derive(Drop)]
pub enum Answer {
    Done,
    Keyspace(u64),
    Snapshot(usize),
    Transaction(usize),
    Value(Option<Slice>),
    Count(u64),
    Size(Option<u32>),
    Flag(bool),
    Pairs(Vec<KvPair>),
    /// What was taken from ends of a range, where there was something.
    Ends(Vec<Option<KvPair>>),
    Names(Vec<String>),
    Name(String),
    Path(String),
    /// A transaction met another one.
    Conflict,
    /// Something didn't come about.
    Busy,
    /// The database is open already.
    Open,
}

/// What a line is answered, or why it isn't done.
pub type Done = Parsed<Answer>;

/// A text that is made.
pub type Text = Result<String, AllocError>;

// Bytes in lower-case hexadecimal, `-` for none.
fn word(alloc: Global, bytes: &[u8]) -> Text {
    if bytes.is_empty() {
        return String::from_str(alloc, "-");
    }
    hex::encode(alloc, bytes)
}

/// A refusal: its number, its name, and what it carries.
pub fn refusal(alloc: Global, error: Error) -> Text {
    format!(in alloc; "error {} {error:?}", error.number())
}

// A key and its value.
fn pair(alloc: Global, (key, value): &KvPair) -> Text {
    format!(in alloc; " {}={}", word(alloc, key)?, word(alloc, value)?)
}

// Pairs, each behind a space.
fn pairs(alloc: Global, pairs: &[KvPair]) -> Text {
    let mut text = String::from_str(alloc, "pairs")?;
    for one in pairs {
        text.push_str(&pair(alloc, one)?)?;
    }
    Ok(text)
}

// The same, with a word where there is no pair.
fn ends(alloc: Global, taken: &[Option<KvPair>]) -> Text {
    let mut text = String::from_str(alloc, "pairs")?;
    for found in taken {
        match found {
            Some(one) => text.push_str(&pair(alloc, one)?)?,
            None => text.push_str(" none")?,
        }
    }
    Ok(text)
}

fn names(alloc: Global, all: &[String]) -> Text {
    let mut text = String::from_str(alloc, "names")?;
    for name in all {
        text.push_str(" ")?;
        text.push_str(&word(alloc, name.as_bytes())?)?;
    }
    Ok(text)
}

// A word that stands alone.
fn lone(answer: &Answer) -> &'static str {
    match answer {
        Answer::Flag(true) => "true",
        Answer::Flag(false) => "false",
        Answer::Value(None) | Answer::Size(None) => "none",
        Answer::Conflict => "conflict",
        Answer::Busy => "busy",
        Answer::Open => "open",
        _ => "ok",
    }
}

// The text of an answer.
fn answered(alloc: Global, answer: &Answer) -> Text {
    match answer {
        Answer::Keyspace(id) => format!(in alloc; "keyspace {id}"),
        Answer::Snapshot(number) => format!(in alloc; "snapshot {number}"),
        Answer::Transaction(number) => format!(in alloc; "tx {number}"),
        Answer::Value(Some(value)) => format!(in alloc; "value {}", word(alloc, value)?),
        Answer::Count(count) => format!(in alloc; "count {count}"),
        Answer::Size(Some(size)) => format!(in alloc; "count {size}"),
        Answer::Pairs(found) => pairs(alloc, found),
        Answer::Ends(taken) => ends(alloc, taken),
        Answer::Names(all) => names(alloc, all),
        Answer::Name(name) => format!(in alloc; "text {}", word(alloc, name.as_bytes())?),
        Answer::Path(path) => format!(in alloc; "path {path}"),
        _ => String::from_str(alloc, lone(answer)),
    }
}

/// The text of what a line is answered, or of why it isn't done.
pub fn told(alloc: Global, done: &Done) -> Text {
    match done {
        Ok(answer) => answered(alloc, answer),
        Err(LineError::BadLine) => String::from_str(alloc, "error 0 BadLine"),
        Err(LineError::Refused(error)) => refusal(alloc, *error),
    }
}
