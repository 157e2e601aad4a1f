//! The text of an answer.

use crate::list::Wording;
use fjall_base::{Error, KvPair, Slice};
use fjall_history::Reply;
use fjall_recorder::LineError;
use std::alloc::{AllocError, Global};

/// A text that is made.
pub type Text = Result<String, AllocError>;

/// Bytes in lower-case hexadecimal, `-` for none.
pub fn word(alloc: Global, bytes: &[u8]) -> Text {
    if bytes.is_empty() {
        return String::from_str(alloc, "-");
    }
    hex::encode(alloc, bytes)
}

/// A refusal: its number, its name, and what it carries.
pub fn refusal(alloc: Global, error: Error) -> Text {
    format!(in alloc; "error {} {error:?}", error.number())
}

/// Why a line isn't done.
pub fn undone(alloc: Global, error: LineError) -> Text {
    match error {
        LineError::BadLine => String::from_str(alloc, "error 0 BadLine"),
        LineError::Refused(error) => refusal(alloc, error),
    }
}

/// A count.
pub fn count(alloc: Global, count: usize) -> Text {
    format!(in alloc; "count {count}")
}

/// Whether something is so.
pub fn flag(alloc: Global, is_so: bool) -> Text {
    String::from_str(alloc, if is_so { "true" } else { "false" })
}

/// Words of bytes behind a word.
pub fn words(alloc: Global, first: &str, all: &[Slice]) -> Text {
    let mut text = String::from_str(alloc, first)?;
    for bytes in all {
        text.push_str(" ")?;
        text.push_str(&word(alloc, bytes)?)?;
    }
    Ok(text)
}

/// Pairs, each behind a space.
pub fn pairs(alloc: Global, pairs: &[KvPair]) -> Text {
    let mut text = String::from_str(alloc, "pairs")?;
    for (key, value) in pairs {
        text.push_str(" ")?;
        text.push_str(&word(alloc, key)?)?;
        text.push_str("=")?;
        text.push_str(&word(alloc, value)?)?;
    }
    Ok(text)
}

/// The keys of pairs, one behind another.
pub fn keys(alloc: Global, pairs: &[KvPair]) -> Text {
    let mut all: Vec<u8> = Vec::new(alloc);
    for (key, _) in pairs {
        all.extend_from_slice(key)?;
    }
    format!(in alloc; "keys {}", word(alloc, &all)?)
}

fn ids(alloc: Global, ids: &[u64]) -> Text {
    let mut text = String::from_str(alloc, "ids")?;
    for id in ids {
        text.push_str(&format!(in alloc; " {id}")?)?;
    }
    Ok(text)
}

/// What a reply tells.
pub fn told(alloc: Global, wording: Wording, reply: &Reply, number: usize) -> Text {
    match (reply, wording) {
        (Reply::Done, Wording::Begin) => format!(in alloc; "tx {number}"),
        (Reply::Done, _) => String::from_str(alloc, "ok"),
        (Reply::Value(None), _) => String::from_str(alloc, "none"),
        (Reply::Value(Some(value)), _) => format!(in alloc; "value {}", word(alloc, value)?),
        (Reply::Pairs(found), Wording::Len) => format!(in alloc; "count {}", found.len()),
        (Reply::Pairs(found), Wording::Keys) => keys(alloc, found),
        (Reply::Pairs(found), _) => pairs(alloc, found),
        (Reply::Number(count), Wording::Keyspace) => format!(in alloc; "keyspace {count}"),
        (Reply::Number(count), Wording::Watermark) => format!(in alloc; "watermark {count}"),
        (Reply::Number(count), _) => format!(in alloc; "count {count}"),
        (Reply::Names(names), _) => words(alloc, "names", names),
        (Reply::Flag(true), Wording::Commit) => String::from_str(alloc, "ok"),
        (Reply::Flag(false), Wording::Commit) => String::from_str(alloc, "conflict"),
        (Reply::Flag(true), Wording::End) => String::from_str(alloc, "closed"),
        (Reply::Flag(false), Wording::End) => String::from_str(alloc, "open"),
        (Reply::Flag(is_so), _) => flag(alloc, *is_so),
        (Reply::Opened(ticket), Wording::TicketId) => format!(in alloc; "ticket {}", ticket.id),
        (Reply::Opened(ticket), Wording::Ticket) => {
            format!(in alloc; "ticket {} at {}", ticket.id, ticket.instant)
        }
        (Reply::Opened(_), _) => format!(in alloc; "snapshot {number}"),
        (Reply::Began(job), Wording::Begun) => flag(alloc, job.is_some()),
        (Reply::Began(Some(job)), _) => {
            format!(in alloc; "job {} of {}", job.number, job.keyspace_id)
        }
        (Reply::Began(None), _) => String::from_str(alloc, "no job"),
        (Reply::Ids(found), _) => ids(alloc, found),
        (Reply::Refused(error), _) => refusal(alloc, *error),
    }
}

// Whether a reply says nothing of its line: a job isn't out, so that it could not be finished; or one was begun, or there was none
// to begin.
fn is_idle(reply: &Reply) -> bool {
    matches!(reply, Reply::Flag(false) | Reply::Began(_))
}

// The reply that is told of those to a line: of a job the last that says something, of many the first refusal.
fn chosen<'a>(wording: Wording, replies: &'a [Reply]) -> Option<&'a Reply> {
    match (wording, replies) {
        (Wording::Job(_), replies) => {
            let said = replies.iter().rev().find(|reply| !is_idle(reply));
            said.or(replies.last())
        }
        (Wording::Many(_), replies) => {
            let refused = replies
                .iter()
                .find(|reply| matches!(reply, Reply::Refused(_)));
            refused.or(replies.first())
        }
        (_, replies) => replies.first(),
    }
}

/// What a line is answered that got these replies, and this number where it opens something.
pub fn answer(alloc: Global, wording: Wording, replies: &[Reply], number: usize) -> Text {
    match chosen(wording, replies) {
        Some(reply) => told(alloc, wording, reply, number),
        None => String::from_str(alloc, "ok"),
    }
}
