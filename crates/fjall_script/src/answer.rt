//! The text of an answer.

ghost use Rattle.std.specs.Prelude.{◌≡◌, IfOk, Some, string_bytes};
ghost use Rattle.fjall_lines.specs.Lines.{hex_word};
ghost use Rattle.fjall_script.specs.Answers.{done_text, flag_text, is_idle, last_said, number_text, pairs_text, refusal_text, reply_text, reply_to};

use fjall_base::{Error, KvPair, Slice};
use fjall_history::Reply;
use fjall_lines::Request;
use std::alloc::{AllocError, Global};
use std::fmt;

/// What a line that is no command is answered.
pub const BAD_LINE: &str = "error 0 BadLine";

/// Bytes in lower-case hexadecimal, `-` for none.
pub fn hex_word(alloc: Global, bytes: &Slice) -> Result<String, AllocError>
    ensures { IfOk result (λ word. string_bytes word ≡ hex_word bytes.now) }
{
    if bytes.as_slice().is_empty() {
        return String::from_str(alloc, "-");
    }
    hex::encode(alloc, bytes.as_slice())
}

/// A refusal as it is printed: its number and its name, as in `error 12 KeyEmpty`.
#[derive(Clone, Copy)]
pub struct Refusal(pub Error);

impl fmt::Display for Refusal {
    ghost output = { λ refusal. Some (refusal_text refusal.0) };

    fn fmt<W: fmt::Write>(&self, f: &mut fmt::Formatter<W>) -> fmt::Result {
        let number = self.0.number();
        let name = self.0.name();
        write!(f, "error {number} {name}")
    }
}

// Pairs as they are printed, each behind a space.
fn pairs_text(alloc: Global, pairs: &[KvPair]) -> Result<String, AllocError>
    ensures { IfOk result (λ text. string_bytes text ≡ pairs_text pairs.now) }
{
    let mut text = String::from_str(alloc, "pairs")?;
    for (key, value) in pairs {
        text.push_str(" ")?;
        text.push_str(hex_word(alloc, key)?.as_str())?;
        text.push_str("=")?;
        text.push_str(hex_word(alloc, value)?.as_str())?;
    }
    Ok(text)
}

// Whether a reply says nothing of its line: a job isn't out, so that it could not be finished; or one was begun, or there was none
// to begin.
fn is_idle(reply: &Reply) -> bool
    ensures { result ≡ is_idle reply.now }
{
    match reply {
        Reply::Flag(done) => !*done,
        Reply::Began(_) => true,
        _ => false,
    }
}

// The last of these replies that says something, and else the one before them.
fn last_said<'a>(before: &'a Reply, replies: &'a [Reply]) -> &'a Reply
    ensures { result.now ≡ last_said before.now replies.now }
{
    let mut said = before;
    for reply in replies {
        if !is_idle(reply) {
            said = reply;
        }
    }
    said
}

// What a request is answered that is done: the number of a transaction that begins, and else `ok`.
fn done_text(alloc: Global, request: &Request, number: usize) -> Result<String, AllocError>
    ensures { IfOk result (λ text. string_bytes text ≡ done_text number request.now) }
{
    match request {
        Request::Begin => format!(in alloc; "tx {number}"),
        _ => String::from_str(alloc, "ok"),
    }
}

// What a request is answered that has a flag: of a commit whether it took place or conflicts.
fn flag_text(alloc: Global, request: &Request, flag: bool) -> Result<String, AllocError>
    ensures { IfOk result (λ text. string_bytes text ≡ flag_text request.now flag) }
{
    match (request, flag) {
        (Request::Commit(_), true) => String::from_str(alloc, "ok"),
        (Request::Commit(_), false) => String::from_str(alloc, "conflict"),
        (_, true) => String::from_str(alloc, "true"),
        (_, false) => String::from_str(alloc, "false"),
    }
}

// What a request is answered that has a number.
fn number_text(alloc: Global, request: &Request, count: u64) -> Result<String, AllocError>
    ensures { IfOk result (λ text. string_bytes text ≡ number_text request.now count) }
{
    match request {
        Request::Keyspace(_) => format!(in alloc; "keyspace {count}"),
        Request::Gc => format!(in alloc; "watermark {count}"),
        _ => format!(in alloc; "count {count}"),
    }
}

// What a request is answered, by its reply, where a snapshot that it opens, or a transaction that it begins, gets this number.
fn reply_text(
    alloc: Global,
    request: &Request,
    reply: &Reply,
    number: usize,
) -> Result<String, AllocError>
    ensures { IfOk result (λ text. string_bytes text ≡ reply_text number request.now reply.now) }
{
    match reply {
        Reply::Done => done_text(alloc, request, number),
        Reply::Value(None) => String::from_str(alloc, "none"),
        Reply::Value(Some(value)) => {
            let word = hex_word(alloc, value)?;
            format!(in alloc; "value {word}")
        }
        Reply::Pairs(pairs) => match request {
            Request::Len(_) => {
                let count = pairs.len();
                format!(in alloc; "count {count}")
            }
            _ => pairs_text(alloc, pairs.as_slice()),
        },
        Reply::Number(count) => number_text(alloc, request, *count),
        Reply::Names(names) => {
            let count = names.len();
            format!(in alloc; "count {count}")
        }
        Reply::Flag(flag) => flag_text(alloc, request, *flag),
        Reply::Opened(_) => format!(in alloc; "snapshot {number}"),
        Reply::Began(Some(_)) => String::from_str(alloc, "true"),
        Reply::Began(None) => String::from_str(alloc, "false"),
        Reply::Ids(ids) => {
            let count = ids.len();
            format!(in alloc; "count {count}")
        }
        Reply::Refused(error) => Refusal(*error).to_string(alloc),
    }
}

/// What a request is answered, by the replies to its calls, where a snapshot that it opens, or a transaction that it begins, gets this
/// number.
pub fn answer(
    alloc: Global,
    request: &Request,
    replies: &[Reply],
    number: usize,
) -> Result<String, AllocError>
    ensures { IfOk result (λ text. string_bytes text ≡ reply_text number request.now (reply_to replies.now)) }
{
    let nothing_done = Reply::Flag(false);
    reply_text(alloc, request, last_said(&nothing_done, replies), number)
}
