//! Reads a line as a command. Each command has one spelling, and no other line is a command.

ghost use Rattle.std.specs.Prelude.{◌≡◌, ◌≢◌, ℕ, List, [], ◌∷◌, ◌<◌, ◌^◌, IfOk, IfSome, codes, decimal, map};
ghost use Rattle.std.specs.List.{list_any};
ghost use Rattle.std.specs.Char.{is_ascii_uppercase};
ghost use Rattle.hex.specs.Hex.{IsBytes};
ghost use Rattle.fjall_lines.specs.Lines.{FindsIdAndKey, FindsValue, hex_word, ReadsLine, Spells, SpellsFills, SpellsWrite, SpellsWrites, value_word};

use crate::command::{Command, Fills, Request, Write, Writes};
use fjall_base::{Slice, UserKey, UserValue};
use fjall_files::parse_number;
use hex::FromHexError;
use std::alloc::{AllocError, Global};
use std::str;

fn has_upper_case(word: &str) -> bool
    ensures { result ≡ list_any is_ascii_uppercase word.now }
{
    word.as_bytes().iter().any(|c| c.is_ascii_uppercase())
}

/// The bytes that a word spells: lower-case hexadecimal, or `-` for no bytes.
pub fn bytes(alloc: Global, word: &str) -> Result<Option<Slice>, AllocError>
    ensures spelled { IfOk result (λ found. IfSome found (λ b. word.now ≡ hex_word b)) }
    ensures all_found { IfOk result (λ found. (b : List ℕ) → IsBytes b → word.now ≡ hex_word b → found ≡ Some b) }
{
    if word == "-" {
        return Ok(Some(Slice::empty()));
    }
    if word.is_empty() || has_upper_case(word) {
        return Ok(None);
    }
    match hex::decode(alloc, word) {
        Ok(decoded) => Ok(Some(Slice::new(alloc, decoded.as_slice())?)),
        Err(error) => match error {
            FromHexError::OutOfMemory => Err(AllocError),
            _ => Ok(None),
        },
    }
}

// A keyspace's id and a key, where the words spell them.
fn id_and_key(alloc: Global, id: &str, key: &str) -> Result<Option<(u64, UserKey)>, AllocError>
    ensures spelled { IfOk result (λ found. IfSome found (λ both. (id.now ≡ decimal both.0) × (key.now ≡ hex_word both.1))) }
    ensures all_found { IfOk result (λ found. FindsIdAndKey id.now key.now found) }
{
    let Some(number) = parse_number(id) else {
        return Ok(None);
    };
    let Some(key) = bytes(alloc, key)? else {
        return Ok(None);
    };
    Ok(Some((number, key)))
}

fn insert(alloc: Global, id: &str, key: &str, value: &str) -> Result<Option<Command>, AllocError>
    ensures { IfOk result (λ found. Spells (codes "insert" ∷ id.now ∷ key.now ∷ value.now ∷ []) found) }
{
    let Some((id, key)) = id_and_key(alloc, id, key)? else {
        return Ok(None);
    };
    let Some(value) = bytes(alloc, value)? else {
        return Ok(None);
    };
    Ok(Some(Command::Ask(Request::Insert(id, key, value))))
}

fn get_at(alloc: Global, number: &str, id: &str, key: &str) -> Result<Option<Command>, AllocError>
    ensures { IfOk result (λ found. Spells (codes "get_at" ∷ number.now ∷ id.now ∷ key.now ∷ []) found) }
{
    let Some(number) = parse_number(number) else {
        return Ok(None);
    };
    let Some((id, key)) = id_and_key(alloc, id, key)? else {
        return Ok(None);
    };
    Ok(Some(Command::Ask(Request::GetAt(number, id, key))))
}

fn tx_get(alloc: Global, number: &str, id: &str, key: &str) -> Result<Option<Command>, AllocError>
    ensures { IfOk result (λ found. Spells (codes "tx_get" ∷ number.now ∷ id.now ∷ key.now ∷ []) found) }
{
    let Some(number) = parse_number(number) else {
        return Ok(None);
    };
    let Some((id, key)) = id_and_key(alloc, id, key)? else {
        return Ok(None);
    };
    Ok(Some(Command::Ask(Request::TxGet(number, id, key))))
}

fn tx_insert(
    alloc: Global,
    number: &str,
    id: &str,
    key: &str,
    value: &str,
) -> Result<Option<Command>, AllocError>
    ensures { IfOk result (λ found. Spells (codes "tx_insert" ∷ number.now ∷ id.now ∷ key.now ∷ value.now ∷ []) found) }
{
    let Some(number) = parse_number(number) else {
        return Ok(None);
    };
    let Some((id, key)) = id_and_key(alloc, id, key)? else {
        return Ok(None);
    };
    let Some(value) = bytes(alloc, value)? else {
        return Ok(None);
    };
    Ok(Some(Command::Ask(Request::TxInsert(number, id, key, value))))
}

// The new value that a word spells: a tilde takes the key away.
fn new_value(alloc: Global, word: &str) -> Result<Option<Option<UserValue>>, AllocError>
    ensures spelled { IfOk result (λ found. IfSome found (λ value. word.now ≡ value_word value)) }
    ensures all_found { IfOk result (λ found. FindsValue word.now found) }
{
    if word == "~" {
        return Ok(Some(None));
    }
    let Some(value) = bytes(alloc, word)? else {
        return Ok(None);
    };
    Ok(Some(Some(value)))
}

// The write that three words spell.
fn write(alloc: Global, id: &str, key: &str, value: &str) -> Result<Option<Write>, AllocError>
    ensures { IfOk result (λ found. SpellsWrite id.now key.now value.now found) }
{
    let Some((id, key)) = id_and_key(alloc, id, key)? else {
        return Ok(None);
    };
    let Some(value) = new_value(alloc, value)? else {
        return Ok(None);
    };
    Ok(Some((id, key, value)))
}

// The writes of a batch that words spell, three words each.
fn writes(alloc: Global, words: &[&str]) -> Result<Option<Writes>, AllocError>
    ensures { IfOk result (λ found. SpellsWrites (map (λ word. word.now) words.now) found) }
{
    let mut items = Vec::new(alloc);
    let mut rest = words;
    while let [id, key, value, after @ ..] = rest {
        let Some(item) = write(alloc, id, key, value)? else {
            return Ok(None);
        };
        items.push(item)?;
        rest = after;
    }
    if !rest.is_empty() {
        return Ok(None);
    }
    Ok(Some(Writes::new(items)))
}

// A batch has some write.
fn batch(alloc: Global, words: &[&str]) -> Result<Option<Command>, AllocError>
    ensures { IfOk result (λ found. Spells (codes "batch" ∷ map (λ word. word.now) words.now) found) }
{
    if words.is_empty() {
        return Ok(None);
    }
    let Some(writes) = writes(alloc, words)? else {
        return Ok(None);
    };
    Ok(Some(Command::Ask(Request::Batch(writes))))
}

// What a wild crash leaves that words spell, two words for each file.
fn fills(alloc: Global, words: &[&str]) -> Result<Option<Fills>, AllocError>
    ensures { IfOk result (λ found. SpellsFills (map (λ word. word.now) words.now) found) }
{
    let mut items = Vec::new(alloc);
    let mut rest = words;
    while let [name, word, after @ ..] = rest {
        let Some(left) = bytes(alloc, word)? else {
            return Ok(None);
        };
        let path = String::from_str(alloc, name)?;
        items.push((path, left))?;
        rest = after;
    }
    if !rest.is_empty() {
        return Ok(None);
    }
    Ok(Some(Fills::new(items)))
}

// A wild crash may leave nothing behind what was synced.
fn crash_wild(alloc: Global, words: &[&str]) -> Result<Option<Command>, AllocError>
    ensures { IfOk result (λ found. Spells (codes "crash_wild" ∷ map (λ word. word.now) words.now) found) }
{
    let Some(fills) = fills(alloc, words)? else {
        return Ok(None);
    };
    Ok(Some(Command::CrashWild(fills)))
}

// The command of one word.
fn bare(word: &str) -> Option<Command>
    requires no_batch { word.now ≢ codes "batch" }
    requires no_wild_crash { word.now ≢ codes "crash_wild" }
    ensures { Spells (word.now ∷ []) result }
{
    match word {
        "snapshot" => Some(Command::Ask(Request::Snapshot)),
        "begin" => Some(Command::Ask(Request::Begin)),
        "gc" => Some(Command::Ask(Request::Gc)),
        "persist" => Some(Command::Ask(Request::Persist)),
        "reopen" => Some(Command::Reopen),
        _ => None,
    }
}

// The command of a word and a keyspace's name or a number.
fn with_one(alloc: Global, word: &str, other: &str) -> Result<Option<Command>, AllocError>
    requires no_batch { word.now ≢ codes "batch" }
    requires no_wild_crash { word.now ≢ codes "crash_wild" }
    ensures { IfOk result (λ found. Spells (word.now ∷ other.now ∷ []) found) }
{
    if word == "keyspace" {
        let name = Slice::new(alloc, other.as_bytes())?;
        return Ok(Some(Command::Ask(Request::Keyspace(name))));
    }
    let Some(number) = parse_number(other) else {
        return Ok(None);
    };
    Ok(match word {
        "delete" => Some(Command::Ask(Request::Delete(number))),
        "clear" => Some(Command::Ask(Request::Clear(number))),
        "rotate" => Some(Command::Ask(Request::Rotate(number))),
        "flush" => Some(Command::Ask(Request::Flush(number))),
        "merge" => Some(Command::Ask(Request::Merge(number))),
        "len" => Some(Command::Ask(Request::Len(number))),
        "scan" => Some(Command::Ask(Request::Scan(number))),
        "close_snapshot" => Some(Command::Ask(Request::CloseSnapshot(number))),
        "commit" => Some(Command::Ask(Request::Commit(number))),
        "crash" => Some(Command::Crash(number)),
        _ => None,
    })
}

// The command of a word, a keyspace's id and a key.
fn with_key(alloc: Global, word: &str, id: &str, key: &str) -> Result<Option<Command>, AllocError>
    requires no_batch { word.now ≢ codes "batch" }
    requires no_wild_crash { word.now ≢ codes "crash_wild" }
    ensures { IfOk result (λ found. Spells (word.now ∷ id.now ∷ key.now ∷ []) found) }
{
    let Some((id, key)) = id_and_key(alloc, id, key)? else {
        return Ok(None);
    };
    Ok(match word {
        "remove" => Some(Command::Ask(Request::Remove(id, key))),
        "remove_weak" => Some(Command::Ask(Request::RemoveWeak(id, key))),
        "get" => Some(Command::Ask(Request::Get(id, key))),
        _ => None,
    })
}

// The command of a word and three more.
fn with_three(
    alloc: Global,
    word: &str,
    first: &str,
    second: &str,
    third: &str,
) -> Result<Option<Command>, AllocError>
    requires no_batch { word.now ≢ codes "batch" }
    requires no_wild_crash { word.now ≢ codes "crash_wild" }
    ensures { IfOk result (λ found. Spells (word.now ∷ first.now ∷ second.now ∷ third.now ∷ []) found) }
{
    match word {
        "insert" => insert(alloc, first, second, third),
        "get_at" => get_at(alloc, first, second, third),
        "tx_get" => tx_get(alloc, first, second, third),
        _ => Ok(None),
    }
}

// The command of a word and four more.
fn with_four(
    alloc: Global,
    word: &str,
    first: &str,
    second: &str,
    third: &str,
    fourth: &str,
) -> Result<Option<Command>, AllocError>
    requires no_batch { word.now ≢ codes "batch" }
    requires no_wild_crash { word.now ≢ codes "crash_wild" }
    ensures { IfOk result (λ found. Spells (word.now ∷ first.now ∷ second.now ∷ third.now ∷ fourth.now ∷ []) found) }
{
    match word {
        "tx_insert" => tx_insert(alloc, first, second, third, fourth),
        _ => Ok(None),
    }
}

// The command that these words spell, or none.
fn command(alloc: Global, words: &[&str]) -> Result<Option<Command>, AllocError>
    ensures { IfOk result (λ found. Spells (map (λ word. word.now) words.now) found) }
{
    let Some((word, rest)) = words.split_first() else {
        return Ok(None);
    };
    if *word == "batch" {
        return batch(alloc, rest);
    }
    if *word == "crash_wild" {
        return crash_wild(alloc, rest);
    }
    match rest {
        [] => Ok(bare(word)),
        [other] => with_one(alloc, word, other),
        [id, key] => with_key(alloc, word, id, key),
        [first, second, third] => with_three(alloc, word, first, second, third),
        [first, second, third, fourth] => with_four(alloc, word, first, second, third, fourth),
        _ => Ok(None),
    }
}

/// The command that a line spells, or none. A line that is not UTF-8 spells none.
pub fn parse(alloc: Global, line: &[u8]) -> Result<Option<Command>, AllocError>
    ensures { IfOk result (λ found. ReadsLine line.now found) }
{
    let Ok(text) = str::from_utf8(line) else {
        return Ok(None);
    };
    let words: Vec<&str> = text.split(' ').collect(alloc)?;
    command(alloc, words.as_slice())
}
