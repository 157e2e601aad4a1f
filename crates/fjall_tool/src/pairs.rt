//! The pairs of an input, one a line.

ghost use Rattle.std.specs.Prelude.{◌≡◌, true, false, IfOk, IfSome, None, Ok, OnErr, Some};
ghost use Rattle.fjall_lines.specs.declared.command.Command.TheVariants.{Ask};
ghost use Rattle.fjall_lines.specs.declared.command.Request.TheVariants.{Batch};
ghost use Rattle.fjall_tool.specs.Pairs.{AddsPair, HasNoPair, IsNoPair, SpellItems, SpellsPair, only_pair, writes_of};

use fjall_base::{Result, UserKey, UserValue};
use fjall_lines::{Command, Request, Write, Writes, parse};
use fjall_reading::Ingestion;
use std::alloc::{AllocError, Global};
use std::io::BufRead;

/// A key, and its new value, or none where it is removed.
pub type Pair = (UserKey, Option<UserValue>);

// The writes of a batch, where this is one.
fn writes_of(found: Option<Command>) -> Option<Writes>
    ensures all { result ≡ writes_of found }
    ensures some { IfSome result (λ writes. found ≡ Some (Ask (Batch writes))) }
{
    match found {
        Some(Command::Ask(Request::Batch(writes))) => Some(writes),
        _ => None,
    }
}

// The one write of a batch, where it is one to the keyspace of id 0.
fn only_pair(writes: &[Write]) -> std::result::Result<Option<Pair>, AllocError>
    ensures { IfOk result (λ found. found ≡ only_pair writes.now) }
{
    let Some(((id, key, value), more)) = writes.split_first() else {
        return Ok(None);
    };
    if *id != 0 || !more.is_empty() {
        return Ok(None);
    }
    Ok(Some((key.clone()?, value.clone()?)))
}

/// The pair that a line spells, or none. It is spelled as the one write of a batch is, behind the keyspace's id.
pub fn pair(alloc: Global, line: &[u8]) -> std::result::Result<Option<Pair>, AllocError>
    ensures { IfOk result (λ found. SpellsPair line.now found) }
{
    let mut batch = Vec::new(alloc);
    batch.extend_from_slice(b"batch 0 ")?;
    batch.extend_from_slice(line)?;
    match writes_of(parse(alloc, batch.as_slice())?) {
        Some(writes) => only_pair(writes.as_slice()),
        None => Ok(None),
    }
}

// Adds the pair of a line to a bulk write. It tells whether the line is a pair.
fn add_line(alloc: Global, line: &[u8], ingestion: &mut Ingestion<()>) -> Result<bool>
    ensures added { result ≡ Ok true → AddsPair line.now ingestion.old ingestion.new }
    ensures none { result ≡ Ok false → IsNoPair line.now }
    ensures unchanged { OnErr result (ingestion.new ≡ ingestion.old) }
{
    let Some((key, value)) = pair(alloc, line)? else {
        return Ok(false);
    };
    match value {
        Some(value) => ingestion.write(key, value)?,
        None => ingestion.write_tombstone(key)?,
    }
    Ok(true)
}

/// Reads an input whole, as a bulk write of its pairs, or none where a line is no pair.
///
/// A line ends with a line feed, the last one also with the input. The first line that is no pair, or whose pair a bulk write
/// refuses, ends the reading. Refusals: `KeyEmpty`, `KeyTooLong`, `ValueTooLong`, `KeyOrder`, `OutOfMemory`, `Io`.
pub fn read_pairs<R: BufRead + Drop>(alloc: Global, input: R) -> Result<Option<Ingestion<()>>>
    ensures pairs { IfOk result (λ found. IfSome found (λ ingestion. SpellItems (R.remaining input) ingestion.items)) }
    ensures none { result ≡ Ok None → HasNoPair (R.remaining input) }
{
    let mut ingestion = Ingestion::new(alloc, ());
    for line in input.split(alloc, b'\n') {
        if !add_line(alloc, line?.as_slice(), &mut ingestion)? {
            return Ok(None);
        }
    }
    Ok(Some(ingestion))
}
