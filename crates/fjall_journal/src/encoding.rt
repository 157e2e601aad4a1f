//! An entry as bytes.

ghost use Rattle.std.specs.Prelude.{◌≡◌, ◌++◌, OnOk, OnErr, IsOkUnless, MatchOption, Err};
ghost use Rattle.fjall_base.specs.Limits.{item_refusal};
ghost use Rattle.fjall_journal.specs.Spelling.{item_header, spelling, refusal, HasSpelling};

use crate::entry::{Entry, MAGIC_BYTES, Tag, ValueType};
use byteorder::{ByteOrder, LittleEndian};
use fjall_base::{CompressionType, Error, Result, check_item};

fn header_of(
    value_type: ValueType,
    compression: CompressionType,
    keyspace_id: u64,
    key_len: u16,
    value_len: u32,
) -> [u8; 21]
    ensures { result ≡ item_header value_type compression keyspace_id key_len value_len }
{
    let mut header = [0u8; 21];
    header[0] = Tag::Item.into();
    header[1] = value_type.into();
    header[2] = compression as u8;
    LittleEndian::write_u64(&mut header[3..], keyspace_id);
    LittleEndian::write_u16(&mut header[11..], key_len);
    LittleEndian::write_u32(&mut header[13..], value_len);
    LittleEndian::write_u32(&mut header[17..], value_len);
    header
}

/// Adds the spelling of an item. An `Err` adds nothing.
#[tactic(auto, unfolding(crate::specs::Spelling::spelling))]
pub fn serialize_marker_item(
    out: &mut Vec<u8>,
    keyspace_id: u64,
    key: &[u8],
    value: &[u8],
    value_type: ValueType,
    compression: CompressionType,
) -> Result<()>
    ensures ok { OnOk result (out.new.items ≡ out.old.items ++ spelling (Entry.Item keyspace_id key.now value.now value_type compression)) }
    ensures fits { OnOk result (HasSpelling (Entry.Item keyspace_id key.now value.now value_type compression)) }
    ensures err { OnErr result (out.new.items ≡ out.old.items) }
    ensures refused { MatchOption (item_refusal key.now value.now) (IsOkUnless result Error.OutOfMemory) (λ e. result ≡ Err e) }
{
    check_item(key, value)?;
    let header = header_of(
        value_type,
        compression,
        keyspace_id,
        key.len() as u16,
        value.len() as u32,
    );
    out.reserve(21 + key.len() + value.len())?;
    out.extend_from_slice(&header)?;
    out.extend_from_slice(key)?;
    out.extend_from_slice(value)?;
    Ok(())
}

#[tactic(auto, unfolding(crate::specs::Spelling::spelling))]
pub(crate) fn put_start(out: &mut Vec<u8>, item_count: u32, seqno: u64) -> Result<()>
    ensures ok { OnOk result (out.new.items ≡ out.old.items ++ spelling (Entry.Start item_count seqno)) }
    ensures err { OnErr result (out.new.items ≡ out.old.items) }
    ensures only { IsOkUnless result Error.OutOfMemory }
{
    let mut bytes = [0u8; 13];
    bytes[0] = Tag::Start.into();
    LittleEndian::write_u32(&mut bytes[1..], item_count);
    LittleEndian::write_u64(&mut bytes[5..], seqno);
    out.extend_from_slice(&bytes)?;
    Ok(())
}

#[tactic(auto, unfolding(crate::specs::Spelling::spelling))]
pub(crate) fn put_end(out: &mut Vec<u8>, check: &[u8; 8]) -> Result<()>
    ensures ok { OnOk result (out.new.items ≡ out.old.items ++ spelling (Entry.End check.now)) }
    ensures fits { HasSpelling (Entry.End check.now) }
    ensures err { OnErr result (out.new.items ≡ out.old.items) }
    ensures only { IsOkUnless result Error.OutOfMemory }
{
    if out.reserve(13).is_err()
        || out.push(Tag::End.into()).is_err()
        || out.extend_from_slice(check).is_err()
        || out.extend_from_slice(&MAGIC_BYTES).is_err()
    {
        return Err(Error::OutOfMemory);
    }
    Ok(())
}

#[tactic(auto, unfolding(crate::specs::Spelling::spelling))]
pub(crate) fn put_clear(out: &mut Vec<u8>, keyspace_id: u64) -> Result<()>
    ensures ok { OnOk result (out.new.items ≡ out.old.items ++ spelling (Entry.Clear keyspace_id)) }
    ensures err { OnErr result (out.new.items ≡ out.old.items) }
    ensures only { IsOkUnless result Error.OutOfMemory }
{
    let mut bytes = [0u8; 9];
    bytes[0] = Tag::Clear.into();
    LittleEndian::write_u64(&mut bytes[1..], keyspace_id);
    out.extend_from_slice(&bytes)?;
    Ok(())
}

impl Entry {
    /// Adds the spelling of the entry. An `Err` adds nothing.
    pub fn encode_into(&self, out: &mut Vec<u8>) -> Result<()>
        ensures ok { OnOk result (out.new.items ≡ out.old.items ++ spelling self.now) }
        ensures fits { OnOk result (HasSpelling self.now) }
        ensures err { OnErr result (out.new.items ≡ out.old.items) }
        ensures refused { MatchOption (refusal self.now) (IsOkUnless result Error.OutOfMemory) (λ e. result ≡ Err e) }
    {
        match self {
            Entry::Start { item_count, seqno } => put_start(out, *item_count, *seqno),
            Entry::Item {
                keyspace_id,
                key,
                value,
                value_type,
                compression,
            } => serialize_marker_item(out, *keyspace_id, key, value, *value_type, *compression),
            Entry::End(check) => put_end(out, check),
            Entry::Clear { keyspace_id } => put_clear(out, *keyspace_id),
        }
    }
}
