//! The text of a batch that is written.

ghost use Rattle.std.specs.Prelude.{◌≡◌, ◌++◌, length, map, take, OnOk, OnErr, IfOk, IsOkUnless, MatchOption, None, Err};
ghost use Rattle.std.specs.List.{AllByRecursion, flat_map};
ghost use Rattle.fjall_base.specs.Limits.{item_refusal};
ghost use Rattle.fjall_journal.specs.Spelling.{spelling};
ghost use Rattle.fjall_journal.specs.Batches.{of_item, item_text, IsChange, IsWritten};
ghost use Rattle.fjall_journal.specs.Ops.{entry_of_item, items_refusal, items_text, of_items};
ghost use Rattle.fjall_journal.specs.Changes.{Emptied, change_text, of_change};

use crate::encoding::{put_clear, put_end, put_start, serialize_marker_item};
use crate::entry::ValueType;
use crate::op::BatchItem;
use fjall_base::{CompressionType, Error, Result, check_item, checksum};

fn put_item_batch(
    out: &mut Vec<u8>,
    keyspace_id: u64,
    key: &[u8],
    value: &[u8],
    value_type: ValueType,
    seqno: u64,
) -> Result<()>
    ensures ok { OnOk result (out.new.items ≡ out.old.items ++ item_text keyspace_id key.now value.now value_type seqno) }
    ensures fits { OnOk result (IsWritten (of_item keyspace_id key.now value.now value_type seqno)) }
    ensures kept { take (length out.old.items) out.new.items ≡ out.old.items }
    ensures only { MatchOption (item_refusal key.now value.now) (IsOkUnless result Error.OutOfMemory) (λ e. result ≡ Err e) }
{
    check_item(key, value)?;
    let before = out.len();
    put_start(out, 1, seqno)?;
    serialize_marker_item(
        out,
        keyspace_id,
        key,
        value,
        value_type,
        CompressionType::None,
    )?;
    let sum = checksum(&out[before..]);
    put_end(out, &sum)
}

/// Adds the text of a batch of one item, and answers its length. An `Err` adds nothing.
pub(crate) fn put_batch(
    out: &mut Vec<u8>,
    keyspace_id: u64,
    key: &[u8],
    value: &[u8],
    value_type: ValueType,
    seqno: u64,
) -> Result<usize>
    ensures ok { OnOk result (out.new.items ≡ out.old.items ++ item_text keyspace_id key.now value.now value_type seqno) }
    ensures fits { OnOk result (IsWritten (of_item keyspace_id key.now value.now value_type seqno)) }
    ensures count { IfOk result (λ n. n ≡ length (item_text keyspace_id key.now value.now value_type seqno)) }
    ensures err { OnErr result (out.new.items ≡ out.old.items) }
    ensures only { MatchOption (item_refusal key.now value.now) (IsOkUnless result Error.OutOfMemory) (λ e. result ≡ Err e) }
{
    let before = out.len();
    if let Err(error) = put_item_batch(out, keyspace_id, key, value, value_type, seqno) {
        out.truncate(before);
        return Err(error);
    }
    Ok(out.len() - before)
}

/// Adds the spellings of these items. An `Err` may have added some of them.
fn put_entries(out: &mut Vec<u8>, items: &[BatchItem]) -> Result<()>
    requires fit { items_refusal items.now ≡ None }
    ensures ok { OnOk result (out.new.items ≡ out.old.items ++ flat_map spelling (map entry_of_item items.now)) }
    ensures each { OnOk result (AllByRecursion IsChange (map entry_of_item items.now)) }
    ensures kept { take (length out.old.items) out.new.items ≡ out.old.items }
    ensures only { IsOkUnless result Error.OutOfMemory }
{
    for item in items {
        serialize_marker_item(
            out,
            item.0,
            &item.1,
            item.2.bytes(),
            item.2.value_type(),
            CompressionType::None,
        )?;
    }
    Ok(())
}

fn put_items_batch(out: &mut Vec<u8>, items: &[BatchItem], seqno: u64) -> Result<()>
    requires fit { items_refusal items.now ≡ None }
    ensures ok { OnOk result (out.new.items ≡ out.old.items ++ items_text items.now seqno) }
    ensures fits { OnOk result (IsWritten (of_items items.now seqno)) }
    ensures kept { take (length out.old.items) out.new.items ≡ out.old.items }
    ensures only { IsOkUnless result Error.OutOfMemory }
{
    let before = out.len();
    put_start(out, items.len() as u32, seqno)?;
    put_entries(out, items)?;
    let sum = checksum(&out[before..]);
    put_end(out, &sum)
}

/// Adds the text of a batch of these items, and answers its length. An `Err` adds nothing.
pub(crate) fn put_items(out: &mut Vec<u8>, items: &[BatchItem], seqno: u64) -> Result<usize>
    requires fit { items_refusal items.now ≡ None }
    ensures ok { OnOk result (out.new.items ≡ out.old.items ++ items_text items.now seqno) }
    ensures fits { OnOk result (IsWritten (of_items items.now seqno)) }
    ensures count { IfOk result (λ n. n ≡ length (items_text items.now seqno)) }
    ensures err { OnErr result (out.new.items ≡ out.old.items) }
    ensures only { IsOkUnless result Error.OutOfMemory }
{
    let before = out.len();
    if let Err(error) = put_items_batch(out, items, seqno) {
        out.truncate(before);
        return Err(error);
    }
    Ok(out.len() - before)
}

fn put_emptying_batch(out: &mut Vec<u8>, keyspace_id: u64, seqno: u64) -> Result<()>
    ensures ok { OnOk result (out.new.items ≡ out.old.items ++ change_text (Emptied keyspace_id) seqno) }
    ensures fits { IsWritten (of_change (Emptied keyspace_id) seqno) }
    ensures kept { take (length out.old.items) out.new.items ≡ out.old.items }
    ensures only { IsOkUnless result Error.OutOfMemory }
{
    let before = out.len();
    put_start(out, 1, seqno)?;
    put_clear(out, keyspace_id)?;
    let sum = checksum(&out[before..]);
    put_end(out, &sum)
}

/// Adds the text of a batch that empties a keyspace, and answers its length. An `Err` adds nothing.
pub(crate) fn put_emptying(out: &mut Vec<u8>, keyspace_id: u64, seqno: u64) -> Result<usize>
    ensures ok { OnOk result (out.new.items ≡ out.old.items ++ change_text (Emptied keyspace_id) seqno) }
    ensures fits { IsWritten (of_change (Emptied keyspace_id) seqno) }
    ensures count { IfOk result (λ n. n ≡ length (change_text (Emptied keyspace_id) seqno)) }
    ensures err { OnErr result (out.new.items ≡ out.old.items) }
    ensures only { IsOkUnless result Error.OutOfMemory }
{
    let before = out.len();
    if let Err(error) = put_emptying_batch(out, keyspace_id, seqno) {
        out.truncate(before);
        return Err(error);
    }
    Ok(out.len() - before)
}
