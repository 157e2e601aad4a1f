//! The batches of journals, replayed beyond what files hold.

ghost use Rattle.std.specs.Prelude.{◌≡◌, ◌<◌, ◌^◌, All, None, OnOk};
ghost use Rattle.std.specs.Option.{option_map};
ghost use Rattle.fjall_journal.specs.Batches.{view};
ghost use Rattle.fjall_replay.specs.Beside.{BeginBy};
ghost use Rattle.fjall_replay.specs.Replayed.{MayReplay};
ghost use Rattle.fjall_replay.specs.Steps.{with_batch, with_clears, with_item, with_items};
ghost use Rattle.fjall_table.specs.Blocks.{IsEntry};
ghost use Rattle.fjall_trees.specs.Views.{forest_of};
ghost use Rattle.fjall_meta.specs.Replays.{counts_unpersisted, value_of};
ghost use Rattle.fjall_meta.specs.Views.{entry_of};

use crate::counting::counts_unpersisted;
use fjall_journal::{Batch, ReadBatchItem, ValueType};
use fjall_meta::{MetaKeyspace, PersistedNumbers};
use fjall_trees::Trees;
use std::alloc::AllocError;

/// What an item makes of its key.
fn value_of(item: &ReadBatchItem) -> Option<&[u8]>
    ensures { option_map (λ v. v.now) result ≡ value_of item.now.value_type item.now.value }
{
    match item.value_type {
        ValueType::Value => Some(item.value.as_slice()),
        ValueType::Tombstone | ValueType::WeakTombstone | ValueType::Indirection => None,
    }
}

/// Gives a tree the version that an item makes, where it counts.
fn put_item(
    keyspaces: &MetaKeyspace,
    persisted: &PersistedNumbers,
    number: u64,
    item: &ReadBatchItem,
    trees: &mut Trees,
) -> Result<(), AllocError>
    requires fits { IsEntry (entry_of number item.now) }
    requires small { number < 2 ^ 63 }
    requires begun { BeginBy (counts_unpersisted keyspaces.now persisted.now number) number (forest_of trees.old) }
    ensures { OnOk result (forest_of trees.new ≡ with_item (counts_unpersisted keyspaces.now persisted.now number) number item.now (forest_of trees.old)) }
{
    if !counts_unpersisted(keyspaces, persisted, number, item.keyspace_id) {
        return Ok(());
    }
    trees.put(
        item.keyspace_id,
        item.key.as_slice(),
        number,
        value_of(item),
    )
}

/// Gives the trees the versions that the items make, from the last item to the first: of a key the last one counts.
fn put_items(
    keyspaces: &MetaKeyspace,
    persisted: &PersistedNumbers,
    number: u64,
    items: &[ReadBatchItem],
    trees: &mut Trees,
) -> Result<(), AllocError>
    requires fits { All (λ item. IsEntry (entry_of number item)) items.now }
    requires small { number < 2 ^ 63 }
    requires begun { BeginBy (counts_unpersisted keyspaces.now persisted.now number) number (forest_of trees.old) }
    ensures { OnOk result (forest_of trees.new ≡ with_items (counts_unpersisted keyspaces.now persisted.now number) number items.now (forest_of trees.old)) }
{
    let mut rest = items;
    while let Some((item, before)) = rest.split_last() {
        put_item(keyspaces, persisted, number, item, trees)?;
        rest = before;
    }
    Ok(())
}

/// Empties the trees of these ids, as far as it counts for them.
fn clear_trees(
    keyspaces: &MetaKeyspace,
    persisted: &PersistedNumbers,
    number: u64,
    ids: &[u64],
    trees: &mut Trees,
) -> Result<(), AllocError>
    requires small { number < 2 ^ 63 }
    requires begun { BeginBy (counts_unpersisted keyspaces.now persisted.now number) number (forest_of trees.old) }
    ensures { OnOk result (forest_of trees.new ≡ with_clears (counts_unpersisted keyspaces.now persisted.now number) number ids.now (forest_of trees.old)) }
{
    for id in ids {
        if counts_unpersisted(keyspaces, persisted, number, *id) {
            trees.clear_once(*id, number)?;
        }
    }
    Ok(())
}

/// Applies one batch more: its clears, and then its items.
pub(crate) fn take(
    keyspaces: &MetaKeyspace,
    persisted: &PersistedNumbers,
    batch: &Batch,
    trees: &mut Trees,
) -> Result<(), AllocError>
    requires fits { MayReplay (view batch.now) }
    requires begun { BeginBy (counts_unpersisted keyspaces.now persisted.now batch.now.seqno) batch.now.seqno (forest_of trees.old) }
    ensures { OnOk result (forest_of trees.new ≡ with_batch (counts_unpersisted keyspaces.now persisted.now batch.now.seqno) (view batch.now) (forest_of trees.old)) }
{
    let number = batch.seqno;
    clear_trees(
        keyspaces,
        persisted,
        number,
        &batch.cleared_keyspaces,
        trees,
    )?;
    put_items(keyspaces, persisted, number, &batch.items, trees)
}
