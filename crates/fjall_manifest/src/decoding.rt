//! A record from bytes.

ghost use Rattle.std.specs.Prelude.{◌≡◌, ◌<◌, ◌^◌, length, IfOk, IfErr};
ghost use Rattle.fjall_base.specs.declared.error.StorageError.TheVariants.{RecordDamaged};
ghost use Rattle.fjall_base.specs.Fields.{ShowsRead, number_at, many_at};
ghost use Rattle.fjall_table.specs.Reading.{Gives, DamagedWhere};
ghost use Rattle.fjall_manifest.specs.Records.{view, level_of, optional_at, table_at, numbers_at, body_of, body, IsRecord, IsNoBody};

use crate::record::{Numbers, Record};
use fjall_base::{Error, Result, StorageError, u8_of, u32_of, u64_of};
use fjall_table::{Level, TableInfo};
use std::alloc::Global;

const DAMAGED: Error = Error::Storage(StorageError::RecordDamaged);

#[tactic(auto, unfolding(crate::specs::Records::optional_at))]
fn optional_of(bytes: &[u8]) -> Option<(Option<u64>, &[u8])>
    ensures { ShowsRead (λ x. (x.0, x.1.now)) result (optional_at bytes.now) }
{
    let Some((flag, rest)) = u8_of(bytes) else {
        return None;
    };
    let Some((number, rest)) = u64_of(rest) else {
        return None;
    };
    match (flag, number) {
        (1, number) => Some((Some(number), rest)),
        (0, 0) => Some((None, rest)),
        _ => None,
    }
}

fn level_named(b: u8) -> Option<Level>
    ensures { result ≡ level_of b }
{
    match b {
        0 => Some(Level::L0),
        1 => Some(Level::L1),
        _ => None,
    }
}

#[tactic(auto, unfolding(crate::specs::Records::table_at))]
fn table_of(bytes: &[u8]) -> Option<(TableInfo, &[u8])>
    ensures { ShowsRead (λ x. (x.0, x.1.now)) result (table_at bytes.now) }
{
    let Some((id, rest)) = u64_of(bytes) else {
        return None;
    };
    let Some((level, rest)) = u8_of(rest) else {
        return None;
    };
    let Some(level) = level_named(level) else {
        return None;
    };
    let Some((file_len, rest)) = u64_of(rest) else {
        return None;
    };
    let Some((entry_count, rest)) = u64_of(rest) else {
        return None;
    };
    let table = TableInfo {
        id,
        level,
        file_len,
        entry_count,
    };
    Some((table, rest))
}

/// That many tables. Their count isn't trusted: memory grows with what was read.
fn tables_of(alloc: Global, count: u32, bytes: &[u8]) -> Result<(Vec<TableInfo>, &[u8])>
    ensures { Gives RecordDamaged (λ x. (x.0.items, x.1.now)) result (many_at table_at count bytes.now) }
{
    let mut tables = Vec::new(alloc);
    let mut rest = bytes;
    for _ in 0..count {
        let Some((table, after)) = table_of(rest) else {
            return Err(DAMAGED);
        };
        tables.push(table)?;
        rest = after;
    }
    Ok((tables, rest))
}

fn clears_of(alloc: Global, count: u32, bytes: &[u8]) -> Result<(Vec<u64>, &[u8])>
    ensures { Gives RecordDamaged (λ x. (x.0.items, x.1.now)) result (many_at (number_at 8) count bytes.now) }
{
    let mut clears = Vec::new(alloc);
    let mut rest = bytes;
    for _ in 0..count {
        let Some((clear, after)) = u64_of(rest) else {
            return Err(DAMAGED);
        };
        clears.push(clear)?;
        rest = after;
    }
    Ok((clears, rest))
}

#[tactic(auto, unfolding(crate::specs::Records::numbers_at))]
fn numbers_of(bytes: &[u8]) -> Option<(Numbers, &[u8])>
    ensures { ShowsRead (λ x. (x.0, x.1.now)) result (numbers_at bytes.now) }
{
    let Some((1, rest)) = u8_of(bytes) else {
        return None;
    };
    let Some((persisted, rest)) = optional_of(rest) else {
        return None;
    };
    let Some((highest, rest)) = optional_of(rest) else {
        return None;
    };
    let Some((next_table_id, rest)) = u64_of(rest) else {
        return None;
    };
    let Some((next_keyspace_id, rest)) = u64_of(rest) else {
        return None;
    };
    let numbers = Numbers {
        persisted,
        highest,
        next_table_id,
        next_keyspace_id,
    };
    Some((numbers, rest))
}

#[tactic(auto, unfolding(crate::specs::Records::body_of))]
fn parse_body(alloc: Global, bytes: &[u8]) -> Result<Record>
    ensures { Gives RecordDamaged view result (body_of bytes.now) }
{
    let Some((numbers, rest)) = numbers_of(bytes) else {
        return Err(DAMAGED);
    };
    let Some((table_count, rest)) = u32_of(rest) else {
        return Err(DAMAGED);
    };
    let (tables, rest) = tables_of(alloc, table_count, rest)?;
    let Some((clear_count, rest)) = u32_of(rest) else {
        return Err(DAMAGED);
    };
    let (clears, rest) = clears_of(alloc, clear_count, rest)?;
    if !rest.is_empty() {
        return Err(DAMAGED);
    }
    Ok(Record {
        persisted: numbers.persisted,
        highest: numbers.highest,
        next_table_id: numbers.next_table_id,
        next_keyspace_id: numbers.next_keyspace_id,
        tables,
        clears,
    })
}

/// The record that a body spells.
pub(crate) fn record_of(alloc: Global, payload: &[u8]) -> Result<Record>
    ensures is { IfOk result (λ r. length payload.now < 2 ^ 32 → IsRecord (view r) × (payload.now ≡ body (view r))) }
    ensures damaged { IfErr result (DamagedWhere RecordDamaged (IsNoBody payload.now)) }
{
    let record = parse_body(alloc, payload)?;
    if !record.is_consistent(alloc)? {
        return Err(DAMAGED);
    }
    Ok(record)
}
