//! Whether the fields of a record agree.

ghost use Rattle.std.specs.Prelude.{◌≡◌, ◌≢◌, ◌<◌, ◌^◌, ◌↔◌, map, IsTrue, IfOk, IfSome, All, AllPairs, IsOkUnless};
ghost use Rattle.std.specs.List.Sorted.{IsStrictlyIncreasing};
ghost use Rattle.fjall_manifest.specs.Records.{view, IsConsistent};

use crate::record::Record;
use fjall_base::{Error, Result};
use fjall_table::TableInfo;
use std::alloc::Global;
use std::collections::HashSet;

/// Numbers of changes end here.
const NUMBER_LIMIT: u64 = 1 << 63;

fn is_number(number: Option<u64>) -> bool
    ensures { IsTrue result ↔ IfSome number (λ n. n < 2 ^ 63) }
{
    match number {
        Some(number) => number < NUMBER_LIMIT,
        None => true,
    }
}

fn are_numbers(numbers: &[u64]) -> bool
    ensures { IsTrue result ↔ All (λ n. n < 2 ^ 63) numbers.now }
{
    numbers.iter().all(|n| *n < NUMBER_LIMIT)
}

fn are_ascending(numbers: &[u64]) -> bool
    ensures { IsTrue result ↔ IsStrictlyIncreasing numbers.now }
{
    for i in 1..numbers.len() {
        if numbers[i - 1] >= numbers[i] {
            return false;
        }
    }
    true
}

fn are_below(tables: &[TableInfo], next_table_id: u64) -> bool
    ensures { IsTrue result ↔ All (λ t. t.id < next_table_id) tables.now }
{
    tables.iter().all(|t| t.id < next_table_id)
}

fn are_different(alloc: Global, numbers: &[u64]) -> Result<bool>
    ensures gives { IfOk result (λ b. IsTrue b ↔ AllPairs (λ x y. x ≢ y) numbers.now) }
    ensures only { IsOkUnless result Error.OutOfMemory }
{
    let set: HashSet<u64> = numbers.iter().copied().collect(alloc)?;
    Ok(set.len() == numbers.len())
}

fn ids_of(alloc: Global, tables: &[TableInfo]) -> Result<Vec<u64>>
    ensures gives { IfOk result (λ ids. ids.items ≡ map (λ t. t.id) tables.now) }
    ensures only { IsOkUnless result Error.OutOfMemory }
{
    let ids = tables.iter().map(|t| t.id).collect(alloc)?;
    Ok(ids)
}

impl Record {
    pub(crate) fn is_consistent(&self, alloc: Global) -> Result<bool>
        ensures gives { IfOk result (λ b. IsTrue b ↔ IsConsistent (view self.now)) }
        ensures only { IsOkUnless result Error.OutOfMemory }
    {
        let agrees = is_number(self.persisted)
            && is_number(self.highest)
            && are_below(&self.tables, self.next_table_id)
            && are_numbers(&self.clears)
            && are_ascending(&self.clears);
        let ids = ids_of(alloc, &self.tables)?;
        Ok(agrees && are_different(alloc, &ids)?)
    }
}
