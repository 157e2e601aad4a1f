//! Look-ups of a key in all tables, and of the barrier.

ghost use Rattle.std.specs.Prelude.{◌≡◌, ⊤, List, IfOk, IfErr, IsOkUnless, IsTrue, Some};
ghost use Rattle.std.specs.Option.{option_map};
ghost use Rattle.fjall_base.specs.Pairs.{Bytes};
ghost use Rattle.fjall_table.specs.Blocks.{Entry, seen};
ghost use Rattle.fjall_table_reader.specs.Files.{IsRefused};
ghost use Rattle.fjall_memtable.specs.Views.{later, newest};
ghost use Rattle.fjall_memtable.specs.SortedPages.{barrier};
ghost use Rattle.fjall_memtable.specs.Sorted.{flat};
ghost use Rattle.fjall_table_reader.specs.Finds.{IsFound, entry_found};
ghost use Rattle.fjall_table_reader.specs.Readers.{AreRead, AreSameTables, LooksOn, SomeTableIsWrongFor};
ghost use Rattle.fjall_memtable.specs.Parts.{Ascends};
ghost use Rattle.fjall_tree.specs.Trees.{value_from};

use fjall_base::{Disk, Error, Result, Slice, UserValue};
use fjall_table::TableEntry;
use fjall_table_reader::{Found, TableReader};
use std::alloc::Global;

// The greatest of ascending numbers that is below an instant, or 0.
pub(crate) fn greatest_below(numbers: &[u64], instant: u64) -> u64
    requires { Ascends numbers.now }
    ensures { result ≡ barrier instant numbers.now }
{
    match numbers.partition_point(|number| *number < instant) {
        0 => 0,
        count => numbers[count - 1],
    }
}

// Of two versions of a key the one of greater number, and of equal numbers the second.
fn later(first: Option<Found>, second: Option<Found>) -> Option<Found>
    ensures { (key : Bytes) → option_map (entry_found key) result ≡ later (option_map (entry_found key) first) (option_map (entry_found key) second) }
{
    match first {
        None => second,
        Some(first) => match second {
            None => Some(first),
            Some(second) => {
                if second.number < first.number {
                    Some(first)
                } else {
                    Some(second)
                }
            }
        },
    }
}

// The newest version of a key in all tables that is numbered below an instant.
pub(crate) fn newest_in<D: Disk>(
    tables: &mut [TableReader],
    alloc: Global,
    disk: &mut D,
    key: &[u8],
    instant: u64,
) -> Result<Option<Found>>
    ensures found { IsTrue D.honest → (entries : List (List Entry)) → AreRead (D.meaning disk.old) tables.old entries → IfOk result (λ f. IsFound key.now f (newest key.now instant (flat entries))) }
    ensures reads { IsTrue D.honest → (entries : List (List Entry)) → AreRead (D.meaning disk.old) tables.old entries → AreRead (D.meaning disk.new) tables.new entries }
    ensures refused { IsTrue D.honest → (entries : List (List Entry)) → AreRead (D.meaning disk.old) tables.old entries
        → IfErr result (IsRefused (SomeTableIsWrongFor key.now (D.meaning disk.old) tables.old) (D.meaning disk.old).faults (D.meaning disk.new).faults) }
    ensures tables { AreSameTables tables.old tables.new }
    ensures disk { LooksOn D.honest (D.meaning disk.old) (D.meaning disk.new) }
    ensures listed { IfErr result (IsRefused ⊤ (D.meaning disk.old).faults (D.meaning disk.new).faults) }
{
    let mut newest = None;
    for at in 0..tables.len() {
        let found = tables[at].find(alloc, disk, key, instant)?;
        newest = later(newest, found);
    }
    Ok(newest)
}

// A copy of the value that an entry in memory gives; None where it removed the key, or lies below the bound.
pub(crate) fn value_of(
    alloc: Global,
    entry: &TableEntry<'_>,
    bound: u64,
) -> Result<Option<UserValue>>
    ensures value { IfOk result (λ value. value ≡ value_from bound (Some (seen entry.now))) }
    ensures only { IsOkUnless result Error.OutOfMemory }
{
    if entry.number < bound {
        return Ok(None);
    }
    match entry.value {
        Some(value) => Ok(Some(Slice::new(alloc, value)?)),
        None => Ok(None),
    }
}

// The value that was found in a table; None where the key was removed there, or the version lies below the bound.
pub(crate) fn value_found(found: Option<Found>, bound: u64) -> Option<UserValue>
    ensures { (key : Bytes) → result ≡ value_from bound (option_map (entry_found key) found) }
{
    match found {
        Some(version) => {
            if version.number < bound {
                None
            } else {
                version.value
            }
        }
        None => None,
    }
}
