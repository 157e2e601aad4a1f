//! Shared parts, the oldest first.

ghost use Rattle.std.specs.Prelude.{◌≡◌, ◌-◌, ◌^◌, length, min, IfOk};
ghost use Rattle.std.specs.List.{sum_by};
ghost use Rattle.std.specs.Option.{option_map};
ghost use Rattle.fjall_table.specs.Blocks.{seen};
ghost use Rattle.fjall_memtable.specs.Entries.{size_of};
ghost use Rattle.fjall_memtable.specs.Views.{newest};
ghost use Rattle.fjall_memtable.specs.SortedPages.{barrier};
ghost use Rattle.fjall_memtable.specs.Parts.{AreApart, clears_in, versions_in};
ghost use Rattle.fjall_memtable.specs.Shares.{shared};

use crate::part::Part;
use fjall_table::TableEntry;
use std::alloc::AllocError;
use std::sync::Arc;

// What the newest part that has a version of the key says.
pub(crate) fn newest_of<'a>(
    parts: &'a [Arc<Part>],
    key: &[u8],
    instant: u64,
) -> Result<Option<TableEntry<'a>>, AllocError>
    requires { AreApart (shared parts.now) }
    ensures { IfOk result (λ found. option_map seen found ≡ newest key.now instant (versions_in (shared parts.now))) }
{
    let mut rest = parts;
    while let Some((part, before)) = rest.split_last() {
        if let Some(found) = part.newest(key, instant)? {
            return Ok(Some(found));
        }
        rest = before;
    }
    Ok(None)
}

// What the newest part that has a clear below the instant says.
pub(crate) fn barrier_of(parts: &[Arc<Part>], instant: u64) -> u64
    requires { AreApart (shared parts.now) }
    ensures { result ≡ barrier instant (clears_in (shared parts.now)) }
{
    let mut rest = parts;
    while let Some((part, before)) = rest.split_last() {
        let found = part.barrier(instant);
        if found != 0 {
            return found;
        }
        rest = before;
    }
    0
}

pub(crate) fn len_of(parts: &[Arc<Part>]) -> usize
    ensures { result ≡ min (length (versions_in (shared parts.now))) (2 ^ 64 - 1) }
{
    let mut total = 0usize;
    for part in parts {
        total = total.saturating_add(part.len());
    }
    total
}

pub(crate) fn size_of_all(parts: &[Arc<Part>]) -> u64
    ensures { result ≡ min (sum_by size_of (versions_in (shared parts.now))) (2 ^ 64 - 1) }
{
    let mut total = 0u64;
    for part in parts {
        total = total.saturating_add(part.size());
    }
    total
}
