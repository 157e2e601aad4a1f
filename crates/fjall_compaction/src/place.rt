//! Whether a keyspace's next record has a place: told by counting, before any memory is asked for.

ghost use Rattle.std.specs.Prelude.{◌<◌, ◌+◌, ◌^◌, ◌↔◌, IfErr, IsTrue, OnOk};
ghost use Rattle.fjall_compaction.specs.Room.{IsPlaceRefusal, body_len};

use fjall_base::{Error, Result};

/// How many tables or clears of a keyspace's record stay in the next one, and how many are new there.
#[derive(Clone, Copy)]
pub(crate) struct Counts {
    pub(crate) staying: usize,
    pub(crate) made: usize,
}

/// Whether a record with so many tables and clears has room: four bytes tell the length of its body. The formats page has the layout.
fn has_room(tables: usize, clears: usize) -> bool
    ensures { IsTrue result ↔ body_len tables clears < 2 ^ 32 }
{
    let (Ok(tables), Ok(clears)) = (u32::try_from(tables), u32::try_from(clears)) else {
        return false;
    };
    43 + 25 * u64::from(tables) + 8 * u64::from(clears) < 1 << 32
}

/// Looks whether the next record of a keyspace has a place, whose next table gets this id until then: `TooManyItems` where its length
/// has none, and else `NumbersUsedUp` where no id is left behind its tables. It takes no memory.
pub(crate) fn find_place(next_table_id: u64, tables: Counts, clears: Counts) -> Result<()>
    ensures ok { OnOk result ((body_len (tables.staying + tables.made) (clears.staying + clears.made) < 2 ^ 32) × (next_table_id + tables.made < 2 ^ 64)) }
    ensures refused { IfErr result (IsPlaceRefusal (body_len (tables.staying + tables.made) (clears.staying + clears.made)) (next_table_id + tables.made)) }
{
    let table_count = tables.staying.saturating_add(tables.made);
    let clear_count = clears.staying.saturating_add(clears.made);
    if !has_room(table_count, clear_count) {
        return Err(Error::TooManyItems);
    }
    match next_table_id.checked_add(tables.made as u64) {
        Some(_) => Ok(()),
        None => Err(Error::NumbersUsedUp),
    }
}
