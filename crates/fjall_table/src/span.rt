//! Which blocks of an index may hold a key.

ghost use Rattle.std.specs.Prelude.{◌≡◌, ◌-◌, map};
ghost use Rattle.fjall_table.specs.Tables.{Ascend};
ghost use Rattle.fjall_table.specs.TableReading.{blocks_below, blocks_up_to};
ghost use Rattle.fjall_table.specs.Owned.{owned_handle};

use crate::owned_handle::OwnedHandle;
use crate::sought::Sought;
use std::ops::Range;

// How many blocks begin with a key below this one, by binary search.
fn count_below(handles: &[OwnedHandle], sought: &Sought<'_>) -> usize
    requires { Ascend (map owned_handle handles.now) }
    ensures { result ≡ blocks_below sought.now.key.now (map owned_handle handles.now) }
{
    handles.partition_point(|h| h.is_below(sought))
}

// How many begin with one at most this one, where so many begin with one below it. Mostly these are all.
fn count_up_to(handles: &[OwnedHandle], sought: &Sought<'_>, below: usize) -> usize
    requires ascend { Ascend (map owned_handle handles.now) }
    requires below { below ≡ blocks_below sought.now.key.now (map owned_handle handles.now) }
    ensures { result ≡ blocks_up_to sought.now.key.now (map owned_handle handles.now) }
{
    if below >= handles.len() {
        return below;
    }
    if !handles[below].is_at_most(sought) {
        return below;
    }
    handles.partition_point(|h| h.is_at_most(sought))
}

/// The numbers of the blocks that may hold a key: from the last one that begins with a key below it, if there is one, to
/// the last one that begins with a key at most it.
pub fn span_of(handles: &[OwnedHandle], key: &[u8]) -> Range<usize>
    requires { Ascend (map owned_handle handles.now) }
    ensures start { result.start ≡ blocks_below key.now (map owned_handle handles.now) - 1 }
    ensures end { result.end ≡ blocks_up_to key.now (map owned_handle handles.now) }
{
    let sought = Sought::new(key);
    let below = count_below(handles, &sought);
    below.saturating_sub(1)..count_up_to(handles, &sought, below)
}
