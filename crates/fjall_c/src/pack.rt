//! Pairs as bytes one behind another.

ghost use Rattle.std.specs.Prelude.{ℕ, ◌≡◌, ◌+◌, ◌<◌, ◌≤◌, ◌++◌, IfNone, IfSome, drop, length, take};
ghost use Rattle.fjall_c.specs.Answers.{Packs, pair_bytes};

use crate::reads::Page;
use fjall_base::KvPair;

// Puts bytes into a room, from this place on.
fn put_at(room: &mut [u8], at: usize, bytes: &[u8])
    requires { at + length bytes.now ≤ length room.old }
    ensures front { take (at + length bytes.now) room.new ≡ take at room.old ++ bytes.now }
    ensures behind { (n : ℕ) → at + length bytes.now ≤ n → drop n room.new ≡ drop n room.old }
{
    room[at..at + bytes.len()].copy_from_slice(bytes);
}

// Puts a pair into a room, from this place on, where it has place for it, and tells where it ends.
fn put_pair(room: &mut [u8], at: usize, key: &[u8], value: &[u8]) -> Option<usize>
    requires { at ≤ length room.old }
    ensures end { IfSome result (λ end. (end ≡ at + length (pair_bytes (key.now, value.now))) × (end ≤ length room.old)) }
    ensures front { IfSome result (λ end. take end room.new ≡ take at room.old ++ pair_bytes (key.now, value.now)) }
    ensures behind { IfSome result (λ end. (n : ℕ) → end ≤ n → drop n room.new ≡ drop n room.old) }
    ensures none { IfNone result ((room.new ≡ room.old) × (length room.old < at + length (pair_bytes (key.now, value.now)))) }
{
    let free = room.len() - at;
    if free < 16 || free - 16 < key.len() || free - 16 - key.len() < value.len() {
        return None;
    }
    let behind = at + 16 + key.len();
    put_at(room, at, &(key.len() as u64).to_le_bytes());
    put_at(room, at + 8, &(value.len() as u64).to_le_bytes());
    put_at(room, at + 16, key);
    put_at(room, behind, value);
    Some(behind + value.len())
}

/// Packs the first of these pairs, as many as there is room for, at the beginning of `room`. Behind them it stays as it was.
pub(crate) fn pack_pairs(pairs: &[KvPair], room: &mut [u8]) -> Page
    ensures { Packs pairs.now room.old room.new result }
{
    let mut page = Page { count: 0, len: 0 };
    for (key, value) in pairs {
        let Some(len) = put_pair(room, page.len, key.as_slice(), value.as_slice()) else {
            return page;
        };
        page = Page {
            count: page.count + 1,
            len,
        };
    }
    page
}
