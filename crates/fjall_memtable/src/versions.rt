//! Some versions of a memtable, from either end.

ghost use Rattle.std.specs.Prelude.{◌≡◌, ◌++◌, ◌+◌, ◌≤◌, [], ◌∷◌, length, take, drop, MatchOption};
ghost use Rattle.std.specs.Option.{option_map};
ghost use Rattle.fjall_table.specs.Blocks.{seen};
ghost use Rattle.fjall_memtable.specs.Places.{key_at, value_at, end_of};

use crate::place::Place;
use crate::version_key::VersionKey;
use fjall_table::TableEntry;
use std::collections::btree_map::Range;
use std::marker::Model;

/// Versions of a memtable that stand one behind another. Contracts see the entries that are left.
#[derive(Drop)]
pub struct Versions<'a> {
    pub(crate) text: &'a [u8],
    pub(crate) range: Range<'a, VersionKey, Place>,
}

impl<'a> Model for Versions<'a> {
    ghost use Rattle.std.specs.Prelude.{List, map};
    ghost use Rattle.std.specs.List.{AllByRecursion};
    ghost use Rattle.fjall_table.specs.Blocks.{Entry};
    ghost use Rattle.fjall_memtable.specs.Places.{entry_at_place, IsPlaced};

    ghost Value = { List Entry };

    ghost view = { λ v. map (entry_at_place v.text.now) v.range };

    ghost invariant = { λ v. AllByRecursion (IsPlaced v.text.now) v.range };
}

pub(crate) fn key_in<'a>(text: &'a [u8], place: &Place) -> &'a [u8]
    requires { end_of place.now ≤ length text.now }
    ensures { result.now ≡ key_at text.now place.now }
{
    let start = place.at;
    &text[start..start + place.key_len as usize]
}

pub(crate) fn value_in<'a>(text: &'a [u8], place: &Place) -> Option<&'a [u8]>
    requires { end_of place.now ≤ length text.now }
    ensures { option_map (λ v. v.now) result ≡ value_at text.now place.now }
{
    if !place.is_value {
        return None;
    }
    let start = place.at + place.key_len as usize;
    Some(&text[start..start + place.value_len as usize])
}

impl<'a> Versions<'a> {
    /// The first version that is left.
    pub fn next(&mut self) -> Option<TableEntry<'a>>
        ensures { MatchOption result ((self.old ≡ []) × (self.new ≡ [])) (λ v. self.old ≡ seen v ∷ self.new) }
    {
        let (key, place) = self.range.next()?;
        Some(TableEntry {
            key: key_in(self.text, place),
            number: key.number(),
            value: value_in(self.text, place),
        })
    }

    /// The last version that is left.
    pub fn next_back(&mut self) -> Option<TableEntry<'a>>
        ensures { MatchOption result ((self.old ≡ []) × (self.new ≡ [])) (λ v. self.old ≡ self.new ++ seen v ∷ []) }
    {
        let (key, place) = self.range.next_back()?;
        Some(TableEntry {
            key: key_in(self.text, place),
            number: key.number(),
            value: value_in(self.text, place),
        })
    }
}
