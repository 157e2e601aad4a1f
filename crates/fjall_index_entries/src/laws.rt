//! Laws of entries and of the index of a map, each the contract of a function that does nothing.

ghost use Rattle.std.specs.Prelude.{◌≡◌, [], Option, Some};
ghost use Rattle.std.specs.FinMap.{empty, len};
ghost use Rattle.std.specs.Ordering.{ordering_then};
ghost use Rattle.std.specs.Str.{bytes_eq};
ghost use Rattle.fjall_base.specs.Pairs.{Bytes, Pairs, altered, byte_order, is_within, lookup, pairs_between};
ghost use Rattle.fjall_index_entries.specs.Entries.{entry, range_of};
ghost use Rattle.fjall_index_entries.specs.Index.{FieldOf, IsEntry, count_in, entries_of, field_in, found_in, index_of, with_entry, without_entry};

/// Entries are in the order of their fields, then of their keys. So no two fields and keys have the same entry.
pub fn entries_are_ordered()
    ensures { (f g k l : Bytes) → byte_order (entry f k) (entry g l) ≡ ordering_then (byte_order f g) (byte_order k l) }
{}

/// In the range of a field lie its entries, and none of another field.
pub fn entries_lie_in_ranges()
    ensures { (f g key : Bytes) → is_within (range_of f) (entry g key) ≡ bytes_eq f g }
{}

/// The index of a map has just the entries of its pairs that have a field, each with an empty value, and is the only map that
/// does. So that of a map without pairs has none.
pub fn the_index_has_the_entries()
    ensures only { (field : FieldOf) (map : Pairs) (bytes value : Bytes) → lookup (index_of field map) bytes ≡ Some value → (value ≡ []) × IsEntry field map bytes }
    ensures all { (field : FieldOf) (map : Pairs) (bytes : Bytes) → IsEntry field map bytes → lookup (index_of field map) bytes ≡ Some [] }
    ensures no_other { (field : FieldOf) (map index : Pairs) → ((bytes value : Bytes) → lookup index bytes ≡ Some value → (value ≡ []) × IsEntry field map bytes)
        → ((bytes : Bytes) → IsEntry field map bytes → lookup index bytes ≡ Some []) → index ≡ index_of field map }
    ensures none { (field : FieldOf) → index_of field empty ≡ empty }
{}

/// The index of a map has as many pairs as the map has pairs with a field. So a map that has all their entries, each with an
/// empty value, and no more pairs than that, is the index.
pub fn an_index_is_counted()
    ensures many { (field : FieldOf) (map : Pairs) → len (index_of field map) ≡ count_in field map }
    ensures all { (field : FieldOf) (map index : Pairs) → ((bytes : Bytes) → IsEntry field map bytes → lookup index bytes ≡ Some [])
        → len index ≡ count_in field map → index ≡ index_of field map }
{}

/// In the range of a field the index has just the entries of the pairs that have the field, in the order of their keys.
pub fn a_range_finds_the_field()
    ensures { (field : FieldOf) (wanted : Bytes) (map : Pairs) → pairs_between (range_of wanted) (index_of field map) ≡ entries_of wanted (found_in field wanted map) }
{}

/// A key that gets a value, or loses it, takes at most one entry from the index and gives it at most one.
pub fn the_index_changes_by_two_entries()
    ensures { (field : FieldOf) (map : Pairs) (key : Bytes) (new : Option Bytes) → index_of field (altered map key new)
        ≡ with_entry key (field_in field key new) (without_entry key (field_in field key (lookup map key)) (index_of field map)) }
{}

/// Where the field of a key stays the same, the index does.
pub fn the_index_stays()
    ensures { (field : FieldOf) (map : Pairs) (key : Bytes) (new : Option Bytes) → field_in field key new ≡ field_in field key (lookup map key)
        → index_of field (altered map key new) ≡ index_of field map }
{}
