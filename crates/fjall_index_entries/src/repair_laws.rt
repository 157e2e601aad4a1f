//! Laws of what repairs an index, each the contract of a function that does nothing.

ghost use Rattle.std.specs.Prelude.{◌≡◌, ◌≢◌, ◌↔◌, [], ℕ, List, Some};
ghost use Rattle.std.specs.FinMap.{FinMap};
ghost use Rattle.std.specs.Ordering.{nat_cmp};
ghost use Rattle.fjall_base.specs.Pairs.{Bytes, Pairs};
ghost use Rattle.fjall_base.specs.Store.{Item, map_at, written};
ghost use Rattle.fjall_index_entries.specs.Entries.{entry, key_behind};
ghost use Rattle.fjall_index_entries.specs.Index.{FieldOf, index_of};
ghost use Rattle.fjall_index_entries.specs.Keeping.{IsIndexed};
ghost use Rattle.fjall_index_entries.specs.Repairs.{AreRepairs};

/// An entry has its key behind its field, whatever bytes both have.
pub fn a_key_stands_behind_its_field()
    ensures { (field key : Bytes) → key_behind (entry field key) ≡ Some key }
{}

/// Nothing is written just where the index keyspace's map is the index already.
pub fn a_right_index_is_left_alone()
    ensures { (field : FieldOf) (index : ℕ) (pairs found : Pairs) (items : List Item) → AreRepairs field index pairs found items
        → (items ≡ []) ↔ (found ≡ index_of field pairs) }
{}

/// No other keyspace's map changes.
pub fn repairs_leave_the_others()
    ensures { (field : FieldOf) (index : ℕ) (pairs found : Pairs) (items : List Item) → AreRepairs field index pairs found items
        → (maps : FinMap nat_cmp Pairs) (id : ℕ) → id ≢ index → map_at (written maps items) id ≡ map_at maps id }
{}

/// Where the two keyspaces' maps are those that were read, the main one's is indexed behind the items.
pub fn repairs_make_the_index()
    ensures { (field : FieldOf) (main index : ℕ) (pairs found : Pairs) (items : List Item) → AreRepairs field index pairs found items → index ≢ main
        → (maps : FinMap nat_cmp Pairs) → map_at maps main ≡ pairs → map_at maps index ≡ found → IsIndexed field main index (written maps items) }
{}
