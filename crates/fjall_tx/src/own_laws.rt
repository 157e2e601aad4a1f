//! What a transaction sees, and what its writes become: laws, each the contract of a function that does nothing.

ghost use Rattle.std.specs.Prelude.{◌≡◌, ◌↔◌, ◌∷◌, [], List, map, ℕ, Some, None, AllPairs, Contains};
ghost use Rattle.std.specs.FinMap.{FinMap, get, insert};
ghost use Rattle.std.specs.Ordering.{nat_cmp};
ghost use Rattle.std.specs.declared.cmp.Ordering.TheVariants.{Less};
ghost use Rattle.fjall_base.specs.Pairs.{Bytes, Pairs, lookup};
ghost use Rattle.fjall_base.specs.Store.{map_at, written};
ghost use Rattle.fjall_journal.specs.Ops.{BatchItem, item_in, value_in};
ghost use Rattle.fjall_journal.specs.declared.op.Op.{Op};
ghost use Rattle.fjall_tx.specs.Owns.{Own, items_of, key_of, key_order, own_written, with_writes};

/// A key has what the transaction wrote there, where it wrote there, and else what it has in the view.
pub fn own_writes_are_seen()
    ensures written { (own : Own) (maps : FinMap nat_cmp Pairs) (id : ℕ) (key : Bytes) (op : Op) → get own (key_of id key) ≡ Some op
        → lookup (map_at (own_written maps own) id) key ≡ value_in op }
    ensures others { (own : Own) (maps : FinMap nat_cmp Pairs) (id : ℕ) (key : Bytes) → get own (key_of id key) ≡ None
        → lookup (map_at (own_written maps own) id) key ≡ lookup (map_at maps id) key }
{}

/// The items of a batch are the own writes, and no others; each key comes once, by keyspace and by key.
pub fn items_are_the_own_writes()
    ensures items { (own : Own) (id : ℕ) (key : Bytes) (op : Op) → Contains (items_of own) (id, key, op) ↔ (get own (key_of id key) ≡ Some op) }
    ensures once { (own : Own) → AllPairs (λ a b. key_order (key_of a.0 a.1) (key_of b.0 b.1) ≡ Less) (items_of own) }
{}

/// What a transaction sees with one more own write is what it saw before, with that item behind it; and so it is with several, one
/// behind another.
pub fn own_writes_grow()
    ensures one { (own : Own) (maps : FinMap nat_cmp Pairs) (id : ℕ) (key : Bytes) (op : Op) (j : ℕ)
        → map_at (own_written maps (insert own (key_of id key) op)) j ≡ map_at (written (own_written maps own) (item_in (id, key, op) ∷ [])) j }
    ensures many { (own : Own) (maps : FinMap nat_cmp Pairs) (items : List BatchItem) (j : ℕ)
        → map_at (own_written maps (with_writes own items)) j ≡ map_at (written (own_written maps own) (map item_in items)) j }
{}
