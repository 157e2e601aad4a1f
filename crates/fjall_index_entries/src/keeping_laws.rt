//! Laws of what keeps an index, each the contract of a function that does nothing.

ghost use Rattle.std.specs.Prelude.{◌≡◌, ◌≢◌, ◌++◌, ◌∷◌, [], AllPairs, ℕ, List, Option, map, true};
ghost use Rattle.std.specs.FinMap.{FinMap, contains_key, empty};
ghost use Rattle.std.specs.Ordering.{nat_cmp};
ghost use Rattle.fjall_base.specs.Pairs.{Bytes, Pairs, lookup};
ghost use Rattle.fjall_base.specs.Store.{Command, Item, Store, Write, apply, fold, kept, map_at, written};
ghost use Rattle.fjall_journal.specs.Ops.{BatchItem, item_in};
ghost use Rattle.fjall_tx.specs.Marks.{Mark};
ghost use Rattle.fjall_tx.specs.Oracles.{Conflicts};
ghost use Rattle.fjall_tx.specs.Owns.{items_of, with_writes};
ghost use Rattle.fjall_history.specs.Checked.{IsChecked};
ghost use Rattle.fjall_history.specs.Histories.{History, commits, latest, view};
ghost use Rattle.fjall_history.specs.Serial.{ChangesByTransactions, value_at};
ghost use Rattle.fjall_index_entries.specs.Index.{FieldOf};
ghost use Rattle.fjall_index_entries.specs.Keeping.{AreRead, AreSeen, IsIndexed, IsIndexedAmid, KeepsIndex};
ghost use Rattle.fjall_index_entries.specs.Putting.{all_items, put_items};

use fjall_tx::{items_are_the_own_writes, own_writes_grow};

/// Items that keep the index still do so with those of one more key behind them, which had there what is given as its old
/// value.
pub fn one_more_key_keeps_the_index()
    ensures { (field : FieldOf) (main index : ℕ) (items : List Item) (seen : Bytes → Option Bytes) (key : Bytes) (old new : Option Bytes) → index ≢ main
        → ((maps : FinMap nat_cmp Pairs) → AreSeen items main seen (map_at maps main) → lookup (map_at maps main) key ≡ seen key → lookup (map_at (written maps items) main) key ≡ old)
        → KeepsIndex field main index items seen → KeepsIndex field main index (items ++ put_items field main index key old new) seen }
{}

/// The items of changes of several keys, each of which comes once, keep the index.
pub fn changes_keep_the_index()
    ensures { (field : FieldOf) (main index : ℕ) (seen : Bytes → Option Bytes) (changes : List (Bytes × Option Bytes)) → index ≢ main
        → AllPairs (λ a b. a.0 ≢ b.0) changes → KeepsIndex field main index (all_items field main index seen changes) seen }
{}

/// Where items keep the index, the own writes do that they make of a transaction which had none; and what is read for the items
/// is read for those.
pub fn own_writes_keep_the_index()
    ensures keeps { (field : FieldOf) (main index : ℕ) (items : List BatchItem) (seen : Bytes → Option Bytes) → KeepsIndex field main index (map item_in items) seen
        → KeepsIndex field main index (map item_in (items_of (with_writes empty items))) seen }
    ensures reads { (items : List BatchItem) (main : ℕ) (reads : List Mark) → AreRead (map item_in items) main reads
        → AreRead (map item_in (items_of (with_writes empty items))) main reads }
{
    items_are_the_own_writes();
    own_writes_grow();
}

/// A transaction that met none since its instant, and whose items keep the index wherever what it read stands, keeps it at
/// the present, whatever committed meanwhile.
pub fn a_commit_keeps_the_index()
    ensures { (field : FieldOf) (h : History) (main index : ℕ) → IsChecked h → ChangesByTransactions h.opened h.accepted main
        → (instant : ℕ) (reads : List Mark) → (Conflicts instant reads (commits h) → ⊥)
        → (items : List Item) → AreRead items main reads → KeepsIndex field main index items (λ key. value_at (view h instant) main key)
        → IsIndexed field main index (latest h).maps → IsIndexed field main index (apply (latest h) (Write items)).maps }
{}

/// Where base and pending commands make the present, and the present is indexed behind one command more, so is whatever a
/// crash leaves of all of them.
pub fn a_command_more_is_indexed()
    ensures { (field : FieldOf) (main index : ℕ) (base present : Store) (pending : List Command) (c : Command) → IsIndexedAmid field main index base pending
        → kept (fold base pending) ≡ kept present → IsIndexed field main index (kept (apply present c)).maps → IsIndexedAmid field main index base (pending ++ c ∷ []) }
{}

/// Where whatever a crash leaves of base and pending commands is indexed, it is so too once the first of these are safe in
/// the base.
pub fn a_crash_leaves_the_index()
    ensures { (field : FieldOf) (main index : ℕ) (base next : Store) (safe all pending : List Command) → IsIndexedAmid field main index base all
        → kept next ≡ kept (fold base safe) → safe ++ pending ≡ all → IsIndexedAmid field main index next pending }
{}

/// What is indexed stays so where what deleted keyspaces leave is given up, while both keyspaces live.
pub fn what_is_kept_is_indexed()
    ensures { (field : FieldOf) (main index : ℕ) (s : Store) → contains_key s.names main ≡ true → contains_key s.names index ≡ true
        → IsIndexed field main index s.maps → IsIndexed field main index (kept s).maps }
{}
