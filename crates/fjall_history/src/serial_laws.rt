//! What holds of histories in which each optimistic transaction was checked when it committed.

ghost use Rattle.std.specs.Prelude.{◌≡◌, ◌↔◌, ◌≤◌, ◌<◌, ◌∷◌, ◌++◌, [], All, Contains, List, Bool, Some, map, slice_get, ℕ};
ghost use Rattle.std.specs.BTreeMap.Range.{IsInRange};
ghost use Rattle.std.specs.FinMap.{FinMap};
ghost use Rattle.std.specs.Ordering.{nat_cmp};
ghost use Rattle.std.specs.declared.ops.Bound.{Bound as End};
ghost use Rattle.std.specs.declared.ops.Bound.TheVariants.{Unbounded};
ghost use Rattle.fjall_base.specs.Pairs.{Bytes, KeyRange, Pairs, byte_order, lookup};
ghost use Rattle.fjall_base.specs.Store.{Command, Item, Store, map_at, written};
ghost use Rattle.fjall_tx.specs.Marks.{IsCovered, Mark, OfKey, OfRange};
ghost use Rattle.fjall_tx.specs.Oracles.{Conflicts, commit_of, pruned, with_commit};
ghost use Rattle.fjall_history.specs.Histories.{Accepted, Commit, History, commits, extended, grown, latest, number, plain, view};
ghost use Rattle.fjall_history.specs.Queries.{Get, Page, Query, Tells};
ghost use Rattle.fjall_history.specs.declared.reply.Reply.{Reply};
ghost use Rattle.fjall_history.specs.Asks.{Asks, IsMarked};
ghost use Rattle.fjall_history.specs.Checked.{IsChecked, MayCommit, before};
ghost use Rattle.fjall_history.specs.Serial.{ChangesByTransactions, IsSerial, ReadsChangeByTransactions, serial_store, value_at};

/// Transactions that were checked when they committed act one after another, where the maps that they read change through
/// such transactions alone.
pub fn checked_transactions_are_serial()
    ensures { (h : History) → IsChecked h → ReadsChangeByTransactions h → IsSerial h }
{}

/// Where the map of a keyspace changes through checked transactions alone, it is what these alone make, one after another.
pub fn the_outcome_is_serial()
    ensures { (h : History) → IsChecked h → (id : ℕ) → ChangesByTransactions h.opened h.accepted id
        → map_at (latest h).maps id ≡ map_at (serial_store h).maps id }
{}

/// A history is checked when it is opened and stays so behind plain commands, and behind a transaction that may commit.
/// Its commits are those of before and that transaction, under the number that the command gets.
pub fn a_checked_history_grows()
    ensures opening { (opened : Store) (base : ℕ) → IsChecked (record { opened = opened; base = base; accepted = [] }) }
    ensures plain { (h : History) (command : Command) → IsChecked h → IsChecked (grown h (plain command)) }
    ensures plain_many { (h : History) (commands : List Command) → IsChecked h → IsChecked (extended h (map plain commands)) }
    ensures commit { (h : History) (command : Command) (c : Commit) → IsChecked h → MayCommit h command c
        → IsChecked (grown h (record { command = command; commit = Some c })) }
    ensures commits_of_plain { (h : History) (command : Command) → commits (grown h (plain command)) ≡ commits h }
    ensures commits_of_many { (h : History) (commands : List Command) → commits (extended h (map plain commands)) ≡ commits h }
    ensures commits_of_commit { (h : History) (command : Command) (c : Commit)
        → commits (grown h (record { command = command; commit = Some c })) ≡ commits h ++ commit_of (number h) c.marks.writes ∷ [] }
    ensures numbers { (h : History) → All (λ committed. (h.base ≤ committed.number) × (committed.number < number h)) (commits h) }
{}

/// An answer rests on nothing but the keys that the query asks for: maps that agree on these give the same, also where the
/// same own writes were laid over both.
pub fn answers_rest_on_marks()
    ensures { (query : Query) (m n : FinMap nat_cmp Pairs) (id : ℕ) (own : List Item)
        → ((key : Bytes) → Asks query key → lookup (map_at m id) key ≡ lookup (map_at n id) key)
        → (reply : Reply) → Tells query (map_at (written m own) id) reply → Tells query (map_at (written n own) id) reply }
{}

/// Each answer that a transaction got, over its own writes of then, is the one that it gets behind the transactions that
/// committed before it, and behind them alone.
pub fn each_answer_is_of_those_before()
    ensures { (h : History) → IsChecked h → ReadsChangeByTransactions h
        → (place : ℕ) (a : Accepted) (c : Commit) → slice_get h.accepted place ≡ Some a → a.commit ≡ Some c
        → (id : ℕ) (query : Query) → IsMarked c.marks.reads id query → (own : List Item) (reply : Reply)
        → Tells query (map_at (written (view h c.instant).maps own) id) reply
        → Tells query (map_at (written (serial_store (before h place)).maps own) id) reply }
{}

/// Which marks cover all that a query asks for.
pub fn a_marked_query()
    ensures key { (reads : List Mark) (id : ℕ) (key : Bytes) → IsMarked reads id (Get key) ↔ IsCovered reads id key }
    ensures key_itself { (reads : List Mark) (id : ℕ) (key : Bytes) → Contains reads (OfKey id key) → IsMarked reads id (Get key) }
    ensures range { (reads : List Mark) (id : ℕ) (start end : End Bytes) → Contains reads (OfRange id start end)
        → (range : KeyRange) → ((key : Bytes) → IsInRange byte_order range.0 range.1 key → IsInRange byte_order start end key)
        → (back : Bool) (max : ℕ) → IsMarked reads id (Page range back max) }
    ensures range_itself { (reads : List Mark) (id : ℕ) (range : KeyRange) → Contains reads (OfRange id range.0 range.1)
        → (back : Bool) (max : ℕ) → IsMarked reads id (Page range back max) }
    ensures whole { (reads : List Mark) (id : ℕ) → Contains reads (OfRange id Unbounded Unbounded) → (query : Query) → IsMarked reads id query }
    ensures more { (reads more : List Mark) (id : ℕ) (query : Query) → IsMarked reads id query → IsMarked (reads ++ more) id query }
{}

/// What began at the visible number meets none that committed. Where commits are kept pruned, and each new one is put behind
/// them under its number, they stay the history's commits, pruned.
pub fn conflicts_rest_on_commits()
    ensures present { (h : History) (reads : List Mark) → Conflicts (number h) reads (commits h) → ⊥ }
    ensures kept { (h : History) (command : Command) (c : Commit) (watermark : ℕ) → watermark ≤ number h
        → with_commit (pruned (commits h) watermark) (commit_of (number h) c.marks.writes)
        ≡ pruned (commits (grown h (record { command = command; commit = Some c }))) watermark }
{}

/// Reads that met no transaction which committed at or above their instant saw then what stands there now, in each keyspace whose
/// map changes through checked transactions alone.
pub fn what_meets_none_is_of_the_present()
    ensures { (h : History) → IsChecked h → (id : ℕ) → ChangesByTransactions h.opened h.accepted id
        → (instant : ℕ) (reads : List Mark) → (Conflicts instant reads (commits h) → ⊥) → (key : Bytes) → IsCovered reads id key
        → value_at (view h instant) id key ≡ value_at (latest h) id key }
{}
