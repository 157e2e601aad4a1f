//! What holds of the definitions.

ghost use Rattle.std.specs.Prelude.{◌≡◌, ◌<◌, ◌≤◌, ◌^◌, ◌∷◌, [], ◌++◌, ◌↔◌, true, false, ℕ, List, All, Some, None};
ghost use Rattle.std.specs.FinMap.{get};
ghost use Rattle.fjall_base.specs.Pairs.{Bytes};
ghost use Rattle.fjall_base.specs.Store.{Create, Delete, apply, fold, kept, map_at};
ghost use Rattle.fjall_meta.specs.Contents.{AreWithin, IsWithin, Stored, clears_held, commands_beyond, counts_beyond, is_beyond, journal_beyond, map_held, nothing_stored, store_held, versions_held};
ghost use Rattle.fjall_journal.specs.Batches.{Shown};
ghost use Rattle.fjall_meta.specs.declared.living.LivingKeyspace.{LivingKeyspace};
ghost use Rattle.fjall_meta.specs.Keyspaces.{AreKeyspaces, Keyspaces, keyspace_at, with_keyspace, without_keyspace};
ghost use Rattle.fjall_meta.specs.Replays.{commands_of, first_fault, journal_commands, option_pairs, store_in};
ghost use Rattle.fjall_memtable.specs.Views.{value_at};

/// Within a persisted number is what is numbered at most it. Where there is none, nothing is.
pub fn what_is_stored_has_its_number()
    ensures up_to { (h : Stored) (persisted : ℕ) → h.persisted ≡ Some persisted
        → IsWithin h ↔ (All (λ v. v.number ≤ persisted) h.versions × All (λ n. n ≤ persisted) h.clears) }
    ensures nothing { (h : Stored) → h.persisted ≡ None → IsWithin h → (h.versions ≡ []) × (h.clears ≡ []) }
{}

/// Under a living keyspace's id the store has the map of what is held of it, and under any other id it has none.
pub fn a_keyspace_reads()
    ensures living { (s : Keyspaces) (stored : ℕ → Stored) (batches : List Shown) (id : ℕ) (k : LivingKeyspace) → keyspace_at id s.living ≡ Some k
        → map_at (store_held s stored batches).maps id ≡ map_held s (stored id) id batches }
    ensures others { (s : Keyspaces) (stored : ℕ → Stored) (batches : List Shown) (id : ℕ) → keyspace_at id s.living ≡ None
        → get (store_held s stored batches).maps id ≡ None }
{}

/// However versions and clears lie in files and batches, where each key of each living keyspace has the same value above
/// all numbers the store is the same.
pub fn views_alone_matter()
    ensures { (s : Keyspaces) (stored other : ℕ → Stored) (batches others : List Shown)
        → All (λ k. (key : Bytes) → value_at key (2 ^ 63) (clears_held s (stored k.id) k.id batches) (versions_held s (stored k.id) k.id batches)
        ≡ value_at key (2 ^ 63) (clears_held s (other k.id) k.id others) (versions_held s (other k.id) k.id others)) s.living
        → store_held s stored batches ≡ store_held s other others }
{}

/// Where nothing is stored the store is what the batches make.
pub fn without_tables_the_journals_tell_all()
    ensures { (s : Keyspaces) (stored : ℕ → Stored) → All (λ k. stored k.id ≡ nothing_stored) s.living → (least : ℕ) (batches : List Shown)
        → first_fault least batches ≡ None → store_held s stored batches ≡ store_in s batches }
{}

/// One batch more is its commands more, as far as they are beyond what is stored. Where its number is beyond each living
/// keyspace's persisted number, those are all that it commands.
pub fn one_more_batch()
    ensures more { (s : Keyspaces) (stored : ℕ → Stored) → AreWithin s stored → (least : ℕ) (batches : List Shown) (batch : Shown)
        → first_fault least (batches ++ batch ∷ []) ≡ None
        → store_held s stored (batches ++ batch ∷ []) ≡ fold (store_held s stored batches) (commands_beyond s stored batch) }
    ensures beyond_all { (s : Keyspaces) (stored : ℕ → Stored) (batch : Shown)
        → All (λ k. is_beyond (stored k.id).persisted batch.number ≡ true) s.living → commands_beyond s stored batch ≡ commands_of s batch }
{}

/// Batches behind others, as those of the next journal, are their commands more, as far as they are beyond what is stored.
pub fn batches_follow_one_another()
    ensures stores { (s : Keyspaces) (stored : ℕ → Stored) → AreWithin s stored → (least : ℕ) (front behind : List Shown)
        → first_fault least (front ++ behind) ≡ None
        → store_held s stored (front ++ behind) ≡ fold (store_held s stored front) (journal_beyond s stored behind) }
    ensures beyond_all { (s : Keyspaces) (stored : ℕ → Stored) (batches : List Shown)
        → All (λ b. All (λ k. is_beyond (stored k.id).persisted b.number ≡ true) s.living) batches
        → journal_beyond s stored batches ≡ journal_commands s batches }
{}

/// The store holds nothing of deleted keyspaces.
pub fn nothing_to_keep()
    ensures { (s : Keyspaces) (stored : ℕ → Stored) (batches : List Shown) → kept (store_held s stored batches) ≡ store_held s stored batches }
{}

/// A keyspace more, made under a greater number than those of the batches, with no versions stored under its id, is a
/// creation.
pub fn creation_is_a_command()
    ensures { (name : List ℕ) (options : List (List ℕ)) (number : ℕ) (s : Keyspaces) → AreKeyspaces s → (stored : ℕ → Stored) (batches : List Shown)
        → (stored s.next).versions ≡ [] → All (λ b. b.number < number) batches
        → store_held (with_keyspace name options number s) stored batches ≡ apply (store_held s stored batches) (Create name (option_pairs options)) }
{}

/// A keyspace less is a deletion, what deleted keyspaces hold aside.
pub fn deletion_is_a_command()
    ensures { (id : ℕ) (s : Keyspaces) (stored : ℕ → Stored) (batches : List Shown)
        → store_held (without_keyspace id s) stored batches ≡ kept (apply (store_held s stored batches) (Delete id)) }
{}

/// The first batches may go where no living keyspace counts anything of them beyond what is stored of it.
pub fn stored_batches_may_go()
    ensures { (s : Keyspaces) (stored : ℕ → Stored) (front behind : List Shown)
        → All (λ b. All (λ k. counts_beyond s stored b.number k.id ≡ false) s.living) front
        → store_held s stored (front ++ behind) ≡ store_held s stored behind }
{}
