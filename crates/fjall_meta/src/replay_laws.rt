//! What holds of the definitions.

ghost use Rattle.std.specs.Prelude.{◌≡◌, ◌≢◌, ◌<◌, ◌≤◌, ◌^◌, ◌∷◌, [], ◌++◌, ◌↔◌, true, false, ℕ, List, length, map, All, Some, None, is_some};
ghost use Rattle.std.specs.Option.{option_map, option_or};
ghost use Rattle.std.specs.FinMap.{contains_key, get, len, values};
ghost use Rattle.std.specs.List.{list_any};
ghost use Rattle.fjall_base.specs.Pairs.{Bytes};
ghost use Rattle.fjall_base.specs.Store.{Clear, Command, Create, Delete, Store, Write, apply, fold, kept, map_at};
ghost use Rattle.fjall_journal.specs.Batches.{Shown, of_item, shown};
ghost use Rattle.fjall_journal.specs.Ops.{BatchItem, of_items, write_of};
ghost use Rattle.fjall_journal.specs.Changes.{Emptied, of_change};
ghost use Rattle.fjall_journal.specs.declared.entry.ValueType.{ValueType};
ghost use Rattle.fjall_meta.specs.Keyspaces.{AreKeyspaces, Keyspaces, id_of, keyspace_at, with_keyspace, without_keyspace};
ghost use Rattle.fjall_meta.specs.Replays.{bare, commands_of, counts, first_fault, is_indirect, journal_commands, least_after, option_pairs, store_in, value_of};
ghost use Rattle.fjall_meta.specs.Versions.{Version, store_of};
ghost use Rattle.fjall_meta.specs.Views.{clears_of, versions_of};
ghost use Rattle.fjall_memtable.specs.Jobs.{AreBelow, AreFrom};
ghost use Rattle.fjall_memtable.specs.Views.{IsView};

/// Batches behind others, as those of the next journal, are looked at and replayed from where the others end.
pub fn replays_follow_one_another()
    ensures least { (least : ℕ) (front behind : List Shown) → least_after least (front ++ behind) ≡ least_after (least_after least front) behind }
    ensures faults { (least : ℕ) (front behind : List Shown)
        → first_fault least (front ++ behind) ≡ option_or (first_fault least front) (first_fault (least_after least front) behind) }
    ensures stores { (s : Keyspaces) (front behind : List Shown) → store_in s (front ++ behind) ≡ fold (store_in s front) (journal_commands s behind) }
{}

/// One batch more is its commands more.
pub fn one_more_batch_replayed()
    ensures { (s : Keyspaces) (batches : List Shown) (batch : Shown) → store_in s (batches ++ batch ∷ []) ≡ fold (store_in s batches) (commands_of s batch) }
{}

/// The batch of one item that counts commands one write.
pub fn one_item_is_a_write()
    ensures { (s : Keyspaces) (id : ℕ) (key value : Bytes) (kind : ValueType) (number : ℕ) → counts s number id ≡ true
        → commands_of s (shown (of_item id key value kind number)) ≡ Write (record { id = id; key = key; value = value_of kind value } ∷ []) ∷ [] }
{}

/// A keyspace more, made under a greater number than those of the batches, is a creation: none of what the
/// batches before it say is of its id.
pub fn a_creation_is_replayed()
    ensures { (name : List ℕ) (options : List (List ℕ)) (number : ℕ) (s : Keyspaces) → AreKeyspaces s → (batches : List Shown)
        → All (λ b. b.number < number) batches
        → store_in (with_keyspace name options number s) batches ≡ apply (store_in s batches) (Create name (option_pairs options)) }
{}

/// A keyspace less is a deletion, what deleted keyspaces hold aside.
pub fn a_deletion_is_replayed()
    ensures { (id : ℕ) (s : Keyspaces) (batches : List Shown)
        → store_in (without_keyspace id s) batches ≡ kept (apply (store_in s batches) (Delete id)) }
{}

/// The store of batches holds nothing of deleted keyspaces.
pub fn a_replay_holds_no_rest()
    ensures { (s : Keyspaces) (batches : List Shown) → kept (store_in s batches) ≡ store_in s batches }
{}

/// What is dropped with deleted keyspaces never comes back: stores that keep the same go on keeping the same. Of
/// a keyspace that lives the whole map is kept.
pub fn what_is_kept_goes_on()
    ensures along { (s t : Store) (commands : List Command) → kept s ≡ kept t → kept (fold s commands) ≡ kept (fold t commands) }
    ensures twice { (s : Store) → kept (kept s) ≡ kept s }
    ensures maps { (s : Store) (id : ℕ) → contains_key s.names id ≡ true → map_at (kept s).maps id ≡ map_at s.maps id }
{}

/// Versions leave names, settings and the next id as they are without them.
pub fn versions_change_maps_alone()
    ensures names { (s : Keyspaces) (versions : List Version) → (store_of s versions).names ≡ (bare s).names }
    ensures options { (s : Keyspaces) (versions : List Version) → (store_of s versions).options ≡ (bare s).options }
    ensures next { (s : Keyspaces) (versions : List Version) → (store_of s versions).next ≡ s.next }
{}

/// By its id a store has the name and the settings of each living keyspace, and of no other. A name stands at
/// the id that the keyspaces resolve it to.
pub fn the_living_have_names()
    ensures living { (s : Keyspaces) (versions : List Version) (id : ℕ) → contains_key (store_of s versions).names id ≡ is_some (keyspace_at id s.living) }
    ensures settings { (s : Keyspaces) (versions : List Version) (id : ℕ)
        → get (store_of s versions).options id ≡ option_map (λ k. option_pairs k.options) (keyspace_at id s.living) }
    ensures resolved { (s : Keyspaces) → AreKeyspaces s → (versions : List Version) (id : ℕ) (name : Bytes)
        → (id_of name s.living ≡ Some id) ↔ (get (store_of s versions).names id ≡ Some name) }
{}

/// The names of a store by id are those of the living keyspaces in their order.
pub fn names_stand_in_order()
    ensures listed { (s : Keyspaces) → AreKeyspaces s → values (bare s).names ≡ map (λ k. k.name) s.living }
    ensures counted { (s : Keyspaces) → AreKeyspaces s → len (bare s).names ≡ length s.living }
{}

/// What batches without a fault make of a keyspace's map is the view of the versions and clears that they make of it, at
/// each instant above their numbers. So it is at 2^63, which no number reaches.
pub fn replay_is_a_view()
    ensures above { (s : Keyspaces) (least : ℕ) (batches : List Shown) → first_fault least batches ≡ None → (id instant : ℕ)
        → All (λ b. b.number < instant) batches → IsView instant (clears_of s id batches) (versions_of s id batches) (map_at (store_in s batches).maps id) }
    ensures last { (s : Keyspaces) (least : ℕ) (batches : List Shown) → first_fault least batches ≡ None → (id : ℕ)
        → IsView (2 ^ 63) (clears_of s id batches) (versions_of s id batches) (map_at (store_in s batches).maps id) }
{}

/// The versions and clears that batches make stand batch upon batch, under the batches' numbers.
pub fn batches_make_their_versions()
    ensures versions { (s : Keyspaces) (id : ℕ) (front behind : List Shown)
        → versions_of s id (front ++ behind) ≡ versions_of s id front ++ versions_of s id behind }
    ensures clears { (s : Keyspaces) (id : ℕ) (front behind : List Shown)
        → clears_of s id (front ++ behind) ≡ clears_of s id front ++ clears_of s id behind }
    ensures from { (s : Keyspaces) (id bound : ℕ) (batches : List Shown) → All (λ b. bound ≤ b.number) batches → AreFrom bound (versions_of s id batches) }
    ensures below { (s : Keyspaces) (id bound : ℕ) (batches : List Shown) → All (λ b. b.number < bound) batches → AreBelow bound (versions_of s id batches) }
    ensures clears_below { (s : Keyspaces) (id bound : ℕ) (batches : List Shown) → All (λ b. b.number < bound) batches
        → All (λ n. n < bound) (clears_of s id batches) }
{}

/// The batch of some items, all of which count, is one write of them: it clears nothing, and no item of it stands for a
/// value elsewhere.
pub fn a_batch_is_a_write()
    ensures write { (s : Keyspaces) (items : List BatchItem) (number : ℕ) → items ≢ [] → All (λ item. counts s number item.0 ≡ true) items
        → commands_of s (shown (of_items items number)) ≡ write_of items ∷ [] }
    ensures direct { (items : List BatchItem) (number : ℕ) → list_any is_indirect (shown (of_items items number)).items ≡ false }
    ensures clears { (items : List BatchItem) (number : ℕ) → (shown (of_items items number)).clears ≡ [] }
{}

/// The batch that empties a keyspace for which it counts is that command alone: it clears that id, and has no item, so none
/// that stands for a value elsewhere.
pub fn a_clear_is_a_command()
    ensures command { (s : Keyspaces) (id number : ℕ) → counts s number id ≡ true → commands_of s (shown (of_change (Emptied id) number)) ≡ Clear id ∷ [] }
    ensures direct { (id number : ℕ) → list_any is_indirect (shown (of_change (Emptied id) number)).items ≡ false }
    ensures clears { (id number : ℕ) → (shown (of_change (Emptied id) number)).clears ≡ id ∷ [] }
    ensures items { (id number : ℕ) → (shown (of_change (Emptied id) number)).items ≡ [] }
{}
