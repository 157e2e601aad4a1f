//! What holds of the pairs that are stored of keyspaces.

ghost use Rattle.std.specs.Prelude.{◌≡◌};
ghost use Rattle.fjall_meta.specs.Keyspaces.{AreKeyspaces, Keyspaces};
ghost use Rattle.fjall_meta.specs.Entries.{entries_of};

/// Keyspaces of one list of entries and one next id are the same.
pub fn one_list_of_keyspaces()
    ensures { (s t : Keyspaces) → AreKeyspaces s → AreKeyspaces t → s.next ≡ t.next → entries_of s.living ≡ entries_of t.living → s ≡ t }
{}
