//! What holds of the names, and of changes within a folder.

ghost use Rattle.std.specs.Prelude.{◌≡◌, ◌<◌, ◌^◌, ℕ, [], true, false, Bool};
ghost use Rattle.fjall_files.specs.Names.{HasIds, KeptName, journal_name, keyspace_folder, name_of, table_name};
ghost use Rattle.fjall_base.specs.Disk.{Name, Image, Meaning, Survives, Leaves, state_in};
ghost use Rattle.fjall_files.specs.Regions.{IsImageIn, Within, is_under};

/// Journals of different ids have different names.
pub fn journal_names_differ()
    ensures { (id other : ℕ) → id < 2 ^ 64 → other < 2 ^ 64 → journal_name id ≡ journal_name other → id ≡ other }
{}

/// Keyspaces of different ids have different folders.
pub fn keyspace_folders_differ()
    ensures { (id other : ℕ) → id < 2 ^ 64 → other < 2 ^ 64 → keyspace_folder id ≡ keyspace_folder other → id ≡ other }
{}

/// Different tables have different names, in one keyspace and in two.
pub fn table_names_differ()
    ensures { (id other table another : ℕ) → id < 2 ^ 64 → other < 2 ^ 64 → table < 2 ^ 64 → another < 2 ^ 64
        → table_name id table ≡ table_name other another → (id ≡ other) × (table ≡ another) }
{}

/// No two of the files and folders that are kept have one name: no journal's is another file's.
pub fn kept_names_differ()
    ensures { (kept other : KeptName) → HasIds kept → HasIds other → name_of kept ≡ name_of other → kept ≡ other }
{}

/// What stands outside the folder is as it was.
pub fn elsewhere_stays()
    ensures { (folder q : Name) (old new : Meaning) → (folder ≡ [] → ⊥) → Within folder old new → is_under folder q ≡ false → state_in new q ≡ state_in old q }
{}

/// Whatever a crash at any moment of the run leaves in a region that the folder is not in, a crash before it might have left.
pub fn crashes_see_a_region()
    ensures { (folder : Name) (region : Name → Bool) (old new : Meaning) (image : Image) → (folder ≡ [] → ⊥)
        → ((q : Name) → region q ≡ true → is_under folder q ≡ false)
        → (run : Within folder old new) → Leaves (state_in old) run.added image → IsImageIn Survives region (state_in old) image }
{}
