//! What holds of homes.

ghost use Rattle.std.specs.Prelude.{◌≡◌, ◌≢◌, ◌<◌, ◌^◌, ℕ, Bool, true, false, List};
ghost use Rattle.fjall_base.specs.declared.error.StorageError.{StorageError};
ghost use Rattle.fjall_base.specs.Disk.{DiskState, Image, IsImageBy, Name, Survives};
ghost use Rattle.fjall_files.specs.Names.{keyspace_folder};
ghost use Rattle.fjall_files.specs.Regions.{IsImageIn, is_under};
ghost use Rattle.fjall_table.specs.declared.table_info.TableInfo.{TableInfo};
ghost use Rattle.fjall_table.specs.Blocks.{Entry};
ghost use Rattle.fjall_table.specs.Tables.{Handle};
ghost use Rattle.fjall_manifest.specs.Records.{Fields, IsRecord, view};
ghost use Rattle.fjall_manifest.specs.Homes.{HasFiles, HasHome, Home, IsReady, KeepsSynced, Rests, SyncedStays, is_counted};
ghost use Rattle.fjall_manifest.specs.declared.reading.LoadedHome.{LoadedHome};
ghost use Rattle.fjall_manifest.specs.Reading.{AreIndexed, AreOpened, AreRight, IsDamage, IsHomeOpenable, IsLoaded};

/// In the usual view of crashes what is synced stays, and so it does in the widest one.
pub fn views_that_keep_what_is_synced()
    ensures usual { KeepsSynced Survives }
    ensures widest { KeepsSynced SyncedStays }
{}

/// A crash leaves a home that rests as it is, whatever it does to what isn't synced.
pub fn crashes_leave_the_home()
    ensures { (state : DiskState) (image : Image) (id : ℕ) (records : List Fields) (h : Home) → id < 2 ^ 64 → Rests state id records h
        → IsImageBy SyncedStays state image → HasHome image id records h }
{}

/// So does one of which no more is known than what it leaves in a region of the names that has those that the home rests on.
pub fn regions_leave_the_home()
    ensures { (region : Name → Bool) (state : DiskState) (image : Image) (id : ℕ) (records : List Fields) (h : Home) → id < 2 ^ 64
        → ((q : Name) → is_counted id q ≡ true → region q ≡ true)
        → Rests state id records h → IsImageIn SyncedStays region state image → HasHome image id records h }
{}

/// Two images that agree in the keyspace's folder have the same home.
pub fn homes_alike()
    ensures files { (image other : Image) (id : ℕ) (records : List Fields) (h : Home) → ((q : Name) → is_under (keyspace_folder id) q ≡ true → other q ≡ image q)
        → HasFiles image id records h → HasFiles other id records h }
    ensures folder { (image other : Image) (id : ℕ) (records : List Fields) (h : Home) → ((q : Name) → is_under (keyspace_folder id) q ≡ true → other q ≡ image q)
        → HasHome image id records h → HasHome other id records h }
{}

/// A folder has one home.
pub fn one_home()
    ensures { (image : Image) (id : ℕ) (records others : List Fields) (h other : Home) → HasFiles image id records h → HasFiles image id others other
        → (records ≡ others) × (h ≡ other) }
{}

/// The last record of a home that rests is a record.
pub fn last_is_a_record()
    ensures { (state : DiskState) (id : ℕ) (records : List Fields) (h : Home) → Rests state id records h → IsRecord h.last }
{}

/// A home rests on the names that are counted alone: where nothing changed at these it rests as before, and is as ready.
pub fn what_stays_is_safe()
    ensures rests { (old new : DiskState) (id : ℕ) (records : List Fields) (h : Home) → ((q : Name) → is_counted id q ≡ true → new q ≡ old q)
        → Rests old id records h → Rests new id records h }
    ensures ready { (old new : DiskState) (id : ℕ) (records : List Fields) (h : Home) → ((q : Name) → is_counted id q ≡ true → new q ≡ old q)
        → IsReady old id records h → IsReady new id records h }
{}

/// No name in a keyspace's folder, at any depth, is one that another keyspace's home rests on.
pub fn homes_are_apart()
    ensures { (id other : ℕ) (q : Name) → id < 2 ^ 64 → other < 2 ^ 64 → id ≢ other → is_under (keyspace_folder id) q ≡ true → is_counted other q ≡ false }
{}

/// Of a home that an opening finds right nothing is damaged, so it is read unless the disk fails or memory runs out.
pub fn openable_homes_are_read()
    ensures { (image : Image) (id : ℕ) (records : List Fields) (h : Home) (indexes : List (List Handle)) (cause : StorageError)
        → IsHomeOpenable image id records h indexes → IsDamage image id cause → ⊥ }
{}

/// What is read of it is its last record, the end of its whole ones, and its tables, each with its index.
pub fn one_loading()
    ensures { (image : Image) (id : ℕ) (records : List Fields) (h : Home) (indexes : List (List Handle)) (home : LoadedHome)
        → (is : IsHomeOpenable image id records h indexes) → IsLoaded image id home
        → (view home.record ≡ h.last) × (home.end ≡ is.files.end) × AreOpened id h.last.tables indexes home.tables.items }
{}

/// Tables that are right whole are right at their ends.
pub fn right_tables_are_indexed()
    ensures { (tables : List TableInfo) (texts : List (List ℕ)) (entries : List (List Entry)) → AreRight tables texts entries
        → (indexes : List (List Handle)) × AreIndexed tables texts indexes }
{}
