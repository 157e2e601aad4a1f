//! What holds of wild crashes.

ghost use Rattle.std.specs.Prelude.{◌≡◌, ◌⊎◌, ◌++◌, ◌∷◌, ℕ, List, [], None, Option, drop, length, map};
ghost use Rattle.fjall_base.specs.Crash.{AppendIsCovered, CutIsCovered};
ghost use Rattle.fjall_base.specs.Store.{Command, Store};
ghost use Rattle.fjall_base.specs.Disk.{DiskState, DiskStep, Image, IsImage, IsImageBy, Leaves, LeavesBy, LeavesOnly, LeavesOnlyBy, Meaning, Name, Survives, SurvivesWild, disk_of};
ghost use Rattle.fjall_files.specs.Names.{current_name, journal_name};
ghost use Rattle.fjall_journal.specs.declared.batch.Tail.TheVariants.{Clean, Torn};
ghost use Rattle.fjall_journal.specs.Batches.{Written, IsAll, IsWritten, IsWhole, IsTail, batch_text, shown};
ghost use Rattle.fjall_manifest.specs.Records.{Fields, IsRecord, IsRecords, record_text};
ghost use Rattle.fjall_meta.specs.Keyspaces.{no_keyspaces};
ghost use Rattle.fjall_manifest.specs.Catalog.{fields, first_catalog, records_in};
ghost use Rattle.fjall_meta.specs.Contents.{store_held};
ghost use Rattle.fjall_meta.specs.Replays.{bare, first_fault};
ghost use Rattle.fjall_recovery.specs.Amid.{StandsAmid};
ghost use Rattle.fjall_recovery.specs.Folders.{Contents, ImageStandsFor, IsSound};
ghost use Rattle.fjall_recovery.specs.Held.{IsOpenFolder};
ghost use Rattle.fjall_recovery.specs.Homes.{stored_in};
ghost use Rattle.fjall_recovery.specs.Journals.{WholeJournal, batches_in, journal_text};
ghost use Rattle.fjall_recovery.specs.Wild.{AreHeldInPlace, IsCutFrom, IsLongerBy, IsUnforged, NoneForged, SurvivesUnforged, SurvivesWhere};

/// Of what a wild crash leaves at any moment a usual crash at that moment may leave a beginning, file by file, with all whole batches
/// and all whole records.
pub fn a_wild_crash_is_cut()
    ensures { (state : DiskState) (steps : List DiskStep) (wild : Image) → LeavesBy SurvivesUnforged state steps wild
        → (image : Image) × Leaves state steps image × ((name : Name) → IsCutFrom (wild name) (image name)) }
{}

/// A beginning of a text that has all of its whole batches reads as the text does, but that nothing may stand behind them where a
/// torn tail does; and one that has all of its whole records reads as the text does.
pub fn a_beginning_reads_alike()
    ensures batches { (text rest : List ℕ) → NoneForged batch_text IsWritten text (text ++ rest)
        → (batches : List Written) (end : ℕ) → IsWhole (text ++ rest) batches end
        → IsWhole text batches end × (IsTail (drop end (text ++ rest)) Clean → IsTail (drop end text) Clean)
        × (IsTail (drop end (text ++ rest)) Torn → IsTail (drop end text) Clean ⊎ IsTail (drop end text) Torn) }
    ensures records { (text rest : List ℕ) → NoneForged record_text IsRecord text (text ++ rest)
        → (records : List Fields) (end : ℕ) → IsRecords (text ++ rest) records end → IsRecords text records end }
{}

/// A wild image in which an opening finds nothing wrong stands for each store that some image stands for which a usual crash at the
/// same moment may leave.
pub fn a_wild_image_stands()
    ensures { (state : DiskState) (steps : List DiskStep) (wild : Image) (folder : Option Contents) → LeavesBy SurvivesUnforged state steps wild
        → IsOpenFolder wild folder → (image : Image) × Leaves state steps image × ((store : Store) → ImageStandsFor image store → ImageStandsFor wild store) }
{}

/// So what stands for a base and a beginning of some commands whatever a usual crash leaves does so whatever a wild one leaves in
/// which an opening finds nothing wrong.
pub fn wild_crashes_leave_no_more()
    ensures { (old new : Meaning) (base : Store) (least all : List Command) → LeavesOnly old new (StandsAmid base least all)
        → LeavesOnlyBy SurvivesUnforged old new (λ image. (folder : Option Contents) → IsOpenFolder image folder → StandsAmid base least all image) }
{}

/// With either half of the premise alone, what nobody wrote counts. Behind what a usual crash leaves of the active journal of a sound
/// folder, a wild one that forges no record may leave any batch that may come next. Behind the records of tree 0, one that forges
/// no batch may leave the first record again, and all keyspaces are gone. Nothing else differs from what the usual crash leaves.
pub fn what_is_forged_counts()
    ensures batches { (state : DiskState) (image : Image) (c : Contents) (sealed : List WholeJournal) (active : WholeJournal) (forged : Written)
        → IsImage state image → IsSound image c → c.journals ≡ sealed ++ active ∷ [] → IsAll (journal_text image active.id) active.batches → IsWritten forged
        → first_fault 0 (map shown (batches_in c.journals ++ forged ∷ [])) ≡ None
        → NoneForged record_text IsRecord (journal_text image active.id) (journal_text image active.id ++ batch_text forged)
        → (wild : Image) × IsImageBy (SurvivesWhere (NoneForged record_text IsRecord)) state wild
        × IsLongerBy (batch_text forged) (journal_name active.id) image wild
        × ImageStandsFor wild (store_held c.keyspaces (stored_in c.homes c.versions) (map shown (batches_in c.journals ++ forged ∷ []))) }
    ensures records { (state : DiskState) (image : Image) (c : Contents) (records : List Fields) → IsImage state image → IsSound image c
        → IsRecords (records_in image) records (length (records_in image))
        → NoneForged batch_text IsWritten (records_in image) (records_in image ++ record_text (fields first_catalog))
        → (wild : Image) × IsImageBy (SurvivesWhere (NoneForged batch_text IsWritten)) state wild
        × IsLongerBy (record_text (fields first_catalog)) (current_name 0) image wild × ImageStandsFor wild (bare no_keyspaces) }
{}

/// On a disk that it is put on, a wild image is what a usual crash leaves, and nothing else is.
pub fn a_wild_image_stays()
    ensures left { (state : DiskState) (steps : List DiskStep) (wild : Image) → LeavesBy SurvivesUnforged state steps wild → IsImage (disk_of wild) wild }
    ensures alone { (state : DiskState) (steps : List DiskStep) (wild image : Image) → LeavesBy SurvivesUnforged state steps wild → IsImage (disk_of wild) image
        → image ≡ wild }
{}

/// Nothing whole is forged where each whole batch and each whole record that reaches behind the synced bytes, wherever it stands,
/// is what the file held at that place.
pub fn nothing_is_forged()
    ensures { (synced unsynced bytes : List ℕ) → AreHeldInPlace batch_text IsWritten synced (synced ++ unsynced) (synced ++ bytes)
        → AreHeldInPlace record_text IsRecord synced (synced ++ unsynced) (synced ++ bytes) → IsUnforged (synced ++ unsynced) (synced ++ bytes) }
{}

/// What a wild crash leaves of an append or a cut in progress is among what one at the moments of its steps may leave.
pub fn wild_crashes_within_calls()
    ensures appends { AppendIsCovered SurvivesUnforged }
    ensures cuts { CutIsCovered SurvivesUnforged }
{}

/// What a usual crash leaves forges nothing, and what forges nothing is among all that a wild crash leaves.
pub fn kinds_of_crashes()
    ensures usual { (state : DiskState) (steps : List DiskStep) (image : Image) → LeavesBy Survives state steps image → LeavesBy SurvivesUnforged state steps image }
    ensures wild { (state : DiskState) (steps : List DiskStep) (image : Image) → LeavesBy SurvivesUnforged state steps image → LeavesBy SurvivesWild state steps image }
{}
