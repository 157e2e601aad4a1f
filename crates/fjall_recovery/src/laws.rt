//! What holds of folders, and of how they lie on a disk.

ghost use Rattle.std.specs.Prelude.{◌≡◌, List, ◌++◌, ◌<◌, ◌^◌, ℕ, [], Option, Some, is_some, true};
ghost use Rattle.fjall_base.specs.Disk.{DiskState, DiskStep, Folder, Image, Leaves, Name, Survives, disk_of};
ghost use Rattle.fjall_base.specs.declared.error.Error.{Error};
ghost use Rattle.fjall_base.specs.Store.{Store};
ghost use Rattle.fjall_table.specs.Blocks.{Entry};
ghost use Rattle.fjall_manifest.specs.Homes.{Home};
ghost use Rattle.fjall_meta.specs.Keyspaces.{keyspace_at};
ghost use Rattle.fjall_manifest.specs.Catalog.{CatalogRests, Says};
ghost use Rattle.fjall_recovery.specs.Homes.{HasOpenableHome, HasVersions, HaveHomes, HaveVersions};
ghost use Rattle.fjall_recovery.specs.Folders.{AreMade, Contents, ImageStandsFor, IsOpenable, IsSound, with_versions};
ghost use Rattle.fjall_recovery.specs.Journals.{WholeJournal, HoldsJournals};
ghost use Rattle.fjall_recovery.specs.Refusals.{AreOne, FolderRefuses, FolderRefusesIn, HasTornTail, IsTornTail};
ghost use Rattle.fjall_files.specs.Regions.{IsImageIn};
ghost use Rattle.fjall_journal.specs.Batches.{Written};
ghost use Rattle.fjall_journal.specs.declared.recovery_mode.RecoveryMode.{RecoveryMode};
ghost use Rattle.fjall_manifest.specs.Records.{Fields};
ghost use Rattle.fjall_files.specs.Names.{journal_name, keyspace_folder};
ghost use Rattle.fjall_recovery.specs.Halves.{HasRoot, HasTree, Tree, is_of_keyspaces, is_of_root, outside, with_home_at};
ghost use Rattle.fjall_recovery.specs.Held.{Holds, IsFolder, IsOpenFolder, store_of_folder};
ghost use Rattle.fjall_recovery.specs.Places.{HasSafeHome, HaveSafeHomes, Journaling, LiesInRoot, RestsInTree, contents_with, journals_with};

/// An image holds one list of journals.
pub fn one_list_of_journals()
    ensures { (image : Image) (journals others : List WholeJournal) → HoldsJournals image journals → HoldsJournals image others → journals ≡ others }
{}

/// A sound folder holds one thing, and one in which an opening finds nothing wrong does so but for the versions.
pub fn one_contents()
    ensures sound { (image : Image) (c d : Contents) → IsSound image c → IsSound image d → c ≡ d }
    ensures openable { (image : Image) (c d : Contents) → IsOpenable image c → IsOpenable image d → with_versions d.versions c ≡ d }
{}

/// A folder is refused for one error alone.
pub fn one_refusal()
    ensures { (image : Image) (first second : Error) → FolderRefuses image first → FolderRefuses image second → AreOne first second }
{}

/// In each mode a folder is refused for one error alone, and one in which nothing is wrong for its torn tail alone, where the
/// mode refuses that.
pub fn one_refusal_in_each_mode()
    ensures one { (mode : RecoveryMode) (image : Image) (first second : Error) → FolderRefusesIn mode image first → FolderRefusesIn mode image second
        → AreOne first second }
    ensures torn { (mode : RecoveryMode) (image : Image) (folder : Option Contents) (error : Error) → IsOpenFolder image folder → FolderRefusesIn mode image error
        → IsTornTail mode (HasTornTail image) error }
{}

/// An image of a folder stands for one store at most.
pub fn one_store()
    ensures { (image : Image) (s t : Store) → ImageStandsFor image s → ImageStandsFor image t → s ≡ t }
{}

/// No folder in which nothing is wrong is refused: only want of memory or a fault of the disk can keep it from being read.
pub fn openable_folders_are_read()
    ensures { (image : Image) (folder : Option Contents) (error : Error) → IsOpenFolder image folder → FolderRefuses image error → ⊥ }
{}

/// So is one that stands for a store.
pub fn sound_folders_are_read()
    ensures { (image : Image) (store : Store) (error : Error) → ImageStandsFor image store → FolderRefuses image error → ⊥ }
{}

/// A folder is sound where its root and its keyspaces are.
pub fn a_sound_folder_has_both_halves()
    ensures made { (image : Image) (c : Contents) → HasRoot image c.journals
        → HasTree image (record { last = c.last; keyspaces = c.keyspaces; homes = c.homes; versions = c.versions }) → IsSound image c }
    ensures parted { (image : Image) (c : Contents) → IsSound image c
        → HasRoot image c.journals × HasTree image (record { last = c.last; keyspaces = c.keyspaces; homes = c.homes; versions = c.versions }) }
{}

/// The root of an image is sound by what stands outside `keyspaces`.
pub fn roots_alike()
    ensures { (image other : Image) (journals : List WholeJournal) → ((q : Name) → is_of_root q ≡ true → other q ≡ image q) → HasRoot image journals
        → HasRoot other journals }
{}

/// The keyspaces of an image are sound by what stands in `keyspaces`.
pub fn trees_alike()
    ensures { (image other : Image) (t : Tree) → ((q : Name) → is_of_keyspaces q ≡ true → other q ≡ image q) → HasTree image t → HasTree other t }
{}

/// A change within the folder of a keyspace that lives, which has that home then, with those versions in its tables, leaves all
/// else of the tree as it is: in what stands, on a disk where all rests, and in whatever a crash leaves of that elsewhere.
pub fn one_home_changes()
    ensures image { (image other : Image) (t : Tree) (id : ℕ) (h : Home) (versions : List Entry) → HasTree image t
        → is_some (keyspace_at id t.keyspaces.living) ≡ true → ((q : Name) → outside id q ≡ true → other q ≡ image q) → HasOpenableHome other id h → HasVersions h versions
        → HasTree other (with_home_at id h versions t) }
    ensures rests { (old new : DiskState) (records : List Fields) (t : Tree) (id : ℕ) (h : Home) (versions : List Entry) → RestsInTree old records t
        → is_some (keyspace_at id t.keyspaces.living) ≡ true → ((q : Name) → outside id q ≡ true → new q ≡ old q) → HasSafeHome new id h
        → HasVersions h versions → RestsInTree new records (with_home_at id h versions t) }
    ensures crash { (state : DiskState) (image : Image) (records : List Fields) (t : Tree) (id : ℕ) (h : Home) (versions : List Entry)
        → RestsInTree state records t → is_some (keyspace_at id t.keyspaces.living) ≡ true → IsImageIn Survives (outside id) state image → HasOpenableHome image id h
        → HasVersions h versions → HasTree image (with_home_at id h versions t) }
{}

/// A change within tree 0's folder, after which it says that other keyspaces live, leaves the homes as they are: the tree is
/// that of the keyspaces that live then, where each of them has its home already.
pub fn the_catalog_changes()
    ensures image { (image other : Image) (records : List Fields) (t next : Tree) → HasTree image t → HaveHomes image next.keyspaces.living next.homes
        → HaveVersions next.homes next.versions → AreMade next.last next.keyspaces → ((q : Name) → outside 0 q ≡ true → other q ≡ image q)
        → other (keyspace_folder 0) ≡ Folder
        → Says other records next.last next.keyspaces → HasTree other next }
    ensures rests { (old new : DiskState) (records others : List Fields) (t next : Tree) → RestsInTree old records t
        → HaveSafeHomes old next.keyspaces.living next.homes → HaveVersions next.homes next.versions → AreMade next.last next.keyspaces
        → ((q : Name) → outside 0 q ≡ true → new q ≡ old q)
        → CatalogRests new others next.last next.keyspaces → RestsInTree new others next }
    ensures crash { (state : DiskState) (image : Image) (records others : List Fields) (t next : Tree) → RestsInTree state records t
        → HaveSafeHomes state next.keyspaces.living next.homes → HaveVersions next.homes next.versions → AreMade next.last next.keyspaces
        → IsImageIn Survives (outside 0) state image
        → image (keyspace_folder 0) ≡ Folder → Says image others next.last next.keyspaces → HasTree image next }
{}

/// No journal's name is in `keyspaces`.
pub fn journals_are_of_the_root()
    ensures { (id : ℕ) → id < 2 ^ 64 → is_of_root (journal_name id) ≡ true }
{}

/// Whatever a crash leaves of a root that lies so is sound, with the synced batches and some of the later ones, of which
/// it is a beginning.
pub fn crashes_leave_the_root()
    ensures { (state : DiskState) (image : Image) (j : Journaling) → LiesInRoot state j → IsImageIn Survives is_of_root state image
        → (behind rest : List Written) × (behind ++ rest ≡ j.later) × HasRoot image (journals_with j behind) }
{}

/// Whatever a crash leaves of keyspaces that rest so is sound, and says what they say.
pub fn crashes_leave_the_tree()
    ensures { (state : DiskState) (image : Image) (records : List Fields) (t : Tree) → RestsInTree state records t
        → IsImageIn Survives is_of_keyspaces state image → HasTree image t }
{}

/// A disk that a crash left holds what its image is.
pub fn a_crash_holds()
    ensures { (state : DiskState) (steps : List DiskStep) (image : Image) (folder : Option Contents) → Leaves state steps image → IsFolder image folder
        → Holds (disk_of image) folder }
{}

/// A disk on which nothing waits for a sync holds what lies on it.
pub fn a_rest_holds()
    ensures { (state : DiskState) (j : Journaling) (records : List Fields) (t : Tree) → j.later ≡ [] → LiesInRoot state j → RestsInTree state records t
        → Holds state (Some (contents_with j t [])) }
{}

/// A folder stands for its store.
pub fn a_folder_stands()
    ensures { (image : Image) (folder : Option Contents) → IsFolder image folder → ImageStandsFor image (store_of_folder folder) }
{}
