//! What holds of the disks of engines, of runs of calls, and of lives one after another.

ghost use Rattle.std.specs.Prelude.{◌≡◌, ◌++◌, ℕ, List, [], Option, Ok};
ghost use Rattle.fjall_base.specs.Store.{Command, Store, fold, kept};
ghost use Rattle.std.specs.List.{AllByRecursion};
ghost use Rattle.fjall_base.specs.Disk.{DiskState, DiskStep, Image, IsImage, Leaves, LeavesBy, Meaning, Missing, Name, Took, disk_of, state_in};
ghost use Rattle.fjall_files.specs.Tidy.{IsTidy, IsTidyStep, StaysTidy};
ghost use Rattle.fjall_meta.specs.Keyspaces.{no_keyspaces};
ghost use Rattle.fjall_meta.specs.Replays.{bare};
ghost use Rattle.fjall_recovery.specs.Folders.{Contents, ImageStandsFor};
ghost use Rattle.fjall_recovery.specs.Amid.{HoldsAmid};
ghost use Rattle.fjall_recovery.specs.Held.{IsOpenFolder};
ghost use Rattle.fjall_recovery.specs.Wild.{SurvivesUnforged};
ghost use Rattle.fjall_engine.specs.Durables.{IsBeginning, StandsAmid, Durable};
ghost use Rattle.fjall_table.specs.Blocks.{Entry};
ghost use Rattle.fjall_engine.specs.Holding.{Held};
ghost use Rattle.fjall_engine.specs.Standing.{ClosesSafely, HoldsStore, ReadsOn, RunsOn, RunsSafely, StandsOn};
ghost use Rattle.fjall_machine.specs.declared.call.Call.{Call};
ghost use Rattle.fjall_history.specs.declared.reply.Reply.{Reply};
ghost use Rattle.fjall_base.specs.Crash.{IsHoused};
ghost use Rattle.fjall_engine.specs.Crashes.{BlamesEach, RunOn};
ghost use Rattle.fjall_engine.specs.Openings.{OpensAfterCrash, OpensAs};
ghost use Rattle.fjall_calls.specs.Lives.{HoldsFold, IsFoldOf, LastSync, PastLife, LifeGoesOn, Lived, Lives, Served, all_left, life_begun, start_of};
ghost use Rattle.fjall_machine.specs.Machine as machine;
ghost use Rattle.fjall_machine.specs.Machine.{present};
ghost use Rattle.fjall_engine.specs.Standing as memory;

/// A disk that a crash left, at whichever moment of these steps, holds the store that its image stands for.
pub fn crash_holds()
    ensures { (state : DiskState) (steps : List DiskStep) (image : Image) (store : Store) → Leaves state steps image
        → ImageStandsFor image store → HoldsStore (disk_of image) store }
{}

/// What a crash leaves amid a run of calls holds the base with a beginning of all the commands, which has at least those
/// that were safe. A core that opens on it stands for that store, and goes on from it.
pub fn a_crash_amid_holds()
    ensures { (state : DiskState) (steps : List DiskStep) (image : Image) (base : Store) (least all : List Command)
        → Leaves state steps image → StandsAmid base least all image
        → (front : List Command) × IsBeginning least front × IsBeginning front all × HoldsStore (disk_of image) (kept (fold base front)) }
{}

/// So does what a wild crash leaves there, any bytes behind the synced ones of a file that forge nothing, where an opening finds
/// nothing wrong in it.
pub fn a_wild_crash_amid_holds()
    ensures { (state : DiskState) (steps : List DiskStep) (image : Image) (folder : Option Contents) (base : Store) (least all : List Command)
        → ((usual : Image) → Leaves state steps usual → StandsAmid base least all usual) → LeavesBy SurvivesUnforged state steps image → IsOpenFolder image folder
        → (front : List Command) × IsBeginning least front × IsBeginning front all × HoldsStore (disk_of image) (kept (fold base front)) }
{}

/// A crash of a disk that holds a store leaves that store.
pub fn holds_through_crash()
    ensures { (state : DiskState) (store : Store) (image : Image) → HoldsStore state store → IsImage state image → ImageStandsFor image store }
{}

/// A disk on which nothing was ever put holds a store without keyspaces.
pub fn new_disk_holds()
    ensures { (state : DiskState) → ((name : Name) → state name ≡ record { now = Missing; older = [] }) → HoldsStore state (bare no_keyspaces) }
{}

/// A disk that holds a store holds it with nothing pending.
pub fn holds_store_amid()
    ensures { (state : DiskState) (store : Store) → HoldsStore state store → HoldsAmid state store [] }
{}

/// The disk of each core holds its base with what is pending, whatever its tables have, so that a core opens on it without a crash between; a fault
/// may have poisoned it. That the folder of each name stands is a law of disks.
pub fn a_core_holds_amid()
    ensures { (core : Held) (entries : ℕ → List (List Entry)) (d : Durable) → StandsOn core entries d → IsHoused (state_in d.meaning) → HoldsAmid (state_in d.meaning) d.base d.pending }
{}

/// One life of an engine, wherever it was cut off, dropped or refused: what its disk holds then is the base with a beginning
/// of what was pending and, behind it, a beginning of what the life tried, which has all that a sync followed that
/// succeeded. Where it opened, it was shown just the base with that beginning, which stays: an opening is a sync.
pub fn a_life_holds()
    ensures { (old : Meaning) (base : Store) (pending : List Command) (life : PastLife) (new : DiskState) (next : Store) (waits : List Command)
        → HoldsAmid (state_in old) base pending → Lived old base pending life new next waits
        → LifeGoesOn base pending life new next waits }
{}

/// Lives one after another, each cut off at any moment, dropped or refused: what the disk holds then, and what a crash leaves
/// of it, is the fold of a beginning of what each of them tried, in order, over all of them, and has all that a sync followed
/// that succeeded. What an opening showed stays for all later lives: an opening is a sync. With one choice of these beginnings,
/// each life that opened was shown the fold of what is left of those before it, and it and all later ones go on from there.
pub fn lives_hold()
    ensures { (first : DiskState) (start : Store) (lives : List PastLife) (new : DiskState) (base : Store) (pending : List Command)
        → HoldsAmid first start [] → Lives first start lives new base pending → HoldsFold start lives new base pending }
{}

/// What opens behind such lives stands for that fold: the store that it opened as is the last of their chain, and so goes on from
/// all that they were shown.
pub fn lives_open()
    ensures { (first : DiskState) (start : Store) (lives : List PastLife) (old : Meaning) (base : Store) (pending : List Command) (core : Held)
        → HoldsAmid first start [] → Lives first start lives (state_in old) base pending → (opened : OpensAfterCrash old core base pending)
        → (left : IsFoldOf start lives (kept (fold base opened.front))) × OpensAs core (kept (fold start (all_left left.fronts))) }
{}

/// Where a core closed and was told that all is well, its disk holds the store that it had, with nothing pending. So what opens on it
/// then opens as that store.
pub fn a_closed_core_opens_again()
    ensures holds { (core : Held) (s : machine.State) (d : Durable) (disk : Meaning) → memory.StandsFor core s → ReadsOn core s
        → StandsOn core s.parts.entries d → ClosesSafely core (Ok tt) disk → HoldsAmid (state_in disk) (kept (present s)) [] }
    ensures opens { (disk : Meaning) (core : Held) (s : machine.State) → OpensAfterCrash disk core (kept (present s)) [] → OpensAs core (kept (present s)) }
{}

// ---- runs

/// Of each run it is known which sync was the last that succeeded.
pub fn a_last_sync()
    ensures { (core new : Held) (store : Store) (calls : List Call) (replies : List Reply) (opens : OpensAs core store)
        (run : Served core store opens calls replies new)
        → (synced : List Command) × LastSync core new store calls replies opens run synced }
{}

/// No call is a run too.
pub fn no_calls_run()
    ensures { (core : Held) (s : machine.State) (d : Durable) → memory.StandsFor core s → ReadsOn core s → StandsOn core s.parts.entries d → RunsOn core [] [] core s d }
{}

/// One run behind another is one run.
pub fn runs_go_on()
    ensures { (old mid new : Held) (s : machine.State) (d : Durable) (calls more : List Call) (replies others : List Reply)
        → StandsOn old s.parts.entries d → RunsOn old calls replies mid s d → RunsSafely mid more others new
        → RunsOn old (calls ++ more) (replies ++ others) new s d }
{}

// ---- what stands in the way

/// Nothing stands in the way on a disk on which nothing was ever put.
pub fn new_disk_tidy()
    ensures { (state : DiskState) → ((name : Name) → state name ≡ record { now = Missing; older = [] }) → IsTidy state }
{}

/// However the steps of a run are told, each of them puts at a name only what may stand there, where the run does.
pub fn each_step_is_tidy()
    ensures { (old new : Meaning) (added : List DiskStep) → StaysTidy old new → Took old new added → AllByRecursion IsTidyStep added }
{}

/// Where nothing stood in the way, nothing does on what a crash leaves amid such steps.
pub fn crash_stays_tidy()
    ensures { (state : DiskState) (steps : List DiskStep) (image : Image) → IsTidy state → AllByRecursion IsTidyStep steps
        → Leaves state steps image → IsTidy (disk_of image) }
{}

/// Nor does anything behind lives of engines, wherever they were cut off, dropped or refused.
pub fn lives_stay_tidy()
    ensures { (first : DiskState) (start : Store) (lives : List PastLife) (new : DiskState) (base : Store) (pending : List Command)
        → IsTidy first → Lives first start lives new base pending → IsTidy new }
{}

/// So each `Io` of a run behind such lives is told where the device failed, where nothing stood in the way of the first.
pub fn lives_blame_the_device()
    ensures { (first : DiskState) (start : Store) (lives : List PastLife) (old : Meaning) (base : Store) (pending : List Command)
        (core new : Held) (calls : List Call) (replies : List Reply)
        → IsTidy first → Lives first start lives (state_in old) base pending
        → (opened : OpensAfterCrash old core base pending) (run : Served core (kept (fold base opened.front)) opened.opens calls replies new)
        → BlamesEach (start_of core (kept (fold base opened.front)) opened.opens) (life_begun core (kept (fold base opened.front)))
        calls replies run.tried run.state run.durable run.run }
{}

/// Where nothing stands in the way, each `Io` of a run is told where the device failed, and no call of the disk was one that
/// no disk can serve.
pub fn a_run_blames_the_device()
    ensures { (s t : machine.State) (d e : Durable) (calls : List Call) (replies : List Reply) (tried : List Command)
        → IsTidy (state_in d.meaning) → (run : RunOn s d calls replies tried t e) → BlamesEach s d calls replies tried t e run }
{}
