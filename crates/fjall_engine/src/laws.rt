//! What holds of calls, whatever they were called on.

ghost use Rattle.std.specs.Prelude.{◌≡◌, ◌≤◌, ℕ, None};
ghost use Rattle.std.specs.FinMap.{len};
ghost use Rattle.fjall_base.specs.Store.{map_at};
ghost use Rattle.fjall_jobs.specs.Tasks.{Task};
ghost use Rattle.fjall_engine.specs.Holding.{Held};
ghost use Rattle.fjall_engine.specs.Standing.{LeadsOn, Owes, ReadsOn, RestsOnTables, Serves, Steps};
ghost use Rattle.fjall_machine.specs.Shapes.{CallShape, OfRead};
ghost use Rattle.fjall_history.specs.declared.reply.Reply.{Reply};
ghost use Rattle.fjall_history.specs.declared.ticket.View.{View};
ghost use Rattle.fjall_history.specs.Queries.{Query};
ghost use Rattle.fjall_trees.specs.Tables.{shape_in};
ghost use Rattle.fjall_machine.specs.Machine as machine;
ghost use Rattle.fjall_machine.specs.Merging.{KnowsMerge};
ghost use Rattle.fjall_machine.specs.Remembered.{KnowsTask};
ghost use Rattle.fjall_engine.specs.Standing as memory;

/// What a call owes whatever the disk is makes it a step of the machine, but for what rests on what tables hold, of which a disk may tell
/// anything: a read of a keyspace that has some, a merge that was to begin and met a wrong block, and one that is out, unless it is stale.
pub fn an_owed_call_steps()
    ensures { (old new : Held) (shape : CallShape) (reply : Reply) → Owes old shape reply new → (RestsOnTables old shape reply → ⊥)
        → Steps old shape reply new }
{}

/// What is known of a job stays known, whatever is called and answered: of a flush in memory, over any disk; and of a merge in whichever state
/// the call steps to.
pub fn a_known_job_stays_known()
    ensures flush { (old new : Held) (shape : CallShape) (reply : Reply) → Owes old shape reply new
        → (task : Task) → KnowsTask old.memory task → KnowsTask new.memory task }
    ensures merge { (core : Held) (s t : machine.State) (shape : CallShape) (reply : Reply) → memory.StandsFor core s → machine.StepOf s shape reply t
        → (target : ℕ) (task : Task) → KnowsMerge s target task → KnowsMerge t target task }
{}

/// Whatever a read tells, over any disk, what the core stood for it stands for behind it; and over a disk that returns what it holds,
/// its tables are there as before, and it stands on the disk with no more pending.
pub fn a_read_leaves_all()
    ensures owes { (old new : Held) (view : View) (id : ℕ) (query : Query) (reply : Reply) → Owes old (OfRead view id query) reply new
        → (s : machine.State) → memory.StandsFor old s → memory.StandsFor new s }
    ensures serves { (old new : Held) (view : View) (id : ℕ) (query : Query) (reply : Reply) → Serves old (OfRead view id query) reply new
        → (s : machine.State) → memory.StandsFor old s → ReadsOn old s
        → memory.StandsFor new s × ReadsOn new s × LeadsOn old s (OfRead view id query) reply new s }
{}

/// No view of a keyspace that can be read has more pairs than versions are counted of it, which is what
/// [`approximate_len`](crate::Engine::approximate_len) tells, up to the greatest `u64`.
pub fn no_view_is_longer()
    ensures { (core : Held) (s : machine.State) → memory.StandsFor core s → ReadsOn core s
        → (view : View) (id : ℕ) (query : Query) → machine.due s (OfRead view id query) ≡ None
        → len (map_at (machine.maps_in s view) id) ≤ machine.version_count (shape_in id s.parts.trees) }
{}
