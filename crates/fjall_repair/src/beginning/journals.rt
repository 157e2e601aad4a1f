//! The journals of a database that holds nothing.

ghost use Rattle.std.specs.Prelude.{◌≡◌, ◌≢◌, ◌<◌, [], false, All, Bool, IsTrue, OnOk, string_bytes};
ghost use Rattle.fjall_base.specs.Disk.{CanCreate, File, OnlyFaults, state_in};
ghost use Rattle.fjall_files.specs.Calls.{AllServed, StaysWhere};
ghost use Rattle.fjall_files.specs.Tidy.{FitsAt, IsTidy, StaysTidy};
ghost use Rattle.fjall_repair.specs.Plans.{WhereJournals};
ghost use Rattle.fjall_repair.specs.Making.{CanHold, MakingGoesOn, StaysAt};

use fjall_base::{Disk, Result};

/// Makes a file that holds nothing, or empties the one that is there, and syncs it.
fn empty_file<D: Disk>(disk: &mut D, name: &str) -> Result<()>
    ensures goes { IsTrue D.honest → (marking : Bool) → CanHold marking name.now [] → MakingGoesOn marking (D.meaning disk.old) (D.meaning disk.new) }
    ensures stays { IsTrue D.honest → StaysAt name.now (D.meaning disk.old) (D.meaning disk.new) }
    ensures emptied { IsTrue D.honest → OnOk result ((state_in (D.meaning disk.new) name.now).now ≡ File [] []) }
    ensures cause { OnlyFaults (D.meaning disk.old) (D.meaning disk.new) result }
    ensures kinds { IsTrue D.honest → FitsAt name.now (File [] []) → StaysTidy (D.meaning disk.old) (D.meaning disk.new) }
    ensures served { IsTrue D.honest → CanCreate (state_in (D.meaning disk.old)) name.now → AllServed (D.meaning disk.old) (D.meaning disk.new) }
{
    disk.create(name)?;
    disk.cut_sync(name, 0)
}

/// Makes each of these journals, or empties it where it is there. None of them has a whole batch.
pub(crate) fn empty_journals<D: Disk>(disk: &mut D, names: &[String]) -> Result<()>
    ensures goes { IsTrue D.honest → WhereJournals names.now (MakingGoesOn false (D.meaning disk.old) (D.meaning disk.new)) }
    ensures elsewhere { IsTrue D.honest → StaysWhere (D.meaning disk.old) (D.meaning disk.new) (λ q. All (λ name. q ≢ string_bytes name) names.now) }
    ensures emptied { IsTrue D.honest → OnOk result (All (λ name. (state_in (D.meaning disk.new) (string_bytes name)).now ≡ File [] []) names.now) }
    ensures cause { OnlyFaults (D.meaning disk.old) (D.meaning disk.new) result }
    ensures kinds { IsTrue D.honest → WhereJournals names.now (StaysTidy (D.meaning disk.old) (D.meaning disk.new)) }
    ensures served { IsTrue D.honest → IsTidy (state_in (D.meaning disk.old)) → WhereJournals names.now (AllServed (D.meaning disk.old) (D.meaning disk.new)) }
{
    for name in names {
        empty_file(disk, name.as_str())?;
    }
    Ok(())
}
