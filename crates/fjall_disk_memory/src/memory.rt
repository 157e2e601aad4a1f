//! A disk in memory, for tests of crashes and of faults.

ghost use Rattle.std.specs.Prelude.{◌≡◌, ◌≢◌, [], ◌∷◌, true, map, IfOk, IsOk, IsOkUnless, OnErr, OnOk};
ghost use Rattle.fjall_base.specs.Disk.{IsImage, IsImageBy, SurvivesWild, disk_of, state_in, Append, Cut, File, Folder, HasCause, Judged, Loosen, OnlyFaults, Sync, SyncFolder, Took, TookCut, TookOrNot, TookPart};
ghost use Rattle.fjall_base.specs.Disk.{making, removing, CanCreate, CanMakeFolder, CanRemoveFolder, HasFolder, IsEmpty, IsFile, IsLong, IsNoFile, IsNoFolder, IsThere, Lists, ReadsFile, ReadsAt, standing};
ghost use Rattle.fjall_base.specs.Crash.{crashed};
ghost use Rattle.fjall_disk_memory.specs.Memory.{named_place};
ghost use Rattle.fjall_disk_memory.specs.Wild.{filled, fills_of};

use crate::failing::Failing;
use crate::files::Files;
use crate::history::History;
use crate::node::{Kind, Node, crash_names, fill_names, holds_any, list_names};
use fjall_base::{DirEntry, Disk, Error, Result};
use std::alloc::Global;

/// A disk that is a list of names in memory. It is honest: contracts know all that it holds, and which
/// steps it took.
///
/// It can be told to fail at a call, and be crashed. Each lookup walks the whole list.
#[derive(Drop)]
pub struct MemoryDisk {
    files: Files,
    failing: Failing,
}

impl MemoryDisk {
    ghost use Rattle.fjall_disk_memory.specs.MemoryDisk.{meaning_in};

    /// An empty disk, without a fault. It allocates nothing.
    pub fn new(alloc: Global) -> MemoryDisk
        ensures meaning { meaning_in result ≡ record { places = []; steps = []; faults = 0; misuses = 0 } }
    {
        MemoryDisk {
            files: Files {
                alloc,
                names: Vec::new(alloc),
                history: History::new(),
            },
            failing: Failing {
                count: 0,
                misuses: 0,
                call: 0,
                part: 0,
            },
        }
    }

    /// Makes the device call of that number fail, counted from 1 from now on, reads too; where it is an
    /// append, `part` of its bytes go out first. The number 0 makes none fail.
    ///
    /// An earlier number that has not come up yet is forgotten. After the call that fails the next ones
    /// are as before.
    pub fn fail_at(&mut self, call: u64, part: usize)
        ensures same { meaning_in self.new ≡ meaning_in self.old }
        ensures call { self.new.failing.call ≡ call }
        ensures part { self.new.failing.part ≡ part }
    {
        self.failing.call = call;
        self.failing.part = part;
    }

    /// The disk after a crash: each file keeps at most `keep` of its unsynced bytes, and all names stay.
    /// What is left counts as synced.
    ///
    /// That is one of the images that a crash may leave. A call that was told to fail still does.
    ///
    /// It fails with `Error::OutOfMemory` alone.
    pub fn crash(self, keep: usize) -> Result<MemoryDisk>
        ensures image { IfOk result (λ _. IsImage (state_in (meaning_in self)) (crashed keep (state_in (meaning_in self)))) }
        ensures cause { IsOkUnless result Error.OutOfMemory }
        ensures left { IfOk result (λ disk. state_in (meaning_in disk) ≡ disk_of (crashed keep (state_in (meaning_in self)))) }
        ensures steps { IfOk result (λ disk. (meaning_in disk).steps ≡ []) }
        ensures faults { IfOk result (λ disk. (meaning_in disk).faults ≡ (meaning_in self).faults) }
        ensures told { IfOk result (λ disk. disk.failing ≡ self.failing) }
    {
        let MemoryDisk { files, failing } = self;
        let Files {
            alloc,
            mut names,
            ..
        } = files;
        crash_names(&mut names, keep)?;
        let history = History::new();
        Ok(MemoryDisk {
            files: Files {
                alloc,
                names,
                history,
            },
            failing,
        })
    }

    /// The disk after a wild crash: each file keeps its synced bytes, and behind them stand the bytes that
    /// `fill` gives under its name. What is left counts as synced, and all names stay.
    ///
    /// Files that `fill` doesn't name keep their synced bytes alone, and a name that no file has is passed
    /// over. Two fills of one name follow one another.
    ///
    /// That is one of the images that a wild crash may leave. A call that was told to fail still does.
    ///
    /// It fails with `Error::OutOfMemory` alone.
    pub fn crash_wild(self, fill: &[(&str, &[u8])]) -> Result<MemoryDisk>
        ensures image { IfOk result (λ _. IsImageBy SurvivesWild (state_in (meaning_in self)) (filled (fills_of fill.now) (crashed 0 (state_in (meaning_in self))))) }
        ensures cause { IsOkUnless result Error.OutOfMemory }
        ensures left { IfOk result (λ disk. state_in (meaning_in disk) ≡ disk_of (filled (fills_of fill.now) (crashed 0 (state_in (meaning_in self))))) }
        ensures steps { IfOk result (λ disk. (meaning_in disk).steps ≡ []) }
        ensures faults { IfOk result (λ disk. (meaning_in disk).faults ≡ (meaning_in self).faults) }
        ensures told { IfOk result (λ disk. disk.failing ≡ self.failing) }
    {
        let MemoryDisk { files, failing } = self;
        let Files {
            alloc,
            mut names,
            ..
        } = files;
        crash_names(&mut names, 0)?;
        fill_names(&mut names, fill)?;
        let history = History::new();
        Ok(MemoryDisk {
            files: Files {
                alloc,
                names,
                history,
            },
            failing,
        })
    }
}

impl Disk for MemoryDisk {
    ghost use Rattle.fjall_disk_memory.specs.Failing.{ChangesAsTold, ReadsAsTold, SendsAsTold};
    ghost use Rattle.fjall_disk_memory.specs.MemoryDisk.{meaning_in};

    ghost honest = { true };

    ghost meaning = { λ disk. record {
      places = map named_place disk.files.names.items;
      steps = disk.files.history.steps;
      faults = disk.failing.count;
      misuses = disk.failing.misuses;
    } };

    fn faults(&self) -> u64 {
        self.failing.count
    }

    fn read(&mut self, alloc: Global, name: &str) -> Result<Option<Vec<u8>>>
        ensures found { IfOk result (ReadsFile (state_in (meaning_in self.old) name.now).now) }
        ensures same { Took (meaning_in self.old) (meaning_in self.new) [] }
        ensures judged { (meaning_in self.new).misuses ≡ (meaning_in self.old).misuses }
        ensures cause { HasCause (meaning_in self.old) (meaning_in self.new) result }
        ensures told { ReadsAsTold self.old.failing self.new.failing result }
    {
        if self.failing.strikes() {
            return Err(self.failing.fault());
        }
        Ok(self.files.read(alloc, name)?)
    }

    fn read_at(
        &mut self,
        alloc: Global,
        name: &str,
        at: usize,
        len: usize,
    ) -> Result<Option<Vec<u8>>>
        ensures found { IfOk result (ReadsAt at len (state_in (meaning_in self.old) name.now).now) }
        ensures same { Took (meaning_in self.old) (meaning_in self.new) [] }
        ensures judged { (meaning_in self.new).misuses ≡ (meaning_in self.old).misuses }
        ensures cause { HasCause (meaning_in self.old) (meaning_in self.new) result }
        ensures told { ReadsAsTold self.old.failing self.new.failing result }
    {
        if self.failing.strikes() {
            return Err(self.failing.fault());
        }
        Ok(self.files.read_part(alloc, name, at, len)?)
    }

    fn list(&mut self, alloc: Global, folder: &str) -> Result<Vec<DirEntry>>
        ensures found { IfOk result (λ listed. Lists (state_in (meaning_in self.old)) folder.now listed.items) }
        ensures same { Took (meaning_in self.old) (meaning_in self.new) [] }
        ensures judged { (meaning_in self.new).misuses ≡ (meaning_in self.old).misuses }
        ensures cause { HasCause (meaning_in self.old) (meaning_in self.new) result }
        ensures told { ReadsAsTold self.old.failing self.new.failing result }
    {
        if self.failing.strikes() {
            return Err(self.failing.fault());
        }
        Ok(list_names(alloc, self.files.names.as_slice(), folder)?)
    }

    fn create(&mut self, name: &str) -> Result<()>
        ensures ok { OnOk result (Took (meaning_in self.old) (meaning_in self.new) (making name.now (File [] []) (state_in (meaning_in self.old) name.now).now)) }
        ensures file { OnOk result (IsFile (state_in (meaning_in self.new) name.now).now) }
        ensures named { OnOk result (name.now ≢ []) }
        ensures housed { OnOk result (HasFolder (state_in (meaning_in self.old)) name.now) }
        ensures err { OnErr result (Took (meaning_in self.old) (meaning_in self.new) []) }
        ensures judged { Judged (CanCreate (state_in (meaning_in self.old)) name.now) (meaning_in self.old) (meaning_in self.new) }
        ensures cause { OnlyFaults (meaning_in self.old) (meaning_in self.new) result }
        ensures told { ChangesAsTold (CanCreate (state_in (meaning_in self.old)) name.now) self.old.failing self.new.failing result }
    {
        let strikes = self.failing.strikes();
        if !self.files.can_create(name) {
            return Err(self.failing.misuse());
        }
        if strikes {
            return Err(self.failing.fault());
        }
        match self.files.kind(name) {
            Kind::File => Ok(()),
            Kind::Folder => Err(self.failing.fault()),
            Kind::Missing => {
                let alloc = self.files.alloc;
                if self.files.put(name, Node::file(alloc)).is_err() {
                    return Err(self.failing.out_of_memory());
                }
                Ok(())
            }
        }
    }

    fn append(&mut self, name: &str, bytes: &[u8]) -> Result<()>
        ensures ok { OnOk result (Took (meaning_in self.old) (meaning_in self.new) (Append name.now bytes.now ∷ [])) }
        ensures file { OnOk result (IsFile (state_in (meaning_in self.old) name.now).now) }
        ensures err { OnErr result (TookPart (meaning_in self.old) (meaning_in self.new) name.now bytes.now) }
        ensures judged { Judged (IsFile (state_in (meaning_in self.old) name.now).now) (meaning_in self.old) (meaning_in self.new) }
        ensures cause { OnlyFaults (meaning_in self.old) (meaning_in self.new) result }
        ensures told { ChangesAsTold (IsFile (state_in (meaning_in self.old) name.now).now) self.old.failing self.new.failing result }
        ensures sent { SendsAsTold (IsFile (state_in (meaning_in self.old) name.now).now) self.old.failing (meaning_in self.old) (meaning_in self.new) name.now bytes.now result }
    {
        let strikes = self.failing.strikes();
        if !self.files.is_file(name) {
            return Err(self.failing.misuse());
        }
        if strikes {
            let part = self.failing.part.min(bytes.len());
            if self.files.append(name, &bytes[..part]).is_err() {
                return Err(self.failing.out_of_memory());
            }
            return Err(self.failing.fault());
        }
        if self.files.append(name, bytes).is_err() {
            return Err(self.failing.out_of_memory());
        }
        Ok(())
    }

    fn sync(&mut self, name: &str) -> Result<()>
        ensures ok { OnOk result (Took (meaning_in self.old) (meaning_in self.new) (Sync name.now ∷ [])) }
        ensures file { OnOk result (IsFile (state_in (meaning_in self.old) name.now).now) }
        ensures err { OnErr result (TookOrNot (meaning_in self.old) (meaning_in self.new) (Sync name.now ∷ [])) }
        ensures judged { Judged (IsFile (state_in (meaning_in self.old) name.now).now) (meaning_in self.old) (meaning_in self.new) }
        ensures cause { OnlyFaults (meaning_in self.old) (meaning_in self.new) result }
        ensures told { ChangesAsTold (IsFile (state_in (meaning_in self.old) name.now).now) self.old.failing self.new.failing result }
        ensures served { self.old.failing.call ≢ 1 → IsFile (state_in (meaning_in self.old) name.now).now → IsOk result }
    {
        let strikes = self.failing.strikes();
        if !self.files.is_file(name) {
            return Err(self.failing.misuse());
        }
        if strikes || self.files.sync(name).is_err() {
            return Err(self.failing.fault());
        }
        Ok(())
    }

    fn cut_sync(&mut self, name: &str, len: usize) -> Result<()>
        ensures ok { OnOk result (Took (meaning_in self.old) (meaning_in self.new) (Loosen name.now len ∷ Cut name.now len ∷ [])) }
        ensures long { OnOk result (IsLong len (state_in (meaning_in self.old) name.now).now) }
        ensures err { OnErr result (TookCut (meaning_in self.old) (meaning_in self.new) name.now len) }
        ensures judged { Judged (IsLong len (state_in (meaning_in self.old) name.now).now) (meaning_in self.old) (meaning_in self.new) }
        ensures cause { OnlyFaults (meaning_in self.old) (meaning_in self.new) result }
        ensures told { ChangesAsTold (IsLong len (state_in (meaning_in self.old) name.now).now) self.old.failing self.new.failing result }
        ensures served { self.old.failing.call ≢ 1 → IsLong len (state_in (meaning_in self.old) name.now).now → IsOk result }
    {
        let strikes = self.failing.strikes();
        if !self.files.is_long(name, len) {
            return Err(self.failing.misuse());
        }
        if strikes || self.files.cut(name, len).is_err() {
            return Err(self.failing.fault());
        }
        Ok(())
    }

    fn remove(&mut self, name: &str) -> Result<()>
        ensures ok { OnOk result (Took (meaning_in self.old) (meaning_in self.new) (removing name.now (state_in (meaning_in self.old) name.now).now)) }
        ensures kind { OnOk result (IsNoFolder (state_in (meaning_in self.old) name.now).now) }
        ensures err { OnErr result (Took (meaning_in self.old) (meaning_in self.new) []) }
        ensures judged { Judged (IsNoFolder (state_in (meaning_in self.old) name.now).now) (meaning_in self.old) (meaning_in self.new) }
        ensures cause { OnlyFaults (meaning_in self.old) (meaning_in self.new) result }
        ensures told { ChangesAsTold (IsNoFolder (state_in (meaning_in self.old) name.now).now) self.old.failing self.new.failing result }
    {
        let strikes = self.failing.strikes();
        if !self.files.is_no_folder(name) {
            return Err(self.failing.misuse());
        }
        if strikes {
            return Err(self.failing.fault());
        }
        match self.files.kind(name) {
            Kind::Missing => Ok(()),
            Kind::Folder => Err(self.failing.fault()),
            Kind::File => {
                if self.files.put(name, Node::Missing).is_err() {
                    return Err(self.failing.out_of_memory());
                }
                Ok(())
            }
        }
    }

    fn remove_folder(&mut self, name: &str) -> Result<()>
        ensures ok { OnOk result (Took (meaning_in self.old) (meaning_in self.new) (removing name.now (state_in (meaning_in self.old) name.now).now)) }
        ensures kind { OnOk result (IsNoFile (state_in (meaning_in self.old) name.now).now) }
        ensures empty { OnOk result ((state_in (meaning_in self.old) name.now).now ≡ Folder → IsEmpty (state_in (meaning_in self.old)) name.now) }
        ensures err { OnErr result (Took (meaning_in self.old) (meaning_in self.new) []) }
        ensures judged { Judged (CanRemoveFolder (state_in (meaning_in self.old)) name.now) (meaning_in self.old) (meaning_in self.new) }
        ensures cause { OnlyFaults (meaning_in self.old) (meaning_in self.new) result }
        ensures told { ChangesAsTold (CanRemoveFolder (state_in (meaning_in self.old)) name.now) self.old.failing self.new.failing result }
    {
        let strikes = self.failing.strikes();
        if !self.files.can_remove_folder(name) {
            return Err(self.failing.misuse());
        }
        if strikes {
            return Err(self.failing.fault());
        }
        match self.files.kind(name) {
            Kind::Missing => Ok(()),
            Kind::File => Err(self.failing.fault()),
            Kind::Folder => {
                if holds_any(self.files.names.as_slice(), name) {
                    return Err(self.failing.fault());
                }
                if self.files.put(name, Node::Missing).is_err() {
                    return Err(self.failing.out_of_memory());
                }
                Ok(())
            }
        }
    }

    fn make_folder(&mut self, name: &str) -> Result<()>
        ensures ok { OnOk result (Took (meaning_in self.old) (meaning_in self.new) (making name.now Folder (state_in (meaning_in self.old) name.now).now)) }
        ensures folder { OnOk result ((state_in (meaning_in self.new) name.now).now ≡ Folder) }
        ensures named { OnOk result (name.now ≢ []) }
        ensures housed { OnOk result (HasFolder (state_in (meaning_in self.old)) name.now) }
        ensures err { OnErr result (Took (meaning_in self.old) (meaning_in self.new) []) }
        ensures judged { Judged (CanMakeFolder (state_in (meaning_in self.old)) name.now) (meaning_in self.old) (meaning_in self.new) }
        ensures cause { OnlyFaults (meaning_in self.old) (meaning_in self.new) result }
        ensures told { ChangesAsTold (CanMakeFolder (state_in (meaning_in self.old)) name.now) self.old.failing self.new.failing result }
    {
        let strikes = self.failing.strikes();
        if !self.files.can_make_folder(name) {
            return Err(self.failing.misuse());
        }
        if strikes {
            return Err(self.failing.fault());
        }
        match self.files.kind(name) {
            Kind::Folder => Ok(()),
            Kind::File => Err(self.failing.fault()),
            Kind::Missing => {
                if self.files.put(name, Node::Folder).is_err() {
                    return Err(self.failing.out_of_memory());
                }
                Ok(())
            }
        }
    }

    fn sync_folder(&mut self, name: &str) -> Result<()>
        ensures ok { OnOk result (Took (meaning_in self.old) (meaning_in self.new) (SyncFolder name.now ∷ [])) }
        ensures there { OnOk result (IsThere (standing (state_in (meaning_in self.old))) name.now) }
        ensures err { OnErr result (Took (meaning_in self.old) (meaning_in self.new) []) }
        ensures judged { Judged (IsThere (standing (state_in (meaning_in self.old))) name.now) (meaning_in self.old) (meaning_in self.new) }
        ensures cause { OnlyFaults (meaning_in self.old) (meaning_in self.new) result }
        ensures told { ChangesAsTold (IsThere (standing (state_in (meaning_in self.old))) name.now) self.old.failing self.new.failing result }
        ensures served { self.old.failing.call ≢ 1 → IsThere (standing (state_in (meaning_in self.old))) name.now → IsOk result }
    {
        let strikes = self.failing.strikes();
        if !self.files.is_there(name) {
            return Err(self.failing.misuse());
        }
        if strikes || self.files.sync_folder(name).is_err() {
            return Err(self.failing.fault());
        }
        Ok(())
    }

    ghost housed = { λ disk honest. disk.files.housed };
}
