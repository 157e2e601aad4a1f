//! The last records of keyspaces, as they are kept in memory.

ghost use Rattle.std.specs.Prelude.{◌≡◌, true, None, Some, IsOkUnless, OnErr, OnOk};
ghost use Rattle.std.specs.FinMap.{contains_key, empty, get, insert, remove};
ghost use Rattle.std.specs.Option.{option_map};
ghost use Rattle.fjall_manifest.specs.Records.{view};

use fjall_base::{Error, Result};
use fjall_manifest::Record;
use std::alloc::Global;
use std::collections::BTreeMap;
use std::marker::Model;

/// One keyspace's last record.
#[derive(Drop)]
struct LastRecord {
    record: Record,
}

impl Model for LastRecord {
    ghost use Rattle.std.specs.Coded.{codes};
    ghost use Rattle.fjall_manifest.specs.Records.{Fields};
    ghost use Rattle.fjall_manifest.specs.Records as records;

    ghost Value = { Fields };

    ghost coded = { Prim.hlevel (codes) };

    ghost view = { λ l. records.view l.record };
}

/// The last records of keyspaces, by the keyspaces' ids: of each that is kept, what its tables are and up to which number the
/// journals tell nothing more of it.
#[derive(Drop)]
pub struct LastRecords {
    records: BTreeMap<u64, LastRecord>,
}

impl Model for LastRecords {
    ghost use Rattle.std.specs.Coded.{codes};
    ghost use Rattle.std.specs.FinMap.{from_entries};
    ghost use Rattle.fjall_replay.specs.Known.{LastFields, records_code};

    ghost Value = { LastFields };

    ghost coded = { Prim.hlevel (codes, records_code) };

    ghost view = { λ l. from_entries l.records.entries };
}

impl LastRecords {
    /// None is kept.
    pub fn new(alloc: Global) -> LastRecords
        ensures { result ≡ empty }
    {
        LastRecords {
            records: BTreeMap::new(alloc),
        }
    }

    /// The last record of a keyspace, where it is kept.
    pub fn get(&self, id: u64) -> Option<&Record>
        ensures { option_map (λ last. view last.now) result ≡ get self.now id }
    {
        match self.records.get(&id) {
            Some(last) => Some(&last.record),
            None => None,
        }
    }

    /// Keeps a record as a keyspace's last one. It is refused for want of memory alone, and then nothing has changed; where one is
    /// kept of the keyspace already it takes none, and is done.
    pub fn insert(&mut self, id: u64, last: Record) -> Result<()>
        ensures ok { OnOk result (self.new ≡ insert self.old id (view last)) }
        ensures err { OnErr result (self.new ≡ self.old) }
        ensures only { IsOkUnless result Error.OutOfMemory }
    {
        self.records.insert(id, LastRecord { record: last })?;
        Ok(())
    }

    /// Keeps another record as the last one of a keyspace of which one is kept. It takes no memory.
    pub fn replace(&mut self, id: u64, last: Record)
        requires { contains_key self.old id ≡ true }
        ensures { self.new ≡ insert self.old id (view last) }
    {
        if let Some(kept) = self.records.get_mut(&id) {
            kept.record = last;
        }
    }

    /// Swaps the last record of a keyspace, of which one is kept, with another. It takes no memory.
    pub fn swap(&mut self, id: u64, last: &mut Record)
        requires { contains_key self.old id ≡ true }
        ensures kept { self.new ≡ insert self.old id (view last.old) }
        ensures back { get self.old id ≡ Some (view last.new) }
    {
        if let Some(kept) = self.records.get_mut(&id) {
            std::mem::swap(&mut kept.record, last);
        }
    }

    /// Keeps none of a keyspace any more.
    pub fn remove(&mut self, id: u64)
        ensures { self.new ≡ remove self.old id }
    {
        self.records.remove(&id);
    }
}
