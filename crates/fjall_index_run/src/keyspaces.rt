//! Lines of keyspaces by their names, which know nothing of an index.

use crate::answer::{Answer, Tried, Undone};
use crate::session::Session;
use fjall_index::{Call, Error, JobId, KeyspaceCreateOptions, Reply, View};
use fjall_recorder::bytes;
use std::ops::Bound;

impl Session {
    /// The id of the keyspace of a name.
    pub(crate) fn id_of(&mut self, name: &str) -> Tried<u64> {
        let alloc = self.alloc;
        let core = self.core()?;
        if !core.keyspace_exists(name.as_bytes()) {
            return Err(Undone::from(Error::UnknownKeyspace));
        }
        let options = KeyspaceCreateOptions::default(alloc)?;
        Ok(core.keyspace(name.as_bytes(), options)?)
    }

    // All pairs of a keyspace.
    fn pairs(&mut self, id: u64) -> Tried<Answer> {
        let everywhere = (Bound::Unbounded, Bound::Unbounded);
        let found = self
            .core()?
            .page_at(View::Present, id, &everywhere, false, usize::MAX)?;
        Ok(Answer::Pairs(found))
    }

    // Writes what a keyspace holds in memory to a table.
    fn flush(&mut self, id: u64) -> Tried<()> {
        let mut calls = Vec::new(self.alloc);
        calls.push(Call::RotateMemtable(id))?;
        calls.push(Call::FlushBegin(id))?;
        calls.push(Call::FlushFinish(JobId::of_call(1)))?;
        for reply in self.core()?.run(calls)? {
            if let Reply::Refused(error) = reply {
                return Err(Undone::from(error));
            }
        }
        Ok(())
    }

    /// What a line of a keyspace is answered.
    pub(crate) fn of_keyspace(&mut self, words: &[&str]) -> Tried<Answer> {
        let alloc = self.alloc;
        match words {
            ["insert", name, key, value] => {
                let (key, value) = (bytes(alloc, key)?, bytes(alloc, value)?);
                let id = self.id_of(name)?;
                self.core()?.insert(id, &key, &value)?;
            }
            ["remove", name, key] => {
                let key = bytes(alloc, key)?;
                let id = self.id_of(name)?;
                self.core()?.remove(id, &key)?;
            }
            ["flush", name] => {
                let id = self.id_of(name)?;
                self.flush(id)?;
            }
            ["pairs", name] => {
                let id = self.id_of(name)?;
                return self.pairs(id);
            }
            _ => return Err(Undone::BadLine),
        }
        Ok(Answer::Done)
    }
}
