//! What a caller has seen of a database.

ghost use Rattle.std.specs.Prelude.{◌≡◌, [], ◌∷◌, IfErr, IfOk, IsTrue, OnErr, OnOk, Some};
ghost use Rattle.fjall_base.specs.Pairs.{lookup};
ghost use Rattle.fjall_base.specs.Store.{map_at};
ghost use Rattle.fjall_journal.specs.declared.op.Op.TheVariants as ops;
ghost use Rattle.fjall_tx.specs.Marks.{OfKey};
ghost use Rattle.fjall_tx.specs.Owns.{own_written};
ghost use Rattle.fjall_history.specs.Histories.{latest, number, view};
ghost use Rattle.fjall_history.specs.Moves.{HasGrown};
ghost use Rattle.fjall_shared.specs.Transactions.{transaction_begun, having_read, no_marks};
ghost use Rattle.fjall_seen.specs.Told.{CommitTold, EndsWithWrite, HasName, IsChangeCause, IsReadCause};

use crate::database::Database;
use crate::handles::{Snapshot, WriteTransaction};
use crate::naming::Naming;
use fjall_base::{Disk, Error, Result, UserValue};
use fjall_history::SeenSeat;
use fjall_options::KeyspaceCreateOptions;
use fjall_shared::{CommitOutcome, Flag};
use std::alloc::{AllocError, Global};
use std::marker::Model;
use std::result;
use std::sync::{Arc, Wait};

/// What a caller has seen of a database: a beginning of the one list of accepted commands. Contracts see it as that list, which each call
/// gives back as one that begins with what it held.
///
/// A call that takes the lock answers `Poisoned` once the database is closed.
pub struct Seen<D: Disk + Drop, J: Naming> {
    pub(crate) database: Arc<Database<D, J>, Global>,
    pub(crate) seat: SeenSeat,
}

// Written out, so that no crate above proves the drop of what it owns anew.
impl<D: Disk + Drop, J: Naming> Drop for Seen<D, J> {
    fn drop(self) {
        let Seen {
            database: _,
            seat: _,
        } = self;
    }
}

impl<D: Disk + Drop, J: Naming> Model for Seen<D, J> {
    ghost use Rattle.std.specs.Coded.{codes};
    ghost use Rattle.std.specs.Prelude.{◌≡◌, Some};
    ghost use Rattle.fjall_history.specs.Histories.{History};
    ghost use Rattle.fjall_history.specs.Codes.{history_code};

    ghost Value = { History };

    ghost coded = { Prim.hlevel (codes, history_code) };

    ghost view = { λ s. s.seat.list };

    ghost invariant = { λ s. J.table ≡ Some s.seat.table };
}

impl<D: Disk + Drop, J: Naming> Seen<D, J> {
    /// Gives a key of a keyspace a value. Where it is accepted it is the last command of the list that is then seen; a refusal for a length
    /// or a keyspace has its cause in that list.
    pub fn insert_as<R: Wait>(&mut self, rt: &R, id: u64, key: &[u8], value: &[u8]) -> Result<()>
        ensures later { HasGrown self.old self.new }
        ensures last { OnOk result (EndsWithWrite self.new (id, key.now, ops.Put value.now)) }
        ensures cause { IsTrue D.honest → IfErr result (IsChangeCause (latest self.new) ((id, key.now, ops.Put value.now) ∷ [])) }
    {
        let database = &*self.database;
        let mut guard = database.lock.lock(rt);
        match &mut *guard {
            Some(named) => named.insert_as(&mut self.seat, id, key, value),
            None => Err(Error::Poisoned),
        }
    }

    /// Takes a key of a keyspace and its value away, as [`insert_as`](Seen::insert_as) gives it one.
    pub fn remove_as<R: Wait>(&mut self, rt: &R, id: u64, key: &[u8]) -> Result<()>
        ensures later { HasGrown self.old self.new }
        ensures last { OnOk result (EndsWithWrite self.new (id, key.now, ops.Remove)) }
        ensures cause { IsTrue D.honest → IfErr result (IsChangeCause (latest self.new) ((id, key.now, ops.Remove) ∷ [])) }
    {
        let database = &*self.database;
        let mut guard = database.lock.lock(rt);
        match &mut *guard {
            Some(named) => named.remove_as(&mut self.seat, id, key),
            None => Err(Error::Poisoned),
        }
    }

    /// The value that a key of a keyspace has after the list that is then seen.
    pub fn get_as<R: Wait>(&mut self, rt: &R, id: u64, key: &[u8]) -> Result<Option<UserValue>>
        ensures later { HasGrown self.old self.new }
        ensures value { IsTrue D.honest → IfOk result (λ found. found ≡ lookup (map_at (latest self.new).maps id) key.now) }
        ensures cause { IsTrue D.honest → IfErr result (IsReadCause (latest self.new) id) }
    {
        let database = &*self.database;
        let mut guard = database.lock.lock(rt);
        match &mut *guard {
            Some(named) => named.get_as(&mut self.seat, id, key),
            None => Err(Error::Poisoned),
        }
    }

    /// The id of the keyspace of this name, which is made with these options where none has it: one of that name and id lives in the list
    /// that is then seen.
    pub fn keyspace_as<R: Wait>(
        &mut self,
        rt: &R,
        name: &[u8],
        options: KeyspaceCreateOptions,
    ) -> Result<u64>
        ensures later { HasGrown self.old self.new }
        ensures named { IsTrue D.honest → IfOk result (HasName (latest self.new) name.now) }
    {
        let database = &*self.database;
        let mut guard = database.lock.lock(rt);
        match &mut *guard {
            Some(named) => named.keyspace_as(&mut self.seat, name, options),
            None => Err(Error::Poisoned),
        }
    }

    /// The value that a key of a keyspace has in a snapshot: that after the commands of the list numbered below its instant.
    pub fn read_as<R: Wait>(
        &mut self,
        rt: &R,
        snapshot: &Snapshot<D, J>,
        id: u64,
        key: &[u8],
    ) -> Result<Option<UserValue>>
        ensures later { HasGrown self.old self.new }
        ensures value { IsTrue D.honest → IfOk result (λ found. found ≡ lookup (map_at (view self.new snapshot.now.ticket.instant).maps id) key.now) }
    {
        let database = &*self.database;
        let mut guard = database.lock.lock(rt);
        match &mut *guard {
            Some(named) => named.read_as(&mut self.seat, snapshot.ticket, id, key),
            None => Err(Error::Poisoned),
        }
    }

    /// Begins an optimistic transaction at the number of the list that is then seen. What other handles that were dropped left open is closed
    /// before.
    pub fn begin_as<R: Wait>(&mut self, rt: &R, alloc: Global) -> Result<WriteTransaction<D, J>>
        ensures later { HasGrown self.old self.new }
        ensures begun { IfOk result (λ w. (w.transaction ≡ transaction_begun (Some no_marks) w.transaction.ticket) × (w.transaction.ticket.instant ≡ number self.new)) }
    {
        let Ok(other) = Arc::try_clone(&self.database) else {
            return Err(Error::OutOfMemory);
        };
        let Ok((flag, raiser)) = Flag::new(alloc) else {
            return Err(Error::OutOfMemory);
        };
        let database = &*self.database;
        let mut guard = database.lock.lock(rt);
        let Some(named) = &mut *guard else {
            return Err(Error::Poisoned);
        };
        match named.begin_as(&mut self.seat, flag) {
            Ok(transaction) => Ok(WriteTransaction {
                database: other,
                transaction,
                raiser,
            }),
            Err(error) => Err(error),
        }
    }

    /// The value of a key of a keyspace as a transaction sees it: that after the commands of the list numbered below its instant, with its
    /// own writes applied. The key is marked as read.
    pub fn get_within_as<R: Wait>(
        &mut self,
        rt: &R,
        transaction: &mut WriteTransaction<D, J>,
        id: u64,
        key: &[u8],
    ) -> Result<Option<UserValue>>
        ensures later { HasGrown self.old self.new }
        ensures value { IsTrue D.honest
            → IfOk result (λ found. found ≡ lookup (map_at (own_written (view self.new transaction.old.transaction.ticket.instant).maps transaction.old.transaction.own) id) key.now) }
        ensures marked { OnOk result (transaction.new.transaction ≡ having_read transaction.old.transaction (OfKey id key.now)) }
        ensures unmarked { OnErr result (transaction.new.transaction ≡ transaction.old.transaction) }
    {
        let database = &*self.database;
        let mut guard = database.lock.lock(rt);
        match &mut *guard {
            Some(named) => named.get_within_as(
                &mut self.seat,
                &mut transaction.transaction,
                id,
                key,
            ),
            None => Err(Error::Poisoned),
        }
    }

    /// Opens a snapshot at the number of the list that is then seen.
    pub fn snapshot_as<R: Wait>(&mut self, rt: &R, alloc: Global) -> Result<Snapshot<D, J>>
        ensures later { HasGrown self.old self.new }
        ensures instant { IfOk result (λ snapshot. snapshot.ticket.instant ≡ number self.new) }
    {
        let Ok(other) = Arc::try_clone(&self.database) else {
            return Err(Error::OutOfMemory);
        };
        let Ok((flag, raiser)) = Flag::new(alloc) else {
            return Err(Error::OutOfMemory);
        };
        let database = &*self.database;
        let mut guard = database.lock.lock(rt);
        let Some(named) = &mut *guard else {
            return Err(Error::Poisoned);
        };
        match named.snapshot_as(&mut self.seat, flag) {
            Ok(ticket) => Ok(Snapshot {
                database: other,
                ticket,
                raiser,
            }),
            Err(error) => Err(error),
        }
    }

    /// Commits a transaction: what it is told, the list that is then seen shows ([`CommitOutcome`]).
    pub fn commit_as<R: Wait>(
        &mut self,
        rt: &R,
        transaction: WriteTransaction<D, J>,
    ) -> Result<CommitOutcome<Error>>
        ensures later { HasGrown self.old self.new }
        ensures told { IsTrue D.honest → IfOk result (λ outcome. CommitTold transaction.transaction outcome self.new) }
    {
        let WriteTransaction {
            database: other,
            transaction,
            raiser,
        } = transaction;
        drop(other);
        let database = &*self.database;
        let mut guard = database.lock.lock(rt);
        drop(raiser);
        match &mut *guard {
            Some(named) => Ok(named.commit_as(&mut self.seat, transaction)),
            None => Err(Error::Poisoned),
        }
    }

    /// The visible number, which is that of the list that is then seen. It waits for nobody.
    pub fn visible_seqno(&mut self) -> u64
        ensures later { HasGrown self.old self.new }
        ensures number { result ≡ number self.new }
    {
        let database = &*self.database;
        database.word.look(&mut self.seat)
    }

    /// A second one that has seen the same.
    pub fn split(&mut self) -> result::Result<Seen<D, J>, AllocError>
        ensures same { self.new ≡ self.old }
        ensures second { IfOk result (λ second. second ≡ self.old) }
    {
        let other = Arc::try_clone(&self.database)?;
        let database = &*self.database;
        let seat = database.word.another_seat(&mut self.seat);
        Ok(Seen {
            database: other,
            seat,
        })
    }

    /// Two callers see the same, which begins with what each had seen. It waits for nobody.
    pub fn meet(&mut self, other: &mut Seen<D, J>)
        ensures later { HasGrown self.old self.new }
        ensures later_other { HasGrown other.old other.new }
        ensures same { other.new ≡ self.new }
    {
        let database = &*self.database;
        let _ = database.word.meet(&mut self.seat, &mut other.seat);
    }
}
