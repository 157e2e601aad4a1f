//! Lines of transactions and snapshots, which go by numbers.

use crate::answer::{Answer, Tried, Undone};
use crate::session::Session;
use fjall_index::{CommitOutcome, Error, IndexedTx, Ticket, View};
use fjall_recorder::{bytes, size};
use std::mem;

/// What a line with a number opened, while it is open.
#[derive(Drop)]
pub enum Numbered {
    Nothing,
    Transaction(IndexedTx),
    Snapshot(Ticket),
}

// The place of what has this number.
fn place(word: &str) -> Tried<usize> {
    Ok(size(word)?.wrapping_sub(1))
}

impl Session {
    // Gives a line its number, whatever it is answered.
    fn next_number(&mut self) -> Tried<usize> {
        self.asked = self.asked.saturating_add(1);
        for _ in self.numbered.len()..self.asked {
            self.numbered.push(Numbered::Nothing)?;
        }
        Ok(self.asked)
    }

    // Keeps what a line opened.
    fn keep(&mut self, place: usize, opened: Numbered) {
        if let Some(slot) = self.numbered.get_mut(place) {
            *slot = opened;
        }
    }

    /// Begins a transaction.
    pub(crate) fn begin(&mut self) -> Tried<Answer> {
        let number = self.next_number()?;
        let (indexed, core) = self.both()?;
        let transaction = indexed.begin(core)?;
        self.keep(number.wrapping_sub(1), Numbered::Transaction(transaction));
        Ok(Answer::Transaction(number))
    }

    /// Opens a snapshot.
    pub(crate) fn snapshot(&mut self) -> Tried<Answer> {
        let number = self.next_number()?;
        let ticket = self.core()?.snapshot()?;
        self.keep(number.wrapping_sub(1), Numbered::Snapshot(ticket));
        Ok(Answer::Snapshot(number))
    }

    // Takes the transaction of a place out.
    fn take_transaction(&mut self, place: usize) -> Tried<IndexedTx> {
        if let Some(slot) = self.numbered.get_mut(place) {
            match mem::replace(slot, Numbered::Nothing) {
                Numbered::Transaction(transaction) => return Ok(transaction),
                other => *slot = other,
            }
        }
        Err(Undone::from(Error::SnapshotClosed))
    }

    // The ticket of the snapshot of a place.
    fn ticket(&self, place: usize) -> Tried<Ticket> {
        match self.numbered.get(place) {
            Some(Numbered::Snapshot(ticket)) => Ok(*ticket),
            _ => Err(Undone::from(Error::SnapshotClosed)),
        }
    }

    /// Rolls all transactions back.
    pub(crate) fn end_transactions(&mut self) -> Tried<()> {
        for place in 0..self.numbered.len() {
            if let Ok(transaction) = self.take_transaction(place) {
                let (indexed, core) = self.both()?;
                indexed.rollback(core, transaction)?;
            }
        }
        Ok(())
    }

    // Does within a transaction what words ask for.
    fn change(&mut self, transaction: &mut IndexedTx, words: &[&str]) -> Tried<()> {
        let alloc = self.alloc;
        let (indexed, core) = self.both()?;
        match words {
            ["put-in", _, key, value] => {
                let (key, value) = (bytes(alloc, key)?, bytes(alloc, value)?);
                indexed.put_in(core, transaction, key, value)?
            }
            ["del-in", _, key] => indexed.del_in(core, transaction, bytes(alloc, key)?)?,
            _ => return Err(Undone::BadLine),
        }
        Ok(())
    }

    // Commits a transaction.
    fn commit(&mut self, transaction: IndexedTx) -> Tried<Answer> {
        let (indexed, core) = self.both()?;
        match indexed.commit(core, transaction) {
            CommitOutcome::Ok => Ok(Answer::Done),
            CommitOutcome::Conflicted => Ok(Answer::Conflict),
            CommitOutcome::Aborted(error) => Err(Undone::Refused(error)),
        }
    }

    /// What a line of a transaction is answered.
    pub(crate) fn of_transaction(&mut self, words: &[&str]) -> Tried<Answer> {
        let [word, number, rest @ ..] = words else {
            return Err(Undone::BadLine);
        };
        let place = place(number)?;
        self.both()?;
        match (*word, rest) {
            ("commit", []) => {
                let transaction = self.take_transaction(place)?;
                return self.commit(transaction);
            }
            ("rollback", []) => {
                let transaction = self.take_transaction(place)?;
                let (indexed, core) = self.both()?;
                indexed.rollback(core, transaction)?;
            }
            _ => {
                let mut transaction = self.take_transaction(place)?;
                let done = self.change(&mut transaction, words);
                self.keep(place, Numbered::Transaction(transaction));
                done?;
            }
        }
        Ok(Answer::Done)
    }

    /// What a line of a snapshot is answered.
    pub(crate) fn of_snapshot(&mut self, words: &[&str]) -> Tried<Answer> {
        let alloc = self.alloc;
        match words {
            ["find-at", number, field] => {
                let (place, field) = (place(number)?, bytes(alloc, field)?);
                self.both()?;
                let view = View::At(self.ticket(place)?);
                let (indexed, core) = self.both()?;
                Ok(Answer::Pairs(indexed.find(core, view, &field)?))
            }
            ["close", number] => {
                let place = place(number)?;
                self.core()?;
                let ticket = self.ticket(place)?;
                self.core()?.close_snapshot(ticket)?;
                self.keep(place, Numbered::Nothing);
                Ok(Answer::Done)
            }
            _ => Err(Undone::BadLine),
        }
    }
}
