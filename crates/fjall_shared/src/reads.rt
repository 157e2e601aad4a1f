//! Reads, by themselves and within transactions.

ghost use Rattle.std.specs.Prelude.{◌≡◌, ℕ, IfOk, IsTrue, OnErr, OnOk};
ghost use Rattle.std.specs.Result.{result_err};
ghost use Rattle.fjall_base.specs.Pairs.{lookup, page, pairs_between};
ghost use Rattle.fjall_history.specs.Queries.{Get, Page};
ghost use Rattle.fjall_history.specs.declared.ticket.View.TheVariants.{At};
ghost use Rattle.fjall_machine.specs.Shapes.{OfRead};
ghost use Rattle.fjall_core.specs.CoreStanding.{pairs_reply, value_reply};
ghost use Rattle.fjall_tx.specs.Marks.{OfKey, OfRange};
ghost use Rattle.fjall_core.specs.Transactions.{having_read};
ghost use Rattle.fjall_shared.specs.Does.{Does};
ghost use Rattle.fjall_shared.specs.Within.{ReadsOnce, seen_in};

use crate::shared::Shared;
use fjall_base::{Disk, KvPair, Result, Slice, UserValue};
use fjall_core::{Transaction, View};
use fjall_reading::{KeyRange, bounds_of};

impl<D: Disk> Shared<D> {
    /// The value that a key of a keyspace has in a view, as [`Engine::get_at`](fjall_core::Engine::get_at) answers.
    pub fn get_at(&mut self, view: View, id: u64, key: &[u8]) -> Result<Option<UserValue>>
        ensures { Does D.honest self.old (OfRead view id (Get key.now)) (value_reply result) self.new }
    {
        self.core.get_at(view, id, key)
    }

    /// The first or last pairs of a keyspace's range in a view, as [`Engine::page_at`](fjall_core::Engine::page_at) answers.
    pub fn page_at(
        &mut self,
        view: View,
        id: u64,
        range: &KeyRange,
        back: bool,
        max: usize,
    ) -> Result<Vec<KvPair>>
        ensures { Does D.honest self.old (OfRead view id (Page range.now back max)) (pairs_reply result) self.new }
    {
        self.core.page_at(view, id, range, back, max)
    }

    /// The value of a key of a keyspace as a transaction sees it: in the view of the instant at which it began, with its own writes
    /// applied. An optimistic transaction marks the key as read.
    ///
    /// Refused as [`get_at`](Shared::get_at), and with `OutOfMemory`; then nothing is marked.
    pub fn get_within(
        &mut self,
        transaction: &mut Transaction,
        id: u64,
        key: &[u8],
    ) -> Result<Option<UserValue>>
        ensures reads { ReadsOnce D.honest self.old (OfRead (At transaction.old.ticket) id (Get key.now)) (result_err result) self.new }
        ensures value { IsTrue D.honest → IfOk result (λ found. found ≡ lookup (seen_in self.old transaction.old id) key.now) }
        ensures marked { OnOk result (transaction.new ≡ having_read transaction.old (OfKey id key.now)) }
        ensures unmarked { OnErr result (transaction.new ≡ transaction.old) }
    {
        let found = self.get_at(View::At(transaction.ticket()), id, key)?;
        let name = Slice::new(self.alloc, key)?;
        let seen = transaction.own().seen(id, name, found)?;
        transaction.mark_read(id, key)?;
        Ok(seen)
    }

    /// The first or last pairs of a keyspace's range as a transaction sees them, at most `max`, in the order of their keys. An
    /// optimistic transaction marks the range as read.
    ///
    /// Refused as [`page_at`](Shared::page_at), and with `OutOfMemory`; then nothing is marked.
    pub fn page_within(
        &mut self,
        transaction: &mut Transaction,
        id: u64,
        range: &KeyRange,
        back: bool,
        max: usize,
    ) -> Result<Vec<KvPair>>
        ensures reads { (wanted : ℕ) × ReadsOnce D.honest self.old (OfRead (At transaction.old.ticket) id (Page range.now back wanted)) (result_err result) self.new }
        ensures pairs { IsTrue D.honest → IfOk result (λ found. found.items ≡ page back max (pairs_between range.now (seen_in self.old transaction.old id))) }
        ensures marked { OnOk result (transaction.new ≡ having_read transaction.old (OfRange id range.now.0 range.now.1)) }
        ensures unmarked { OnErr result (transaction.new ≡ transaction.old) }
    {
        let view = View::At(transaction.ticket());
        let wanted = match transaction.own().wanted(id, range, max) {
            Ok(wanted) => wanted,
            Err(error) => {
                // (what else refuses it comes first)
                self.page_at(view, id, range, back, 0)?;
                return Err(error);
            }
        };
        let found = self.page_at(view, id, range, back, wanted)?;
        let seen = transaction.own().lay_over(id, range, back, max, found)?;
        transaction.mark_range(id, bounds_of(range))?;
        Ok(seen)
    }
}
