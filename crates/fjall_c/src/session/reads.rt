//! Calls that read a database, at its present or at a snapshot.

ghost use Rattle.std.specs.Prelude.{◌≡◌};
ghost use Rattle.fjall_c.specs.Calls.{Calls, Close, Get, OfRead, OfTickets, Open, Page, pairs_reply, reply_of, ticket_reply, value_reply};
ghost use Rattle.fjall_c.specs.Live.{live_of};

use crate::session::Session;
use crate::session::place::Place;
use fjall_base::{Error, KvPair, Result, UserValue};
use fjall_core::{Ticket, View};
use fjall_reading::KeyRange;

impl Session {
    /// The value that a key of a keyspace has in a view; refused as `Engine::get_at` is. Nothing changes.
    pub fn get(&mut self, view: View, id: u64, key: &[u8]) -> Result<Option<UserValue>>
        ensures answers { Calls (OfRead view id (Get key.now)) value_reply (live_of self.old) (live_of self.new) result }
        ensures batch { self.new.batch ≡ self.old.batch }
    {
        match &mut self.place {
            Place::Open(opened) => opened.core.get_at(view, id, key),
            _ => Err(Error::Poisoned),
        }
    }

    /// The first pairs of a keyspace's range in a view or, where `back`, the last ones: at most `max`, in the order of their keys. It
    /// is refused as `Engine::page_at` is. Nothing changes.
    pub fn page(
        &mut self,
        view: View,
        id: u64,
        range: &KeyRange,
        back: bool,
        max: usize,
    ) -> Result<Vec<KvPair>>
        ensures answers { Calls (OfRead view id (Page range.now back max)) pairs_reply (live_of self.old) (live_of self.new) result }
        ensures batch { self.new.batch ≡ self.old.batch }
    {
        match &mut self.place {
            Place::Open(opened) => opened.core.page_at(view, id, range, back, max),
            _ => Err(Error::Poisoned),
        }
    }

    /// Opens a snapshot of all that was accepted so far, which shows that until it is closed; refused as `Engine::snapshot` is.
    pub fn snapshot(&mut self) -> Result<Ticket>
        ensures answers { Calls (OfTickets Open) ticket_reply (live_of self.old) (live_of self.new) result }
        ensures batch { self.new.batch ≡ self.old.batch }
    {
        match &mut self.place {
            Place::Open(opened) => opened.core.snapshot(),
            _ => Err(Error::Poisoned),
        }
    }

    /// Closes the snapshot of this id; refused as `Engine::close_snapshot` is.
    pub fn close_snapshot(&mut self, id: u64) -> Result<()>
        ensures answers { Calls (OfTickets (Close id)) reply_of (live_of self.old) (live_of self.new) result }
        ensures batch { self.new.batch ≡ self.old.batch }
    {
        match &mut self.place {
            Place::Open(opened) => opened.core.close_snapshot(Ticket { id, instant: 0 }),
            _ => Err(Error::Poisoned),
        }
    }
}
