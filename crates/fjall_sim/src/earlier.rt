//! Lines that name a snapshot of an earlier list, which ask the core's own methods.

use crate::answer::answer;
use crate::calls::read_page;
use crate::list::Wording;
use crate::session::Session;
use fjall_base::Result;
use fjall_calls::{Engine, Reply, Ticket, View, pairs_reply, reply_of, value_reply};
use fjall_recorder::{Handle, LineError, Parsed, bytes, number, size};
use std::alloc::Global;

fn ticket_reply(opened: Result<Ticket>) -> Reply {
    match opened {
        Ok(ticket) => Reply::Opened(ticket),
        Err(error) => Reply::Refused(error),
    }
}

// A page of a snapshot.
fn page(alloc: Global, core: &mut Engine<Handle>, view: View, words: &[&str]) -> Parsed<Reply> {
    let page = read_page(alloc, words)?;
    Ok(pairs_reply(core.page_at(view, page.id, &page.range, page.is_back, page.max)))
}

// What a core replies to a line that names this snapshot.
fn asked(
    alloc: Global,
    core: &mut Engine<Handle>,
    ticket: Ticket,
    words: &[&str],
) -> Parsed<(Wording, Reply)> {
    let view = View::At(ticket);
    Ok(match words {
        ["get_at", _, id, key] => {
            let (id, key) = (number(id)?, bytes(alloc, key)?);
            (Wording::Plain, value_reply(core.get_at(view, id, &key)))
        }
        ["close_snapshot", _] => (Wording::Plain, reply_of(core.close_snapshot(ticket))),
        ["clone_snapshot", _] => (Wording::TicketId, ticket_reply(core.clone_snapshot(ticket))),
        ["clone_snapshot", _, "at"] => (Wording::Ticket, ticket_reply(core.clone_snapshot(ticket))),
        ["page_at", _, rest @ ..] => (Wording::Plain, page(alloc, core, view, rest)?),
        ["keys_at", _, rest @ ..] => (Wording::Keys, page(alloc, core, view, rest)?),
        _ => return Err(LineError::BadLine),
    })
}

impl Session {
    /// Whether a line names a snapshot of an earlier list, and a database is open.
    pub(crate) fn is_of_earlier(&self, words: &[&str]) -> bool {
        match words {
            [
                "get_at" | "page_at" | "keys_at" | "close_snapshot" | "clone_snapshot",
                number,
                ..
            ] => self.core.is_some() && self.list.is_earlier(number),
            _ => false,
        }
    }

    // The ticket of such a line's snapshot; where none is open, one that was never opened.
    fn earlier_ticket(&self, words: &[&str]) -> Parsed<Ticket> {
        let [_, word, ..] = words else {
            return Err(LineError::BadLine);
        };
        match self.tickets.get(size(word)?.wrapping_sub(1)) {
            Some(Some(ticket)) => Ok(*ticket),
            _ => Ok(Ticket::of_call(u64::MAX)),
        }
    }

    /// What such a line is answered.
    pub(crate) fn ask_earlier(&mut self, words: &[&str]) -> Parsed<String> {
        let ticket = self.earlier_ticket(words)?;
        let Some(core) = &mut *self.core else {
            return Err(LineError::BadLine);
        };
        let (wording, reply) = asked(self.alloc, core, ticket, words)?;
        let replies = [reply];
        let number = self.keep_ticket(wording, &replies)?;
        self.list.earlier = self.tickets.len();
        Ok(answer(self.alloc, wording, &replies, number)?)
    }
}
