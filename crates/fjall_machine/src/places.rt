//! Names of tickets and of jobs within a list of calls.

ghost use Rattle.std.specs.Prelude.{◌≡◌, slice_get};
ghost use Rattle.fjall_machine.specs.Places.{id_opened, job_begun, resolved, ticket_at, view_at};

use crate::call::Call;
use fjall_history::{JobId, Reply, Ticket, View};

/// The id of the ticket that the call at a place opened, as its reply tells; where it opened none, the greatest `u64`, which no
/// ticket has.
fn id_at(replies: &[Reply], place: u64) -> u64
    ensures { result ≡ id_opened (slice_get replies.now place) }
{
    match replies.get(place as usize) {
        Some(Reply::Opened(ticket)) => ticket.id,
        _ => u64::MAX,
    }
}

/// The job that the call at a place began, as its reply tells; where it began none, one of the greatest number, which no job
/// has.
pub fn job_at(replies: &[Reply], place: u64) -> JobId
    ensures { result ≡ job_begun (slice_get replies.now place) }
{
    match replies.get(place as usize) {
        Some(Reply::Began(Some(job))) => *job,
        _ => JobId {
            number: u64::MAX,
            keyspace_id: 0,
        },
    }
}

fn ticket_at(replies: &[Reply], ticket: Ticket) -> Ticket
    ensures { result ≡ ticket_at replies.now ticket }
{
    Ticket {
        id: id_at(replies, ticket.id),
        instant: ticket.instant,
    }
}

fn view_at(replies: &[Reply], view: View) -> View
    ensures { result ≡ view_at replies.now view }
{
    match view {
        View::Present => View::Present,
        View::At(ticket) => View::At(ticket_at(replies, ticket)),
    }
}

impl Call {
    /// The same call with the ids of the tickets, and with the job, that it names by the places of calls, which got these
    /// replies.
    pub fn resolve(self, replies: &[Reply]) -> Call
        ensures { result ≡ resolved replies.now self }
    {
        match self {
            Call::GetAt(view, id, key) => Call::GetAt(view_at(replies, view), id, key),
            Call::PageAt(view, id, range, back, max) => {
                Call::PageAt(view_at(replies, view), id, range, back, max)
            }
            Call::CloneSnapshot(ticket) => Call::CloneSnapshot(ticket_at(replies, ticket)),
            Call::CloseSnapshot(ticket) => Call::CloseSnapshot(ticket_at(replies, ticket)),
            Call::FlushFinish(job) => Call::FlushFinish(job_at(replies, job.number)),
            Call::MergeFinish(job) => Call::MergeFinish(job_at(replies, job.number)),
            call => call,
        }
    }
}
