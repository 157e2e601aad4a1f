//! The calls that lines make, and the snapshots and transactions that they name.

ghost use Rattle.std.specs.Prelude.{◌≡◌, ◌<◌, ◌+◌, ◌++◌, ◌∷◌, ◌^◌, [], IfOk, IsOkUnless, OnOk, length, map};
ghost use Rattle.fjall_script.specs.Requests.{AddsCalls, AreOfLines, LineAdds, all_pairs, asked_with, begun_with, calls_with, finish_of, IsBatch, IsCallOf, is_same};
ghost use Rattle.fjall_script.specs.Requests.{item_of, job_of, left_of, named, nowhere, numbered_with, numbers_in, op_of, opens, place_by, request_of};
ghost use Rattle.fjall_options.specs.Options.{default_options};
ghost use Rattle.fjall_machine.specs.declared.call.Call.TheVariants as calls;
ghost use Rattle.fjall_calls.specs.declared.call.TxCall.TheVariants as tx;

use fjall_base::{Error, Result, Slice, UserValue};
use fjall_calls::{BatchItem, Call, JobId, Kind, Op, PersistMode, Ticket, TxCall, View, Within};
use fjall_lines::{Command, Request, Write};
use fjall_options::KeyspaceCreateOptions;
use std::alloc::Global;
use std::ops::Bound;

// Whether a request opens a snapshot or begins a transaction, and so gets a number.
fn opens(request: &Request) -> bool
    ensures { result ≡ opens request.now }
{
    matches!(request, Request::Snapshot | Request::Begin)
}

// How many numbers were asked for, where so many were before this request.
pub(crate) fn asked_with(earlier: usize, request: &Request) -> usize
    requires { earlier < 2 ^ 63 }
    ensures { result ≡ asked_with earlier request.now }
{
    if opens(request) { earlier + 1 } else { earlier }
}

// How many numbers these lines and those before ask for, refused ones too.
pub(crate) fn asked_in(earlier: usize, commands: &[Option<Command>]) -> usize
    requires { earlier + length commands.now < 2 ^ 63 }
    ensures { result ≡ earlier + numbers_in commands.now }
{
    let mut asked = earlier;
    for found in commands {
        if let Some(Command::Ask(request)) = found {
            asked = asked_with(asked, request);
        }
    }
    asked
}

/// A job that lines ask for, of the keyspace of an id.
#[derive(Clone, Copy)]
pub(crate) enum Job {
    Flush(u64),
    Merge(u64),
}

// The job that a request asks for.
fn job_of(request: &Request) -> Option<Job>
    ensures { result ≡ job_of request.now }
{
    match request {
        Request::Flush(id) => Some(Job::Flush(*id)),
        Request::Merge(id) => Some(Job::Merge(*id)),
        _ => None,
    }
}

// Whether two jobs are of one kind and of one keyspace.
fn is_same(job: Job, other: Job) -> bool
    ensures { result ≡ is_same job other }
{
    match (job, other) {
        (Job::Flush(id), Job::Flush(of)) | (Job::Merge(id), Job::Merge(of)) => id == of,
        _ => false,
    }
}

// The call that finishes a job, which the call at this place began.
fn finish_of(job: Job, place: u64) -> TxCall
    ensures { result ≡ finish_of job place }
{
    let begun = JobId::of_call(place);
    TxCall::Core(match job {
        Job::Flush(_) => Call::FlushFinish(begun),
        Job::Merge(_) => Call::MergeFinish(begun),
    })
}

// What the numbers of snapshots and transactions stand for in one list of calls: the places of the calls so far that open or begin
// them, behind one that stands nowhere, and how many were asked for before the list.
#[derive(Drop)]
pub(crate) struct Numbers {
    pub(crate) places: Vec<u64>,
    pub(crate) earlier: usize,
}

impl Numbers {
    // The place of the call that a number was given to. One that another list asked for, or none did, stands nowhere.
    fn place(&self, number: u64) -> u64
        ensures { result ≡ place_by self.now number }
    {
        let behind = number.saturating_sub(self.earlier as u64) as usize;
        match self.places.get(behind) {
            Some(place) => *place,
            None => u64::MAX,
        }
    }

    // The ticket of the snapshot of a number, as a list of calls names it.
    fn ticket(&self, number: u64) -> Ticket
        ensures { result ≡ named (place_by self.now number) }
    {
        Ticket::of_call(self.place(number))
    }

    // Keeps the place of a request's call, where it opens a snapshot or begins a transaction.
    fn keep(&mut self, request: &Request, place: u64) -> Result<()>
        ensures ok { OnOk result (self.new.places.items ≡ numbered_with self.old.places.items place request.now) }
        ensures earlier { self.new.earlier ≡ self.old.earlier }
        ensures only { IsOkUnless result Error.OutOfMemory }
    {
        if opens(request) {
            self.places.push(place)?;
        }
        Ok(())
    }
}

/// The calls of one list of lines.
#[derive(Drop)]
pub(crate) struct LineCalls {
    pub(crate) calls: Vec<TxCall>,
    /// How many calls each request makes.
    pub(crate) counts: Vec<usize>,
    pub(crate) numbers: Numbers,
    /// The jobs that were begun, each with the place of the call that began it.
    pub(crate) begun: Vec<(Job, u64)>,
}

// The call for a keyspace of this name.
fn keyspace(alloc: Global, name: &Slice) -> Result<Call>
    ensures ok { IfOk result (λ call. call ≡ calls.Keyspace name.now default_options) }
    ensures only { IsOkUnless result Error.OutOfMemory }
{
    let options = KeyspaceCreateOptions::default(alloc)?;
    Ok(Call::Keyspace(name.clone()?, options))
}

// The call for all pairs of a keyspace.
fn all_pairs(id: u64) -> Call
    ensures { result ≡ all_pairs id }
{
    let everywhere = (Bound::Unbounded, Bound::Unbounded);
    Call::PageAt(View::Present, id, everywhere, false, usize::MAX)
}

// What becomes of a key.
fn op_of(value: &Option<UserValue>) -> Result<Op>
    ensures ok { IfOk result (λ op. op ≡ op_of value.now) }
    ensures only { IsOkUnless result Error.OutOfMemory }
{
    match value {
        Some(value) => Ok(Op::Put(value.clone()?)),
        None => Ok(Op::Remove),
    }
}

// The items of a batch.
fn items_of(alloc: Global, writes: &[Write]) -> Result<Vec<BatchItem>>
    ensures ok { IfOk result (λ items. items.items ≡ map item_of writes.now) }
    ensures only { IsOkUnless result Error.OutOfMemory }
{
    let mut items = Vec::new(alloc);
    for (id, key, value) in writes {
        items.push((*id, key.clone()?, op_of(value)?))?;
    }
    Ok(items)
}

// The call for a batch of these writes.
fn batch(alloc: Global, writes: &[Write]) -> Result<Call>
    ensures ok { IfOk result (λ call. IsBatch writes.now (tx.Core call)) }
    ensures only { IsOkUnless result Error.OutOfMemory }
{
    let items = items_of(alloc, writes)?;
    Ok(Call::CommitBatch(items, Some(PersistMode::Buffer)))
}

// The call that a request makes, for a flush and a merge the one that begins it, where numbers stand for these places.
fn call_of(alloc: Global, request: &Request, numbers: &Numbers) -> Result<TxCall>
    ensures ok { IfOk result (λ call. IsCallOf (place_by numbers.now) request.now call) }
    ensures only { IsOkUnless result Error.OutOfMemory }
{
    let call = match request {
        Request::Keyspace(name) => keyspace(alloc, name)?,
        Request::Delete(id) => Call::DeleteKeyspace(*id),
        Request::Insert(id, key, value) => Call::Insert(*id, key.clone()?, value.clone()?),
        Request::Remove(id, key) => Call::Remove(*id, key.clone()?),
        Request::RemoveWeak(id, key) => Call::RemoveWeak(*id, key.clone()?),
        Request::Clear(id) => Call::Clear(*id),
        Request::Batch(writes) => batch(alloc, writes.as_slice())?,
        Request::Len(id) | Request::Scan(id) => all_pairs(*id),
        Request::Get(id, key) => Call::GetAt(View::Present, *id, key.clone()?),
        Request::GetAt(number, id, key) => {
            Call::GetAt(View::At(numbers.ticket(*number)), *id, key.clone()?)
        }
        Request::Snapshot => Call::Snapshot,
        Request::CloseSnapshot(number) => Call::CloseSnapshot(numbers.ticket(*number)),
        Request::Begin => return Ok(TxCall::Begin(Kind::Optimistic)),
        Request::TxGet(number, id, key) => {
            let get = Within::Get(*id, key.clone()?);
            return Ok(TxCall::Within(numbers.place(*number), get));
        }
        Request::TxInsert(number, id, key, value) => {
            let put = Within::Write(*id, key.clone()?, Op::Put(value.clone()?));
            return Ok(TxCall::Within(numbers.place(*number), put));
        }
        Request::Commit(number) => {
            return Ok(TxCall::Commit(Kind::Optimistic, numbers.place(*number)));
        }
        Request::Gc => Call::Gc,
        Request::Rotate(id) => Call::RotateMemtable(*id),
        Request::Flush(id) => Call::FlushBegin(*id),
        Request::Merge(id) => Call::MajorBegin(*id),
        Request::Persist => Call::Persist(PersistMode::SyncAll),
    };
    Ok(TxCall::Core(call))
}

// Adds the calls that finish what earlier lines may have left of a job.
fn add_left(job: Job, begun: &[(Job, u64)], calls: &mut Vec<TxCall>) -> Result<()>
    ensures ok { OnOk result (calls.new.items ≡ calls.old.items ++ left_of job begun.now) }
    ensures only { IsOkUnless result Error.OutOfMemory }
{
    for (other, place) in begun {
        if is_same(job, *other) {
            calls.push(finish_of(job, *place))?;
        }
    }
    Ok(())
}

// Adds the calls of a request whose own call is this one, and keeps the job that it begins.
fn add_calls(
    request: &Request,
    call: TxCall,
    begun: &mut Vec<(Job, u64)>,
    calls: &mut Vec<TxCall>,
) -> Result<()>
    ensures calls { OnOk result (calls.new.items ≡ calls.old.items ++ calls_with begun.old.items (length calls.old.items) (job_of request.now) call) }
    ensures begun { OnOk result (begun.new.items ≡ begun_with begun.old.items (length calls.old.items) (job_of request.now)) }
    ensures only { IsOkUnless result Error.OutOfMemory }
{
    let Some(job) = job_of(request) else {
        calls.push(call)?;
        return Ok(());
    };
    add_left(job, begun.as_slice(), calls)?;
    let place = calls.len() as u64;
    calls.push(call)?;
    calls.push(finish_of(job, place))?;
    begun.push((job, place))?;
    Ok(())
}

impl LineCalls {
    // No calls, where so many numbers were asked for before.
    fn new(alloc: Global, earlier: usize) -> Result<LineCalls>
        ensures calls { IfOk result (λ lines. lines.calls.items ≡ []) }
        ensures counts { IfOk result (λ lines. lines.counts.items ≡ []) }
        ensures numbers { IfOk result (λ lines. lines.numbers.places.items ≡ nowhere ∷ []) }
        ensures begun { IfOk result (λ lines. lines.begun.items ≡ []) }
        ensures earlier { IfOk result (λ lines. lines.numbers.earlier ≡ earlier) }
        ensures only { IsOkUnless result Error.OutOfMemory }
    {
        let mut places = Vec::new(alloc);
        places.push(u64::MAX)?;
        Ok(LineCalls {
            calls: Vec::new(alloc),
            counts: Vec::new(alloc),
            numbers: Numbers { places, earlier },
            begun: Vec::new(alloc),
        })
    }

    // Adds the calls that a request makes.
    fn ask(&mut self, alloc: Global, request: &Request) -> Result<()>
        ensures ok { OnOk result (AddsCalls request.now self.old self.new) }
        ensures only { IsOkUnless result Error.OutOfMemory }
    {
        let before = self.calls.len();
        let call = call_of(alloc, request, &self.numbers)?;
        self.numbers.keep(request, before as u64)?;
        add_calls(request, call, &mut self.begun, &mut self.calls)?;
        self.counts.push(self.calls.len() - before)?;
        Ok(())
    }

    // Adds the calls that a line makes.
    fn add(&mut self, alloc: Global, found: &Option<Command>) -> Result<()>
        ensures ok { OnOk result (LineAdds (request_of found.now) self.old self.new) }
        ensures only { IsOkUnless result Error.OutOfMemory }
    {
        match found {
            Some(Command::Ask(request)) => self.ask(alloc, request),
            _ => Ok(()),
        }
    }

    /// The calls of one list of lines, where so many numbers were asked for before it.
    pub(crate) fn of_lines(
        alloc: Global,
        commands: &[Option<Command>],
        earlier: usize,
    ) -> Result<LineCalls>
        ensures ok { IfOk result (AreOfLines earlier commands.now) }
        ensures only { IsOkUnless result Error.OutOfMemory }
    {
        let mut lines = LineCalls::new(alloc, earlier)?;
        for found in commands {
            lines.add(alloc, found)?;
        }
        Ok(lines)
    }
}
