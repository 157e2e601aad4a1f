//! The calls that lines make, and how the reply to each line is worded.

use fjall_calls::{Call, JobId, Kind, Ticket, TxCall, Within};
use fjall_recorder::{Parsed, number, size};
use std::alloc::Global;

/// How the reply to a line is worded.
#[derive(Clone, Copy)]
pub enum Wording {
    Plain,
    Keyspace,
    Snapshot,
    /// The core's own number of a snapshot.
    TicketId,
    /// The same, with the instant at which it reads.
    Ticket,
    Begin,
    Commit,
    Watermark,
    /// How many pairs there are.
    Len,
    /// The keys alone, one behind another.
    Keys,
    /// Whether a job was begun, which is let go.
    Begun,
    /// So many calls: what earlier lines left of a job is finished, and another is begun and finished.
    Job(usize),
    /// So many calls that are told as one.
    Many(usize),
    /// The end of a life, which was closed or not.
    End,
}

impl Wording {
    /// How many calls the line makes.
    pub fn calls(self) -> usize {
        match self {
            Wording::Job(count) | Wording::Many(count) => count,
            _ => 1,
        }
    }

    /// Whether the line gets a number.
    pub fn is_numbered(self) -> bool {
        matches!(
            self,
            Wording::Snapshot | Wording::TicketId | Wording::Ticket | Wording::Begin
        )
    }
}

/// A job that a line begins.
#[derive(Clone, Copy, PartialEq, Eq)]
pub enum Work {
    Flush,
    /// A merge that is due.
    DueMerge,
    /// A merge of all tables.
    MajorMerge,
}

impl Work {
    fn is_merge(self) -> bool {
        matches!(self, Work::DueMerge | Work::MajorMerge)
    }

    fn begin(self, id: u64) -> Call {
        match self {
            Work::Flush => Call::FlushBegin(id),
            Work::DueMerge => Call::MergeBegin(id),
            Work::MajorMerge => Call::MajorBegin(id),
        }
    }

    fn finish(self, job: JobId) -> Call {
        match self {
            Work::Flush => Call::FlushFinish(job),
            Work::DueMerge | Work::MajorMerge => Call::MergeFinish(job),
        }
    }
}

/// A job that a call of the list begins, which has this place.
#[derive(Clone, Copy)]
struct BegunJob {
    keyspace_id: u64,
    is_merge: bool,
    place: u64,
    // whether the line that begins it finishes it too
    is_whole: bool,
}

/// The calls that lines make.
#[derive(Drop)]
pub struct List {
    pub alloc: Global,
    pub calls: Vec<TxCall>,
    /// The places of the calls whose lines have numbers.
    pub places: Vec<u64>,
    /// How many lines before the list have numbers.
    pub earlier: usize,
    /// Whether they are those of a life, which hasn't ended.
    pub is_life: bool,
    begun: Vec<BegunJob>,
}

impl List {
    /// A list without calls, behind so many lines with numbers.
    pub fn new(alloc: Global, earlier: usize) -> List {
        List {
            alloc,
            calls: Vec::new(alloc),
            places: Vec::new(alloc),
            earlier,
            is_life: false,
            begun: Vec::new(alloc),
        }
    }

    /// Whether a word is the number of a line before the list.
    pub fn is_earlier(&self, word: &str) -> bool {
        match size(word) {
            Ok(at) => 0 < at && at <= self.earlier,
            Err(_) => false,
        }
    }

    // The place that a word names: `@P` as it stands, `T` that of the line of that number.
    fn place(&self, word: &str) -> Parsed<u64> {
        if let Some(place) = word.strip_prefix('@') {
            return number(place);
        }
        let at = size(word)?.saturating_sub(self.earlier).wrapping_sub(1);
        Ok(self.places.get(at).copied().unwrap_or(u64::MAX))
    }

    /// The ticket that a word names.
    pub fn ticket(&self, word: &str) -> Parsed<Ticket> {
        Ok(Ticket::of_call(self.place(word)?))
    }

    // The job that was begun last of a keyspace, or that of a place.
    fn job(&self, word: &str, is_merge: bool) -> Parsed<JobId> {
        if let Some(place) = word.strip_prefix('@') {
            return Ok(JobId::of_call(number(place)?));
        }
        let keyspace_id = number(word)?;
        let mut place = u64::MAX;
        for begun in &self.begun {
            if begun.keyspace_id == keyspace_id && begun.is_merge == is_merge {
                place = begun.place;
            }
        }
        Ok(JobId::of_call(place))
    }
}

// Lines add their calls.
impl List {
    /// Adds a call.
    pub fn add(&mut self, wording: Wording, call: TxCall) -> Parsed<Wording> {
        self.calls.push(call)?;
        Ok(wording)
    }

    /// Adds a call of the core, and how it is worded.
    pub fn told(&mut self, wording: Wording, call: Call) -> Parsed<Wording> {
        self.add(wording, TxCall::Core(call))
    }

    /// Adds a call of the core.
    pub fn plain(&mut self, call: Call) -> Parsed<Wording> {
        self.add(Wording::Plain, TxCall::Core(call))
    }

    /// Adds a call within the transaction that a word names.
    pub fn within(&mut self, word: &str, call: Within) -> Parsed<Wording> {
        let place = self.place(word)?;
        self.add(Wording::Plain, TxCall::Within(place, call))
    }

    /// Adds the commit of the transaction that a word names.
    pub fn commit(&mut self, kind: Kind, word: &str) -> Parsed<Wording> {
        let place = self.place(word)?;
        self.add(Wording::Commit, TxCall::Commit(kind, place))
    }

    /// Adds the rollback of the transaction that a word names.
    pub fn roll_back(&mut self, word: &str) -> Parsed<Wording> {
        let place = self.place(word)?;
        self.add(Wording::Plain, TxCall::Rollback(place))
    }

    // Adds a call that begins a job.
    fn begin(&mut self, keyspace_id: u64, work: Work, is_whole: bool) -> Parsed<Wording> {
        let begun = BegunJob {
            keyspace_id,
            is_merge: work.is_merge(),
            place: self.calls.len() as u64,
            is_whole,
        };
        self.begun.push(begun)?;
        self.plain(work.begin(keyspace_id))
    }

    /// Adds a call that begins a job of the keyspace of an id.
    pub fn begin_job(&mut self, id: &str, work: Work) -> Parsed<Wording> {
        self.begin(number(id)?, work, false)
    }

    /// Adds a call that begins a job which nothing finishes.
    pub fn lose_job(&mut self, id: &str, work: Work) -> Parsed<Wording> {
        self.told(Wording::Begun, work.begin(number(id)?))
    }

    /// Adds the finish of the job that a word names.
    pub fn finish_job(&mut self, word: &str, work: Work) -> Parsed<Wording> {
        let job = self.job(word, work.is_merge())?;
        self.plain(work.finish(job))
    }

    // The places of the calls that began what earlier lines may have left of a job.
    fn left(&self, keyspace_id: u64, work: Work) -> Parsed<Vec<u64>> {
        let mut places = Vec::new(self.alloc);
        for begun in &self.begun {
            if begun.is_whole
                && begun.keyspace_id == keyspace_id
                && begun.is_merge == work.is_merge()
            {
                places.push(begun.place)?;
            }
        }
        Ok(places)
    }

    /// Adds a job that is begun and finished. What earlier lines left of it is finished first.
    pub fn whole_job(&mut self, id: &str, work: Work) -> Parsed<Wording> {
        let keyspace_id = number(id)?;
        let before = self.calls.len();
        for place in self.left(keyspace_id, work)? {
            self.plain(work.finish(JobId::of_call(place)))?;
        }
        self.begin(keyspace_id, work, true)?;
        self.finish_job(id, work)?;
        Ok(Wording::Job(self.calls.len().saturating_sub(before)))
    }

    /// Adds what a line asks for; where it isn't done, the list is as it was.
    pub fn take(&mut self, words: &[&str]) -> Parsed<Wording> {
        let (calls, begun) = (self.calls.len(), self.begun.len());
        let taken = numbered(self, words);
        if taken.is_err() {
            self.calls.truncate(calls);
            self.begun.truncate(begun);
        }
        taken
    }
}

// Adds what a line asks for, and its number where it gets one.
fn numbered(list: &mut List, words: &[&str]) -> Parsed<Wording> {
    let place = list.calls.len() as u64;
    let wording = crate::calls::add_line(list, words)?;
    if wording.is_numbered() {
        list.places.push(place)?;
    }
    Ok(wording)
}
