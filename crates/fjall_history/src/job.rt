//! Names of jobs.

ghost use Rattle.std.specs.Prelude.{◌≡◌};

/// Names a job that was begun, and knows its keyspace.
#[derive(Clone, Copy, Debug, PartialEq, Eq)]
pub struct JobId {
    /// No other job of an engine has it.
    pub number: u64,
    /// The id of the keyspace that it works for.
    pub keyspace_id: u64,
}

impl JobId {
    /// Within a list of calls: the job that the call at this place of the list began, counted from 0.
    pub fn of_call(place: u64) -> JobId
        ensures { result ≡ record { number = place; keyspace_id = 0 } }
    {
        JobId {
            number: place,
            keyspace_id: 0,
        }
    }
}
