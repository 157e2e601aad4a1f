//! Names of open snapshots.

ghost use Rattle.std.specs.Prelude.{◌≡◌};

/// Names a snapshot that was opened, and knows the instant at which it reads. It counts by its id alone.
#[derive(Clone, Copy, Debug, PartialEq, Eq)]
pub struct Ticket {
    /// No other ticket of an engine has it.
    pub id: u64,
    /// The snapshot shows what was accepted under numbers below this one.
    pub instant: u64,
}

impl Ticket {
    /// Within a list of calls: the ticket that the call at this place of the list opened, counted from 0.
    pub fn of_call(place: u64) -> Ticket
        ensures { result ≡ record { id = place; instant = 0 } }
    {
        Ticket {
            id: place,
            instant: 0,
        }
    }

    /// The instant at which the snapshot reads.
    pub fn seqno(&self) -> u64
        ensures { result ≡ self.now.instant }
    {
        self.instant
    }
}

/// What a read shows.
#[derive(Clone, Copy, Debug, PartialEq, Eq)]
pub enum View {
    /// All that was accepted.
    Present,
    /// What was accepted up to the opening of a snapshot.
    At(Ticket),
}
