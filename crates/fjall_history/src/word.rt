//! The word of the visible number.

ghost use Rattle.std.specs.Prelude.{◌≡◌, ◌+◌, IfOk};
ghost use Rattle.fjall_history.specs.Histories.{History, grown, number};
ghost use Rattle.fjall_history.specs.Moves.{HasGrown};

use crate::rule::{Beside, Compare, Follow, Law, Look, Origin, Publish, Saying, Settle, View};
use crate::seats::{CoreSeat, SeenSeat};
use atomic_table::Table;
use std::alloc::{AllocError, Global};
use std::marker::Model;
use std::mem;

/// The word of the visible number, which threads share. To a contract it is which table it is: a seat is of this word where
/// its table is this one.
#[derive(Drop)]
pub struct Word {
    table: Table<(), View, u64, Law, Global>,
}

impl Model for Word {
    ghost use Rattle.std.specs.Prelude.{◌≡◌};
    ghost use Rattle.atomic_table.specs.Seated.{TableId, table_id_coded};

    ghost Value = { TableId };

    ghost coded = { table_id_coded };

    ghost view = { λ w. w.table.shared.table_id };

    ghost invariant = { λ w. w.table.shared.table_id.words ≡ 1 };
}

impl Word {
    /// A word at a visible number, and the core's seat, which begins with a history of that number. It is refused for want of
    /// memory alone.
    pub fn open<B: Origin>(alloc: Global, next: u64) -> Result<(Word, CoreSeat), AllocError>
        requires { (h : History) × B.fits h × (number h ≡ next) }
        ensures table { IfOk result (λ r. r.1.table ≡ r.0) }
        ensures list { IfOk result (λ r. B.fits r.1.list × (number r.1.list ≡ next)) }
    {
        let (table, mut seat) = Table::<(), View, u64, Law, Global>::of_words(
            alloc,
            &[next],
            &next,
        )?;
        table.shared.load::<Settle<B>>(&mut seat, 0);
        Ok((Word { table }, CoreSeat { seat }))
    }

    /// Adds what was accepted to the history: `next` is the visible number behind it. It is the one step that changes the word.
    pub fn publish<B: Saying>(&self, core: &mut CoreSeat, next: u64)
        requires table { core.old.table ≡ self.now }
        requires next { next ≡ number core.old.list + 1 }
        ensures table { core.new.table ≡ core.old.table }
        ensures list { core.new.list ≡ grown core.old.list B.said }
    {
        self.table
            .shared
            .fetch_max::<Publish<B>>(&mut core.seat, 0, next);
    }

    /// Sees the history as it is, and answers its visible number. It waits for nobody.
    pub fn look(&self, seen: &mut SeenSeat) -> u64
        requires { seen.old.table ≡ self.now }
        ensures table { seen.new.table ≡ seen.old.table }
        ensures later { HasGrown seen.old.list seen.new.list }
        ensures number { result ≡ number seen.new.list }
    {
        self.table.shared.load::<Look>(&mut seen.seat, 0)
    }

    /// A caller's seat that has seen all that the core's knows.
    pub fn seat_for_caller(&self, core: &mut CoreSeat) -> SeenSeat
        requires { core.old.table ≡ self.now }
        ensures seat { result ≡ core.old }
        ensures same { core.new ≡ core.old }
    {
        SeenSeat {
            seat: self.table.shared.split_seat::<Follow>(&mut core.seat),
        }
    }

    /// Another caller's seat that has seen the same.
    pub fn another_seat(&self, seen: &mut SeenSeat) -> SeenSeat
        requires { seen.old.table ≡ self.now }
        ensures seat { result ≡ seen.old }
        ensures same { seen.new ≡ seen.old }
    {
        SeenSeat {
            seat: self.table.shared.split_seat::<Follow>(&mut seen.seat),
        }
    }

    /// Shows a caller the core's history. It begins with what the caller had seen.
    pub fn show(&self, core: &mut CoreSeat, seen: &mut SeenSeat)
        requires core { core.old.table ≡ self.now }
        requires seen { seen.old.table ≡ self.now }
        ensures same { core.new ≡ core.old }
        ensures shown { seen.new ≡ core.old }
        ensures later { HasGrown seen.old.list core.old.list }
    {
        let fresh = self.seat_for_caller(core);
        let before = mem::replace(seen, fresh);
        let SeenSeat { seat } = before;
        self.table.shared.join_seat::<Beside>(&mut core.seat, seat);
        self.table.shared.load::<Compare>(&mut core.seat, 0);
    }

    /// Lets two callers see the history as it is, and answers its visible number. It begins with what each had seen. It waits
    /// for nobody.
    pub fn meet(&self, seen: &mut SeenSeat, other: &mut SeenSeat) -> u64
        requires seen { seen.old.table ≡ self.now }
        requires other { other.old.table ≡ self.now }
        ensures table { seen.new.table ≡ seen.old.table }
        ensures same { other.new ≡ seen.new }
        ensures later { HasGrown seen.old.list seen.new.list }
        ensures later_other { HasGrown other.old.list seen.new.list }
        ensures number { result ≡ number seen.new.list }
    {
        let spare = self.another_seat(seen);
        let before = mem::replace(other, spare);
        let SeenSeat { seat } = before;
        self.table.shared.join_seat::<Beside>(&mut seen.seat, seat);
        let number = self.table.shared.load::<Look>(&mut seen.seat, 0);
        *other = self.another_seat(seen);
        number
    }
}
