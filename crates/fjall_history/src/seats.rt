//! The seats at a word. They have no bytes: what a seat knows stands in the proofs alone.

use crate::rule::View;
use atomic_table::Seat;
use std::marker::Model;

/// The core's seat, which knows the whole history. Contracts see its table and the history.
#[derive(Drop)]
pub struct CoreSeat {
    pub(crate) seat: Seat<(), View>,
}

impl Model for CoreSeat {
    ghost use Rattle.std.specs.Prelude.{◌≡◌, []};
    ghost use Rattle.std.specs.Coded.{codes};
    ghost use Rattle.fjall_history.specs.Codes.{history_code};
    ghost use Rattle.fjall_history.specs.Seats.{Place, leader};

    ghost Value = { Place };

    ghost coded = { Prim.hlevel (codes, history_code) };

    ghost view = { λ s. record { table = s.seat.table_id; list = s.seat.me.0.list } };

    ghost invariant = { λ s. s.seat.me ≡ (leader s.seat.me.0.list, []) };
}

/// A caller's seat, which has seen a beginning of the history. Contracts see its table and that beginning.
#[derive(Drop)]
pub struct SeenSeat {
    pub(crate) seat: Seat<(), View>,
}

impl Model for SeenSeat {
    ghost use Rattle.std.specs.Prelude.{◌≡◌, []};
    ghost use Rattle.std.specs.Coded.{codes};
    ghost use Rattle.fjall_history.specs.Codes.{history_code};
    ghost use Rattle.fjall_history.specs.Seats.{Place, follower};

    ghost Value = { Place };

    ghost coded = { Prim.hlevel (codes, history_code) };

    ghost view = { λ s. record { table = s.seat.table_id; list = s.seat.me.0.list } };

    ghost invariant = { λ s. s.seat.me ≡ (follower s.seat.me.0.list, []) };
}
