//! The rule of the word, and what each step at it tells.

use atomic_table::{Join, Play, Split, TableRule};
use std::marker::{Brand, Model, PhantomData};

/// What a seat knows. No value of it is made.
pub struct View {
    none: (),
}

impl Model for View {
    ghost use Rattle.std.specs.Coded.{codes};
    ghost use Rattle.fjall_history.specs.Codes.{history_code};
    ghost use Rattle.fjall_history.specs.Seats.{Known, gone};

    ghost Value = { Known };

    ghost coded = { Prim.hlevel (codes, history_code) };

    ghost view = { λ _. gone };
}

/// The rule: the word is the number of one history, which the core's seat knows whole, and each caller's seat has seen a
/// beginning of.
pub struct Law;

impl TableRule<(), View, u64> for Law {
    ghost use Rattle.fjall_history.specs.Rules.{Kept};
    ghost use Rattle.fjall_history.specs.Seats.{newcomer};

    ghost holds = { Kept };

    ghost first = { newcomer };
}

/// Which histories the core's seat may begin with. Each call picks it.
pub trait Origin {
    ghost use Rattle.fjall_history.specs.Histories.{History};

    ghost fits: { History → Type 0 };
}

impl Origin for Brand {
    ghost fits = { λ h. Unit {0} };
}

/// What was accepted. Each call picks it.
pub trait Saying {
    ghost use Rattle.fjall_history.specs.Histories.{Accepted};

    ghost said: { Accepted };
}

impl Saying for Brand {
    ghost use Rattle.fjall_base.specs.Store.{Clear};
    ghost use Rattle.fjall_history.specs.Histories.{plain};

    ghost said = { plain (Clear 0) };
}

// The first seat becomes the core's.
pub(crate) struct Settle<B: Origin>(PhantomData<B>);

impl<B: Origin> Play<(), View> for Settle<B> {
    ghost use Rattle.fjall_history.specs.Rules.{Settles};

    ghost then = { Settles B.fits };
}

// The core's seat adds what was accepted.
pub(crate) struct Publish<B: Saying>(PhantomData<B>);

impl<B: Saying> Play<(), View> for Publish<B> {
    ghost use Rattle.fjall_history.specs.Rules.{Publishes};

    ghost then = { Publishes B.said };
}

// A caller's seat sees the history as it is.
pub(crate) struct Look;

impl Play<(), View> for Look {
    ghost use Rattle.fjall_history.specs.Rules.{Looks};

    ghost then = { Looks };
}

// The core's seat compares another history with its own.
pub(crate) struct Compare;

impl Play<(), View> for Compare {
    ghost use Rattle.fjall_history.specs.Rules.{Compares};

    ghost then = { Compares };
}

// A caller's seat comes from another seat, which stays as it was.
pub(crate) struct Follow;

impl Split<View> for Follow {
    ghost use Rattle.fjall_history.specs.Seats.{seen_of};

    ghost left = { λ v. v };

    ghost right = { seen_of };
}

// What one seat knows comes beside what another knows, and the first is spent.
pub(crate) struct Beside;

impl Join<View> for Beside {
    ghost use Rattle.fjall_history.specs.Seats.{beside, gone};

    ghost both = { beside };

    ghost spent = { gone };
}
