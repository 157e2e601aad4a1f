//! A database that was just opened, which has no name yet.

ghost use Rattle.std.specs.Prelude.{◌≡◌, [], Some, IfErr, IfOk, IsTrue};
ghost use Rattle.fjall_shared.specs.Openings.{IsLeftByEngine, IsOpenedFrom};

use crate::database::Database;
use crate::named::Named;
use crate::naming::Naming;
use crate::seen::Seen;
use fjall_base::{Disk, Error, Refused};
use fjall_history::{SeenSeat, Word};
use fjall_shared::{Config, Shared};
use std::alloc::Global;
use std::marker::{Model, PhantomData};
use std::result;
use std::sync::{Arc, Mutex, Wait};

/// A database that was just opened, with what its first caller has seen. Contracts see its word and its list.
///
/// It has no name yet: pick one by calling a function of your own that is generic over [`Naming`] with `Brand`, and call
/// [`named`](Opened::named) there.
pub struct Opened<D: Disk> {
    shared: Shared<D>,
    seat: SeenSeat,
    word: Arc<Word, Global>,
}

// Written out, so that no crate above proves the drop of what it owns anew.
impl<D: Disk + Drop> Drop for Opened<D> {
    fn drop(self) {
        let Opened {
            shared: _,
            seat: _,
            word: _,
        } = self;
    }
}

impl<D: Disk> Model for Opened<D> {
    ghost use Rattle.std.specs.Coded.{codes};
    ghost use Rattle.std.specs.Prelude.{◌≡◌};
    ghost use Rattle.std.specs.Arc.{arc_value};
    ghost use Rattle.fjall_history.specs.Codes.{history_code};
    ghost use Rattle.fjall_history.specs.Seats.{Place};

    ghost Value = { Place };

    ghost coded = { Prim.hlevel (codes, history_code) };

    ghost view = { λ o. o.seat };

    ghost invariant = { λ o. (o.seat ≡ o.shared.seat) × (o.seat.table ≡ arc_value o.word) };
}

impl<D: Disk> Opened<D> {
    /// Opens a database on a disk, as [`Shared::open`] does, with its refusals, which hand the disk back.
    pub fn open(alloc: Global, config: Config, disk: D) -> result::Result<Opened<D>, Refused<D>>
        requires left { IsTrue D.honest → IsLeftByEngine (D.meaning disk) }
        ensures begins { IfOk result (λ o. o.list.accepted ≡ []) }
        ensures store { IsTrue D.honest → IfOk result (λ o. IsOpenedFrom (D.meaning disk) o.list.opened) }
    {
        let (shared, seat) = match Shared::open(alloc, config, disk) {
            Ok(opened) => opened,
            Err(refused) => return Err(refused),
        };
        match shared.word() {
            Ok(word) => Ok(Opened { shared, seat, word }),
            Err(_) => Err(Refused {
                error: Error::OutOfMemory,
                value: shared.into_core().into_disk(),
            }),
        }
    }
}

impl<D: Disk + Drop> Opened<D> {
    /// The database under a name, as its first caller has seen it. Where memory is used up what was opened is handed back.
    pub fn named<J: Naming, R: Wait>(
        self,
        rt: &R,
        alloc: Global,
    ) -> result::Result<Seen<D, J>, Opened<D>>
        requires { J.table ≡ Some self.table }
        ensures ok { IfOk result (λ seen. seen ≡ self.list) }
        ensures err { IfErr result (λ opened. opened ≡ self) }
    {
        let Opened { shared, seat, word } = self;
        let empty = Database {
            lock: Mutex::new(None),
            word,
        };
        match Arc::new(alloc, empty) {
            Ok(database) => {
                let named = Named {
                    shared,
                    of: PhantomData,
                };
                *database.lock.lock(rt) = Some(named);
                Ok(Seen { database, seat })
            }
            Err(refused) => {
                let Database { lock, word } = refused.value;
                drop(lock);
                Err(Opened { shared, seat, word })
            }
        }
    }
}
