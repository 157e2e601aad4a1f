//! The handle.

ghost use Rattle.std.specs.Box.Ownership.{box_owns};
ghost use Rattle.std.specs.contracts.impls.GlobalAllocator.TheImpl.{ghosts};
ghost use Rattle.std.specs.declared.alloc.Global.{Global};
ghost use Rattle.fjall_c.specs.contracts.session.Session.{the_row as session_row};
ghost use Rattle.fjall_c.specs.declared.session.Session.{Session};

use std::marker::Model;

/// The handle of a database, as callers in other languages have it: one pointer, to a session that the handle owns.
///
/// One thread at a time calls through it.
#[repr(C)]
pub struct Database {
    pub(crate) at: *mut u8,
    pub(crate) ghost session: { Session } by { session_row.coded },
    pub(crate) ghost by: { Global },
}

impl Model for Database {
    ghost also_owns = { λ database. box_owns (ghosts.dealloc_token database.by) session_row database.at database.session };
}
