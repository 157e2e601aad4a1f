//! What a handle lends and gives back.

ghost use Rattle.std.specs.Prelude.{◌≡◌};
ghost use types.Logic.{sem};
ghost use Rattle.fjall_c.specs.Handles.{LendsSession};

use crate::handle::Database;
use crate::session::Session;
use std::alloc::Global;

impl Database {
    /// The session behind the handle.
    pub(crate) fn session_mut(&mut self) -> &mut Session
        ensures* writes_back { sem 𝓛 (LendsSession self.entry result) }
        ensures value { result.now ≡ self.old.session }
    {
        unsafe { &mut *(self.at as *mut Session) }
    }

    /// The session in its box, for which no handle stands any more.
    pub(crate) fn into_box(self, alloc: Global) -> Box<Session>
        ensures { result.value ≡ self.session }
    {
        let Database { at } = self;
        unsafe { Box::from_raw(alloc, at as *mut Session) }
    }
}
