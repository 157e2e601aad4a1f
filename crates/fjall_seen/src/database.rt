//! A database: what lies under its lock, and its word.

use crate::named::Named;
use crate::naming::{Naming, Plain};
use fjall_base::Disk;
use fjall_history::Word;
use std::alloc::Global;
use std::marker::Model;
use std::sync::{Arc, Mutex};

/// A database that threads share. Its lock holds nothing once it is closed.
#[derive(Drop)]
pub struct Database<D: Disk, J: Naming = Plain> {
    pub(crate) lock: Mutex<Option<Named<D, J>>>,
    pub(crate) word: Arc<Word, Global>,
}

impl<D: Disk, J: Naming> Model for Database<D, J> {
    ghost use Rattle.std.specs.Arc.{arc_value};
    ghost use Rattle.atomic_table.specs.Seated.{TableId, table_id_coded};
    ghost use Rattle.fjall_seen.specs.Naming.{IsNamed};

    ghost Value = { TableId };

    ghost coded = { table_id_coded };

    ghost view = { λ d. arc_value d.word };

    ghost invariant = { λ d. IsNamed J.table (arc_value d.word) };
}
