//! Names of databases, for proofs alone.

use std::marker::Brand;

/// Which word a database is at. A program picks it as it names a database, by calling a function that is generic over it with `Brand`.
pub trait Naming {
    ghost use Rattle.std.specs.Prelude.{Option};
    ghost use Rattle.atomic_table.specs.Seated.{TableId};

    ghost table: { Option TableId };
}

impl Naming for Brand {
    ghost use Rattle.std.specs.Prelude.{None};

    ghost table = { None };
}

/// No name: of a database that has none, no caller keeps what it has seen.
pub struct Plain;

impl Naming for Plain {
    ghost use Rattle.std.specs.Prelude.{None};

    ghost table = { None };
}
