//! Own writes over the pages of a core's reader.

ghost use Rattle.std.specs.Prelude.{◌≡◌, ℕ, None, IfErr, IfOk, OnOk};
ghost use Rattle.std.specs.Result.{result_err};
ghost use Rattle.fjall_base.specs.Pairs.{Pairs, page, pairs_between};
ghost use Rattle.fjall_reading.specs.Readers.{all_of, first_of, last_of};
ghost use Rattle.fjall_core.specs.Shown.{IsRefusedFor, ReadsKeyspace, Shows, read_due};
ghost use Rattle.fjall_core.specs.Laid.{laid};

use crate::reader::Reader;
use fjall_base::{Disk, Error, KvPair, Result};
use fjall_reading::{KeyRange, Pages};
use fjall_tx::OwnWrites;
use std::ops::Bound;

/// A page of what a core's reader shows, with own writes applied. Want of memory is told where nothing else refuses the read.
pub(crate) fn laid_page<D: Disk>(
    reader: &mut Reader<'_, D>,
    own: &OwnWrites,
    id: u64,
    range: &KeyRange,
    back: bool,
    max: usize,
) -> Result<Vec<KvPair>>
    ensures ok { (below : Pairs) → Shows D.honest reader.old.core.now reader.old.view id below
        → IfOk result (λ found. found.items ≡ page back max (pairs_between range.now (laid own.now id below))) }
    ensures same { (i : ℕ) (map : Pairs) → Shows D.honest reader.old.core.now reader.old.view i map → Shows D.honest reader.new.core.now reader.new.view i map }
    ensures reads { ReadsKeyspace D.honest reader.old.core reader.old.view id (result_err result) reader.new.core reader.new.view }
    ensures due { OnOk result (read_due reader.old.core.now reader.old.view id ≡ None) }
    ensures cause { IfErr result (IsRefusedFor reader.old.core.now reader.old.view id reader.new.core.now) }
{
    let Ok(wanted) = own.wanted(id, range, max) else {
        reader.page(id, range, back, 0)?;
        return Err(Error::OutOfMemory);
    };
    let found = reader.page(id, range, back, wanted)?;
    own.lay_over(id, range, back, max, found)
}

/// The first pair of a keyspace that a core's reader shows, with own writes applied.
pub(crate) fn laid_first<D: Disk>(
    reader: &mut Reader<'_, D>,
    own: &OwnWrites,
    id: u64,
) -> Result<Option<KvPair>>
    ensures ok { (below : Pairs) → Shows D.honest reader.old.core.now reader.old.view id below → IfOk result (λ found. found ≡ first_of (all_of (laid own.now id below))) }
    ensures same { (i : ℕ) (map : Pairs) → Shows D.honest reader.old.core.now reader.old.view i map → Shows D.honest reader.new.core.now reader.new.view i map }
    ensures reads { ReadsKeyspace D.honest reader.old.core reader.old.view id (result_err result) reader.new.core reader.new.view }
    ensures due { OnOk result (read_due reader.old.core.now reader.old.view id ≡ None) }
    ensures cause { IfErr result (IsRefusedFor reader.old.core.now reader.old.view id reader.new.core.now) }
{
    let mut found = laid_page(
        reader,
        own,
        id,
        &(Bound::Unbounded, Bound::Unbounded),
        false,
        1,
    )?;
    Ok(found.pop())
}

/// The last pair of a keyspace that a core's reader shows, with own writes applied.
pub(crate) fn laid_last<D: Disk>(
    reader: &mut Reader<'_, D>,
    own: &OwnWrites,
    id: u64,
) -> Result<Option<KvPair>>
    ensures ok { (below : Pairs) → Shows D.honest reader.old.core.now reader.old.view id below → IfOk result (λ found. found ≡ last_of (all_of (laid own.now id below))) }
    ensures same { (i : ℕ) (map : Pairs) → Shows D.honest reader.old.core.now reader.old.view i map → Shows D.honest reader.new.core.now reader.new.view i map }
    ensures reads { ReadsKeyspace D.honest reader.old.core reader.old.view id (result_err result) reader.new.core reader.new.view }
    ensures due { OnOk result (read_due reader.old.core.now reader.old.view id ≡ None) }
    ensures cause { IfErr result (IsRefusedFor reader.old.core.now reader.old.view id reader.new.core.now) }
{
    let mut found = laid_page(
        reader,
        own,
        id,
        &(Bound::Unbounded, Bound::Unbounded),
        true,
        1,
    )?;
    Ok(found.pop())
}
