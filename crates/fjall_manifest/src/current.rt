//! A keyspace's `current` as a whole.

ghost use Rattle.std.specs.Prelude.{◌≡◌, ℕ, List, IfOk, IfErr};
ghost use Rattle.std.specs.Option.{option_map};
ghost use Rattle.fjall_base.specs.declared.error.StorageError.TheVariants.{RecordDamaged};
ghost use Rattle.fjall_table.specs.Reading.{DamagedWhere};
ghost use Rattle.fjall_manifest.specs.Records.{Fields, view, IsRecords, HasContradiction};
ghost use Rattle.fjall_base.specs.Lists.{last_of};

use crate::decoding::record_of;
use crate::record::Record;
use fjall_base::Result;
use fjall_table::frame_of;
use std::alloc::Global;

/// What a `current` holds.
#[derive(Drop)]
pub struct Current {
    /// The last whole record, which counts.
    pub record: Option<Record>,
    /// Where the whole records end. What stands behind is what an append that was cut short left.
    pub end: usize,
}

/// Reads a `current`, record after record, up to the first place where no whole record with a right check stands. A
/// whole record whose fields contradict each other is `Storage(RecordDamaged)`. The formats page has the layout.
pub fn read_current(alloc: Global, bytes: &[u8]) -> Result<Current>
    // These records stand whole at the front, up to the end, and the last of them is answered.
    ensures whole { IfOk result (λ c. (rs : List Fields) × IsRecords bytes.now rs c.end × (option_map view c.record ≡ last_of rs)) }
    // No other records stand there.
    ensures only { IfOk result (λ c. (rs : List Fields) (end : ℕ) → IsRecords bytes.now rs end → (last_of rs ≡ option_map view c.record) × (end ≡ c.end)) }
    ensures damaged { IfErr result (DamagedWhere RecordDamaged (HasContradiction bytes.now)) }
{
    let mut record = None;
    let mut rest = bytes;
    while let Some((payload, after)) = frame_of(rest, 4) {
        record = Some(record_of(alloc, payload)?);
        rest = after;
    }
    Ok(Current {
        record,
        end: bytes.len() - rest.len(),
    })
}
