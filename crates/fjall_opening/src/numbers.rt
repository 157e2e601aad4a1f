//! The numbers of changes that a folder tells: all that come later are greater.

ghost use Rattle.std.specs.Prelude.{◌≡◌, ◌⊎◌, ◌<◌, ◌≤◌, ◌^◌, All, IfErr, IfOk, IfSome, IsOk, OnOk, max};
ghost use Rattle.fjall_base.specs.declared.error.Error.TheVariants.{Storage, Unrecoverable};
ghost use Rattle.fjall_base.specs.declared.error.StorageError.TheVariants.{TableDamaged};
ghost use Rattle.fjall_base.specs.Disk.{Image};
ghost use Rattle.fjall_recovery.specs.Folders.{IsFinished, past, past_records};
ghost use Rattle.fjall_opening.specs.Opened.{HasNumbers, TellsBelow, records_of};

use fjall_base::{Error, Result, StorageError};
use fjall_meta::LivingKeyspace;
use fjall_recovery::RecoveredFolder;

/// One past the number, and 0 where there is none.
fn past(number: Option<u64>) -> u64
    ensures { IfSome number (λ n. n < 2 ^ 63) → result ≡ past number }
{
    match number {
        Some(number) => number.saturating_add(1),
        None => 0,
    }
}

/// One past the greatest number that a folder tells: of its batches, and of its last records.
fn number_of(found: &RecoveredFolder) -> u64
    ensures { All HasNumbers (records_of found.now) → result ≡ max found.now.journals.least (past_records (records_of found.now)) }
{
    let catalog = &found.catalog.catalog;
    let tree = past(catalog.persisted).max(past(catalog.highest));
    let mut number = found.journals.least.max(tree);
    for home in &found.homes {
        let record = &home.record;
        number = number.max(past(record.persisted)).max(past(record.highest));
    }
    number
}

/// Refuses a number that is more than one past the greatest that a change may have.
fn check_small(number: u64) -> Result<()>
    ensures ok { OnOk result (number ≤ 2 ^ 63) }
    ensures cause { IfErr result (λ e. (e ≡ Unrecoverable) × (number ≤ 2 ^ 63 → ⊥)) }
{
    if number <= 1 << 63 {
        Ok(())
    } else {
        Err(Error::Unrecoverable)
    }
}

/// Refuses keyspaces of which one was made under this number or a greater one.
fn check_made(living: &[LivingKeyspace], number: u64) -> Result<()>
    ensures ok { OnOk result (All (λ k. k.number < number) living.now) }
    ensures cause { IfErr result (λ e. (e ≡ Storage TableDamaged) × (All (λ k. k.number < number) living.now → ⊥)) }
{
    if living.iter().all(|keyspace| keyspace.number < number) {
        Ok(())
    } else {
        Err(Error::Storage(StorageError::TableDamaged))
    }
}

/// Refuses a folder in which a keyspace's record tells this number or a greater one as persisted. Of what an honest disk holds none
/// is refused.
fn check_told(found: &RecoveredFolder, number: u64) -> Result<()>
    ensures ok { OnOk result (TellsBelow number found.now) }
    ensures cause { IfErr result (λ e. (e ≡ Unrecoverable) × (TellsBelow number found.now → ⊥)) }
{
    let homes = &found.homes;
    if homes
        .iter()
        .all(|home| home.record.persisted < Some(number))
    {
        Ok(())
    } else {
        Err(Error::Unrecoverable)
    }
}

/// One past the greatest number that a folder tells, which the next change may have. A folder is refused that contradicts it; of
/// what an honest disk holds none is.
pub(crate) fn checked_number(found: &RecoveredFolder) -> Result<u64>
    ensures number { All HasNumbers (records_of found.now) → IfOk result (λ number. number ≡ max found.now.journals.least (past_records (records_of found.now))) }
    ensures small { IfOk result (λ number. number ≤ 2 ^ 63) }
    ensures made { IfOk result (λ number. All (λ k. k.number < number) found.now.catalog.keyspaces.living) }
    ensures told { IfOk result (λ number. TellsBelow number found.now) }
    ensures fine { (image : Image) → IsFinished image found.now → IsOk result }
    ensures cause { IfErr result (λ e. (e ≡ Unrecoverable) ⊎ (e ≡ Storage TableDamaged)) }
{
    let number = number_of(found);
    check_small(number)?;
    check_made(found.catalog.keyspaces.living(), number)?;
    check_told(found, number)?;
    Ok(number)
}
