//! The names of journals, keyspaces and tables.

ghost use Rattle.std.specs.Prelude.{◌≡◌, ◌↔◌, ℕ, ◌<◌, IfOk, IfSome, IsErr, IsOkUnless, Ok, Some, string_bytes};
ghost use Rattle.fjall_files.specs.Names.{IsJournalName, IsMisnamed, IsNameOf, current_name, journal_name, keyspace_folder, name_in, table_name};

use crate::number::parse_number;
use fjall_base::{Error, JournalRecoveryError, Result};
use std::alloc::Global;

/// The marker of a folder.
pub const MARKER_FILE: &str = "version";

/// The folder of all keyspaces.
pub const KEYSPACES_FOLDER: &str = "keyspaces";

/// The folder of tree 0, which says which keyspaces live.
pub const TREE_FOLDER: &str = "keyspaces/0";

/// The file of tree 0's records.
pub const TREE_RECORDS: &str = "keyspaces/0/current";

/// The name of a journal's file: its id and `.jnl`, as `12.jnl`.
pub fn journal_name(alloc: Global, id: u64) -> Result<String>
    ensures name { IfOk result (λ name. string_bytes name ≡ journal_name id) }
    ensures only { IsOkUnless result Error.OutOfMemory }
{
    Ok(format!(in alloc; "{id}.jnl")?)
}

/// The name of a keyspace's folder, as `keyspaces/12`.
pub fn keyspace_folder(alloc: Global, id: u64) -> Result<String>
    ensures name { IfOk result (λ name. string_bytes name ≡ keyspace_folder id) }
    ensures only { IsOkUnless result Error.OutOfMemory }
{
    Ok(format!(in alloc; "keyspaces/{id}")?)
}

/// The name of the file of a keyspace's records, as `keyspaces/12/current`.
pub fn current_name(alloc: Global, id: u64) -> Result<String>
    ensures name { IfOk result (λ name. string_bytes name ≡ current_name id) }
    ensures only { IsOkUnless result Error.OutOfMemory }
{
    Ok(format!(in alloc; "keyspaces/{id}/current")?)
}

/// The name of the file of a keyspace's table, as `keyspaces/12/3.table`.
pub fn table_name(alloc: Global, id: u64, table: u64) -> Result<String>
    ensures name { IfOk result (λ name. string_bytes name ≡ table_name id table) }
    ensures only { IsOkUnless result Error.OutOfMemory }
{
    Ok(format!(in alloc; "keyspaces/{id}/{table}.table")?)
}

/// The id in the name of a journal; `None` for a name that has nothing to do with journals.
///
/// A name with the extension `jnl`, in whatever case, that is no journal's is refused with
/// `InvalidFileName`. The extension is what follows the last dot, where something stands before that dot.
pub fn parse_journal_name(name: &str) -> Result<Option<u64>>
    ensures spelled { IfOk result (λ found. IfSome found (IsJournalName name.now)) }
    ensures all_found { (id : ℕ) → IsJournalName name.now id → result ≡ Ok (Some id) }
    ensures refused { IsErr result ↔ IsMisnamed name.now }
    ensures only { IsOkUnless result (Error.JournalRecovery JournalRecoveryError.InvalidFileName) }
{
    let Some((stem, extension)) = name.rsplit_once('.') else {
        return Ok(None);
    };
    if stem.is_empty() || !extension.eq_ignore_ascii_case("jnl") {
        return Ok(None);
    }
    match parse_number(stem) {
        Some(id) if extension == "jnl" => Ok(Some(id)),
        _ => Err(Error::JournalRecovery(JournalRecoveryError::InvalidFileName)),
    }
}

/// The id in the name of a keyspace's folder.
pub(crate) fn parse_keyspace_folder(name: &str) -> Option<u64>
    ensures spelled { IfSome result (IsNameOf keyspace_folder name.now) }
    ensures all_found { (id : ℕ) → IsNameOf keyspace_folder name.now id → result ≡ Some id }
{
    parse_number(name.strip_prefix("keyspaces/")?)
}

/// The id in the name of a table in this folder.
pub(crate) fn parse_table_name(folder: &str, name: &str) -> Option<u64>
    ensures spelled { IfSome result (IsNameOf (name_in folder.now) name.now) }
    ensures all_found { (id : ℕ) → IsNameOf (name_in folder.now) name.now id → result ≡ Some id }
{
    let file = name.strip_prefix(folder)?.strip_prefix('/')?;
    parse_number(file.strip_suffix(".table")?)
}
