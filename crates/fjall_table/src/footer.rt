//! The footer of a table.

ghost use Rattle.std.specs.Prelude.{◌≡◌, IfOk, IfErr};
ghost use Rattle.fjall_base.specs.declared.error.Error.TheVariants.{Storage};
ghost use Rattle.fjall_base.specs.declared.error.StorageError.TheVariants.{TableDamaged};
ghost use Rattle.fjall_base.specs.Fields.{ShowsRead};
ghost use Rattle.fjall_table.specs.Tables.{footer_text};
ghost use Rattle.fjall_table.specs.TableReading.{IsNoFooter, footer_at};

use crate::check::is_check;
use fjall_base::{Error, Result, StorageError, bytes_of, u64_of};

/// How many bytes a footer has.
pub const FOOTER_LEN: usize = 36;

/// A footer begins so: "FJT", and the number of the format.
pub(crate) const FOOTER_START: [u8; 4] = [b'F', b'J', b'T', 1];

const DAMAGED: Error = Error::Storage(StorageError::TableDamaged);

/// What stands at the end of a table.
#[derive(Clone, Copy, Debug, PartialEq, Eq)]
pub struct Footer {
    /// Where the index block begins, in bytes from the start of the file.
    pub index_offset: u64,
    /// How many bytes the framed index has.
    pub index_len: u64,
    pub entry_count: u64,
}

/// The footer at the front, and the bytes behind it.
#[tactic(auto, unfolding(crate::specs::TableReading::footer_at))]
fn footer_of(bytes: &[u8]) -> Option<(Footer, &[u8])>
    ensures { ShowsRead (λ x. (x.0, x.1.now)) result (footer_at bytes.now) }
{
    let Some((magic, rest)) = bytes_of(bytes, 4) else {
        return None;
    };
    let Some((index_offset, rest)) = u64_of(rest) else {
        return None;
    };
    let Some((index_len, rest)) = u64_of(rest) else {
        return None;
    };
    let Some((entry_count, rest)) = u64_of(rest) else {
        return None;
    };
    let Some((sum, rest)) = bytes_of(rest, 8) else {
        return None;
    };
    if magic != FOOTER_START.as_slice() {
        return None;
    }
    if !is_check(sum, &bytes[..28]) {
        return None;
    }
    let footer = Footer {
        index_offset,
        index_len,
        entry_count,
    };
    Some((footer, rest))
}

impl Footer {
    /// Reads a footer. Other bytes are `Storage(TableDamaged)`: another length, another check, or none of the four
    /// bytes that name the format. The formats page has the layout.
    pub fn read(bytes: &[u8]) -> Result<Footer>
        ensures footer { IfOk result (λ f. bytes.now ≡ footer_text f.index_offset f.index_len f.entry_count) }
        ensures damaged { IfErr result (λ e. (e ≡ Storage TableDamaged) × IsNoFooter bytes.now) }
    {
        let Some((footer, behind)) = footer_of(bytes) else {
            return Err(DAMAGED);
        };
        if !behind.is_empty() {
            return Err(DAMAGED);
        }
        Ok(footer)
    }
}
