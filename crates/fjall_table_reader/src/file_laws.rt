//! What holds of files that are tables.

ghost use Rattle.std.specs.Prelude.{◌≡◌, ℕ, List};
ghost use Rattle.fjall_table.specs.Blocks.{Entry};
ghost use Rattle.fjall_table.specs.Tables.{Handle};
ghost use Rattle.fjall_table.specs.declared.table_info.TableInfo.{TableInfo};
ghost use Rattle.fjall_table_reader.specs.Files.{IsIndexed, IsTableOf};

/// A file that is a record's table has an index as an opening wants it.
pub fn files_have_an_index()
    ensures { (info : TableInfo) (bytes : List ℕ) (es : List Entry) → IsTableOf info bytes es → (handles : List Handle) × IsIndexed info bytes handles }
{}

/// A file has one index.
pub fn one_index_of_a_file()
    ensures { (info : TableInfo) (bytes : List ℕ) (hs gs : List Handle) → IsIndexed info bytes hs → IsIndexed info bytes gs → hs ≡ gs }
{}

/// A file that is a record's table holds one list of entries.
pub fn one_list_of_a_file()
    ensures { (info : TableInfo) (bytes : List ℕ) (es fs : List Entry) → IsTableOf info bytes es → IsTableOf info bytes fs → es ≡ fs }
{}
