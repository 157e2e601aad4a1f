//! What holds of tables in files.

ghost use Rattle.std.specs.Prelude.{◌≡◌, List};
ghost use Rattle.fjall_base.specs.Disk as disk;
ghost use Rattle.fjall_base.specs.Disk.{IsFile, Meaning};
ghost use Rattle.fjall_base.specs.Pairs.{Bytes};
ghost use Rattle.fjall_table.specs.declared.table_info.TableInfo.{TableInfo};
ghost use Rattle.fjall_table.specs.Blocks.{Entry};
ghost use Rattle.fjall_table.specs.Tables.{Handle, entries_of};
ghost use Rattle.fjall_table_reader.specs.Files.{IsTableOf, bytes_in};
ghost use Rattle.fjall_table_reader.specs.Readers.{HoldsAWrongBlock, HoldsAWrongBlockFor, IsTableBut, Reader, SomeTableIsWrong, SomeTableIsWrongFor};

/// A table's file all of whose blocks are right is that table but for wrong blocks, of which there are none.
pub fn a_right_table_is_one_but_for_no_block()
    ensures { (entry : disk.DiskEntry) (info : TableInfo) (entries : List Entry) → IsFile entry → IsTableOf info (bytes_in entry) entries
        → (blocks : List (List Entry)) × (entries ≡ entries_of blocks) × IsTableBut entry info blocks }
{}

/// A wrong block that may hold a key is a wrong block of its table.
pub fn a_wrong_block_for_a_key_is_a_wrong_block()
    ensures block { (key : Bytes) (entry : disk.DiskEntry) (handles : List Handle) → HoldsAWrongBlockFor key entry handles → HoldsAWrongBlock entry handles }
    ensures tables { (key : Bytes) (there : Meaning) (tables : List Reader) → SomeTableIsWrongFor key there tables → SomeTableIsWrong there tables }
{}
