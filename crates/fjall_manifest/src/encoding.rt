//! A record as bytes.

ghost use Rattle.std.specs.Prelude.{◌≡◌, ◌++◌, ◌<◌, ◌≤◌, ◌^◌, length, take, OnOk, OnErr, IsOkUnless, IfSome, IfNone, ◌+◌, ◌*◌, Err, vec_len};
ghost use Rattle.std.specs.List.{flat_map, AllByRecursion};
ghost use Rattle.byteorder.specs.Endian.{little_bytes};
ghost use Rattle.fjall_manifest.specs.Records.{view, optional_text, table_line, numbers_text, body, record_text, HasRoom, HasRoomForAll, Fits};

use crate::record::Record;
use byteorder::{ByteOrder, LittleEndian};
use fjall_base::{Error, Result};
use fjall_table::{TableInfo, put_check};

fn optional_bytes(number: Option<u64>) -> [u8; 9]
    ensures text { result ≡ optional_text number }
    ensures fits { IfSome number (λ n. n < 2 ^ 64) }
{
    let mut bytes = [0u8; 9];
    if let Some(number) = number {
        bytes[0] = 1;
        LittleEndian::write_u64(&mut bytes[1..], number);
    }
    bytes
}

#[tactic(auto, unfolding(crate::specs::Records::table_line))]
fn table_bytes(table: TableInfo) -> [u8; 25]
    ensures text { result ≡ table_line table }
    ensures fits { HasRoom table }
{
    let mut bytes = [0u8; 25];
    LittleEndian::write_u64(&mut bytes, table.id);
    bytes[8] = table.level as u8;
    LittleEndian::write_u64(&mut bytes[9..], table.file_len);
    LittleEndian::write_u64(&mut bytes[17..], table.entry_count);
    bytes
}

/// How many bytes a body with so many tables and clears has, or none where its length has no room.
fn body_len(table_count: usize, clear_count: usize) -> Option<u32>
    ensures some { IfSome result (λ len. len ≡ 43 + 25 * table_count + 8 * clear_count) }
    ensures none { IfNone result (2 ^ 32 ≤ 43 + 25 * table_count + 8 * clear_count) }
{
    let tables = u32::try_from(table_count).ok()?;
    let clears = u32::try_from(clear_count).ok()?;
    let len = 43 + 25 * u64::from(tables) + 8 * u64::from(clears);
    u32::try_from(len).ok()
}

fn put_tables(out: &mut Vec<u8>, tables: &[TableInfo]) -> Result<()>
    ensures ok { OnOk result (out.new.items ≡ out.old.items ++ flat_map table_line tables.now) }
    ensures fits { OnOk result (AllByRecursion HasRoom tables.now) }
    ensures kept { take (length out.old.items) out.new.items ≡ out.old.items }
    ensures only { IsOkUnless result Error.OutOfMemory }
{
    for table in tables {
        out.extend_from_slice(&table_bytes(*table))?;
    }
    Ok(())
}

fn put_clears(out: &mut Vec<u8>, clears: &[u64]) -> Result<()>
    ensures ok { OnOk result (out.new.items ≡ out.old.items ++ flat_map (little_bytes 8) clears.now) }
    ensures fits { OnOk result (AllByRecursion (λ n. n < 2 ^ 64) clears.now) }
    ensures kept { take (length out.old.items) out.new.items ≡ out.old.items }
    ensures only { IsOkUnless result Error.OutOfMemory }
{
    for clear in clears {
        out.extend_from_slice(&clear.to_le_bytes())?;
    }
    Ok(())
}

impl Record {
    /// All before the tables.
    fn numbers(&self, table_count: u32) -> [u8; 39]
        ensures text { result ≡ numbers_text (view self.now) table_count }
        ensures persisted { IfSome self.now.persisted (λ n. n < 2 ^ 64) }
        ensures highest { IfSome self.now.highest (λ n. n < 2 ^ 64) }
        ensures next_table_id { self.now.next_table_id < 2 ^ 64 }
        ensures next_keyspace_id { self.now.next_keyspace_id < 2 ^ 64 }
    {
        let (next_table_id, next_keyspace_id) = (self.next_table_id, self.next_keyspace_id);
        let mut bytes = [0u8; 39];
        bytes[0] = 1;
        bytes[1..10].copy_from_slice(&optional_bytes(self.persisted));
        bytes[10..19].copy_from_slice(&optional_bytes(self.highest));
        LittleEndian::write_u64(&mut bytes[19..], next_table_id);
        LittleEndian::write_u64(&mut bytes[27..], next_keyspace_id);
        LittleEndian::write_u32(&mut bytes[35..], table_count);
        bytes
    }

    fn put_body(&self, out: &mut Vec<u8>) -> Result<()>
        requires tables { vec_len self.now.tables < 2 ^ 32 }
        requires clears { vec_len self.now.clears < 2 ^ 32 }
        ensures ok { OnOk result (out.new.items ≡ out.old.items ++ body (view self.now)) }
        ensures fits { OnOk result (HasRoomForAll (view self.now)) }
        ensures kept { take (length out.old.items) out.new.items ≡ out.old.items }
        ensures only { IsOkUnless result Error.OutOfMemory }
    {
        out.extend_from_slice(&self.numbers(self.tables.len() as u32))?;
        put_tables(out, &self.tables)?;
        out.extend_from_slice(&(self.clears.len() as u32).to_le_bytes())?;
        put_clears(out, &self.clears)?;
        Ok(())
    }

    fn put_text(&self, out: &mut Vec<u8>, len: u32) -> Result<()>
        requires { len ≡ 43 + 25 * vec_len self.now.tables + 8 * vec_len self.now.clears }
        ensures ok { OnOk result (out.new.items ≡ out.old.items ++ record_text (view self.now)) }
        ensures fits { OnOk result (HasRoomForAll (view self.now)) }
        ensures kept { take (length out.old.items) out.new.items ≡ out.old.items }
        ensures only { IsOkUnless result Error.OutOfMemory }
    {
        let before = out.len();
        out.reserve(12 + len as usize)?;
        out.extend_from_slice(&len.to_le_bytes())?;
        self.put_body(out)?;
        put_check(out, before)?;
        Ok(())
    }

    /// Adds the record's text. An `Err` adds nothing. The formats page has the layout.
    pub fn encode_into(&self, out: &mut Vec<u8>) -> Result<()>
        ensures ok { OnOk result (out.new.items ≡ out.old.items ++ record_text (view self.now)) }
        ensures fits { OnOk result (Fits (view self.now)) }
        ensures err { OnErr result (out.new.items ≡ out.old.items) }
        ensures too_long { (2 ^ 32 ≤ length (body (view self.now))) → result ≡ Err Error.TooManyItems }
        ensures cause { length (body (view self.now)) < 2 ^ 32 → IsOkUnless result Error.OutOfMemory }
    {
        let Some(len) = body_len(self.tables.len(), self.clears.len()) else {
            return Err(Error::TooManyItems);
        };
        let before = out.len();
        if let Err(error) = self.put_text(out, len) {
            out.truncate(before);
            return Err(error);
        }
        Ok(())
    }
}
