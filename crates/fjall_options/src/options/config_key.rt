//! Keys of the meta keyspace.

ghost use Rattle.std.specs.Prelude.{◌≡◌, ◌++◌, OnOk, IfOk, IfErr};
ghost use Rattle.fjall_base.specs.declared.error.Error.TheVariants.{OutOfMemory};
ghost use Rattle.fjall_options.specs.Options.{name_key, config_key};

use byteorder::{BigEndian, ByteOrder};
use fjall_base::{Result, Slice, UserKey};
use std::alloc::Global;

/// The bytes of the key that [`encode_name_key`] answers.
pub fn name_key_bytes(keyspace_id: u64) -> [u8; 9]
    ensures { result ≡ name_key keyspace_id }
{
    let mut key = [b'n', 0, 0, 0, 0, 0, 0, 0, 0];
    BigEndian::write_u64(&mut key[1..], keyspace_id);
    key
}

/// The key of the meta keyspace that has a keyspace's name: `n` and the id, the highest byte first. It
/// allocates, and fails where memory is used up.
pub fn encode_name_key(alloc: Global, keyspace_id: u64) -> Result<UserKey>
    ensures ok { IfOk result (λ key. key ≡ name_key keyspace_id) }
    ensures only { IfErr result (λ e. e ≡ OutOfMemory) }
{
    Ok(Slice::new(alloc, &name_key_bytes(keyspace_id))?)
}

/// Adds the bytes of the key that [`encode_config_key`] answers.
pub fn put_config_key(out: &mut Vec<u8>, keyspace_id: u64, name: &str) -> Result<()>
    ensures ok { OnOk result (out.new.items ≡ out.old.items ++ config_key keyspace_id name.now) }
    ensures only { IfErr result (λ e. e ≡ OutOfMemory) }
{
    let mut front = [b'c', 0, 0, 0, 0, 0, 0, 0, 0];
    BigEndian::write_u64(&mut front[1..], keyspace_id);
    out.extend_from_slice(&front)?;
    out.extend_from_slice(name.as_bytes())?;
    Ok(())
}

/// The key of the meta keyspace that has an option of a keyspace: `c`, the id, the highest byte first,
/// and the option's name. It allocates, and fails where memory is used up.
pub fn encode_config_key(alloc: Global, keyspace_id: u64, name: &str) -> Result<UserKey>
    ensures ok { IfOk result (λ key. key ≡ config_key keyspace_id name.now) }
    ensures only { IfErr result (λ e. e ≡ OutOfMemory) }
{
    let mut key = Vec::new(alloc);
    put_config_key(&mut key, keyspace_id, name)?;
    Ok(Slice::new(alloc, &key)?)
}
