//! Names of keyspaces.

ghost use Rattle.std.specs.Prelude.{◌≡◌};
ghost use Rattle.fjall_meta.specs.Keyspaces.{is_name};

/// Whether a keyspace may have this name: it has 1 to 255 bytes.
pub fn is_valid_keyspace_name(name: &str) -> bool
    ensures { result ≡ is_name name.now }
{
    is_name(name.as_bytes())
}

/// Whether these bytes may name a keyspace.
pub(crate) fn is_name(name: &[u8]) -> bool
    ensures { result ≡ is_name name.now }
{
    1 <= name.len() && name.len() <= 255
}
