//! The pairs that store a keyspace.

ghost use Rattle.std.specs.Prelude.{◌≡◌, ◌∷◌, [], ◌++◌, length, map, slice_index_or, OnOk, IfOk, IfErr};
ghost use Rattle.std.specs.List.{flat_map};
ghost use Rattle.fjall_base.specs.declared.error.Error.TheVariants.{OutOfMemory};
ghost use Rattle.fjall_options.specs.Options.{place, value_at};
ghost use Rattle.fjall_meta.specs.Entries.{option_entries, name_entry};

use crate::living::LivingKeyspace;
use fjall_base::{KvPair, Result, Slice, UserKey, UserValue};
use fjall_options::{OPTIONS_BY_NAME, StoredOption, encode_name_key};
use std::alloc::Global;

/// A pair of the meta keyspace.
#[derive(Clone, Debug, PartialEq, Eq, Drop)]
pub struct MetaEntry {
    /// Where it is stored.
    pub key: UserKey,
    /// What is stored there.
    pub value: UserValue,
    /// The number of the change that wrote it, which is the creation of its keyspace.
    pub number: u64,
}

/// The pair of an option out of those of all options, in the options' order.
fn pair_of(pairs: &[KvPair], option: StoredOption) -> &KvPair
    requires { length pairs.now ≡ 20 }
    ensures { result.now ≡ slice_index_or pairs.now (place option) result.now }
{
    &pairs[option as usize]
}

/// What is stored for an option of the keyspace.
pub(crate) fn value_of(
    alloc: Global,
    keyspace: &LivingKeyspace,
    option: StoredOption,
) -> Result<UserValue>
    ensures ok { IfOk result (λ value. value ≡ value_at option keyspace.now.options) }
    ensures only { IfErr result (λ e. e ≡ OutOfMemory) }
{
    Ok(Slice::new(alloc, keyspace.options.value(option))?)
}

/// Puts the pairs of the keyspace's options behind the entries.
fn put_options(alloc: Global, keyspace: &LivingKeyspace, entries: &mut Vec<MetaEntry>) -> Result<()>
    ensures ok { OnOk result (entries.new.items ≡ entries.old.items ++ option_entries keyspace.now) }
    ensures only { IfErr result (λ e. e ≡ OutOfMemory) }
{
    let pairs = keyspace.options.encode_kvs(alloc, keyspace.id)?;
    for option in &OPTIONS_BY_NAME {
        let pair = pair_of(&pairs, *option);
        entries.push(MetaEntry {
            key: pair.0.clone()?,
            value: pair.1.clone()?,
            number: keyspace.number,
        })?;
    }
    Ok(())
}

/// Puts the pair of the keyspace's name behind the entries.
fn put_name(alloc: Global, keyspace: &LivingKeyspace, entries: &mut Vec<MetaEntry>) -> Result<()>
    ensures ok { OnOk result (entries.new.items ≡ entries.old.items ++ name_entry keyspace.now ∷ []) }
    ensures only { IfErr result (λ e. e ≡ OutOfMemory) }
{
    entries.push(MetaEntry {
        key: encode_name_key(alloc, keyspace.id)?,
        value: keyspace.name.clone()?,
        number: keyspace.number,
    })?;
    Ok(())
}

/// Puts the pairs of the options of all these keyspaces behind the entries.
pub(crate) fn put_all_options(
    alloc: Global,
    living: &[LivingKeyspace],
    entries: &mut Vec<MetaEntry>,
) -> Result<()>
    ensures ok { OnOk result (entries.new.items ≡ entries.old.items ++ flat_map option_entries living.now) }
    ensures only { IfErr result (λ e. e ≡ OutOfMemory) }
{
    for keyspace in living {
        put_options(alloc, keyspace, entries)?;
    }
    Ok(())
}

/// Puts the pairs of the names of all these keyspaces behind the entries.
pub(crate) fn put_all_names(
    alloc: Global,
    living: &[LivingKeyspace],
    entries: &mut Vec<MetaEntry>,
) -> Result<()>
    ensures ok { OnOk result (entries.new.items ≡ entries.old.items ++ map name_entry living.now) }
    ensures only { IfErr result (λ e. e ≡ OutOfMemory) }
{
    for keyspace in living {
        put_name(alloc, keyspace, entries)?;
    }
    Ok(())
}
