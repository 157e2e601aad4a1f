//! Keyspaces read back from the pairs that store them.

ghost use Rattle.std.specs.Prelude.{◌≡◌, ◌↔◌, ℕ, ◌==◌, if◌then◌else◌, ◌∷◌, [], ◌++◌, map, filter_map, All, IsTrue, IfOk, IfErr, OnOk, MatchOption, None, Some, Ok};
ghost use Rattle.fjall_base.specs.declared.error.Error.TheVariants.{OutOfMemory};
ghost use Rattle.fjall_options.specs.Options.{ReadsStored, RefusesStored, value_of};
ghost use Rattle.fjall_meta.specs.Reading.{key_id, AreIds, pairs_of, stored_name, stored_keyspace, first_fault, IsFirstFault, IsReadingRefusal, ReadsBack, own_entries, number_in, entries_at, IsStored};
ghost use Rattle.fjall_meta.specs.Keyspaces.{AreKeyspaces};
ghost use Rattle.fjall_meta.specs.Entries.{entries_of};

use crate::entry::MetaEntry;
use crate::living::LivingKeyspace;
use crate::meta_keyspace::MetaKeyspace;
use crate::name::is_name;
use byteorder::{BigEndian, ByteOrder};
use fjall_base::{Error, KvPair, Result, Slice, StorageError};
use fjall_options::{KeyspaceCreateOptions, encode_name_key};
use std::alloc::Global;
use std::collections::BTreeMap;

/// The entries of each id in their keys.
type Groups = BTreeMap<u64, Vec<MetaEntry>>;

/// The id in a key of the meta keyspace.
fn key_id(key: &[u8]) -> Option<u64>
    ensures { result ≡ key_id key.now }
{
    if key.len() >= 9 && (key[0] == b'n' || key[0] == b'c') {
        Some(BigEndian::read_u64(&key[1..]))
    } else {
        None
    }
}

/// The ids in the keys of the entries.
fn ids_in_keys(alloc: Global, entries: &[MetaEntry]) -> Result<Vec<u64>>
    ensures ok { IfOk result (λ ids. ids.items ≡ filter_map (λ e. key_id e.key) entries.now) }
    ensures only { IfErr result (λ e. e ≡ OutOfMemory) }
{
    let ids = entries
        .iter()
        .filter_map(|entry| key_id(&entry.key))
        .collect(alloc)?;
    Ok(ids)
}

/// The ids of the keyspaces that the entries are of, ascending, each once.
fn ids_of(alloc: Global, entries: &[MetaEntry]) -> Result<Vec<u64>>
    ensures ok { IfOk result (λ ids. AreIds ids.items entries.now) }
    ensures only { IfErr result (λ e. e ≡ OutOfMemory) }
{
    let mut ids = ids_in_keys(alloc, entries)?;
    ids.sort()?;
    ids.dedup();
    Ok(ids)
}

/// The keys and values of the entries.
fn pairs_of(alloc: Global, entries: &[MetaEntry]) -> Result<Vec<KvPair>>
    ensures ok { IfOk result (λ pairs. pairs.items ≡ pairs_of entries.now) }
    ensures only { IfErr result (λ e. e ≡ OutOfMemory) }
{
    let mut pairs = Vec::with_capacity(alloc, entries.len())?;
    for entry in entries {
        pairs.push((entry.key.clone()?, entry.value.clone()?))?;
    }
    Ok(pairs)
}

/// The value of the first pair that has this key.
fn find<'a>(pairs: &'a [KvPair], key: &[u8]) -> Option<&'a Slice>
    ensures { MatchOption result (value_of key.now pairs.now ≡ None) (λ value. value_of key.now pairs.now ≡ Some value.now) }
{
    for (stored, value) in pairs {
        if stored.as_slice() == key {
            return Some(value);
        }
    }
    None
}

/// The name that the pairs give to a keyspace.
fn stored_name(alloc: Global, id: u64, pairs: &[KvPair]) -> Result<Slice>
    ensures { ReadsStored result (stored_name id pairs.now) }
{
    let found = {
        let key = encode_name_key(alloc, id)?;
        find(pairs, &key)
    };
    let Some(name) = found else {
        return Err(Error::Storage(StorageError::OptionMissing));
    };
    if !is_name(name) {
        return Err(Error::Storage(StorageError::OptionInvalid));
    }
    Ok(Slice::new(alloc, name)?)
}

/// The name and the options that the pairs give to a keyspace.
fn stored_keyspace(
    alloc: Global,
    id: u64,
    pairs: &[KvPair],
) -> Result<(Slice, KeyspaceCreateOptions)>
    ensures { ReadsStored result (stored_keyspace id pairs.now) }
{
    let name = stored_name(alloc, id, pairs)?;
    let options = KeyspaceCreateOptions::from_kvs(alloc, id, pairs)?;
    Ok((name, options))
}

/// The number of the first of these entries, 0 where there is none.
fn number_of(entries: &[MetaEntry]) -> u64
    ensures { result ≡ number_in entries.now }
{
    match entries {
        [] => 0,
        [entry, ..] => entry.number,
    }
}

/// The keyspace of this id, as its entries store it.
fn keyspace_of(alloc: Global, id: u64, own: &[MetaEntry]) -> Result<LivingKeyspace>
    ensures id { IfOk result (λ k. k.id ≡ id) }
    ensures given { IfOk result (λ k. stored_keyspace id (pairs_of own.now) ≡ Ok (k.name, k.options)) }
    ensures number { IfOk result (λ k. k.number ≡ number_in own.now) }
    ensures cause { IfErr result (λ e. RefusesStored e (stored_keyspace id (pairs_of own.now))) }
{
    let pairs = pairs_of(alloc, own)?;
    let (name, options) = stored_keyspace(alloc, id, &pairs)?;
    Ok(LivingKeyspace {
        id,
        number: number_of(own),
        name,
        options,
    })
}

/// Puts an entry behind those of its keyspace.
fn put_entry(groups: &mut Groups, id: u64, entry: &MetaEntry) -> Result<()>
    ensures ok { OnOk result ((q : ℕ) → entries_at q groups.new ≡ (if id == q then entries_at q groups.old ++ entry.now ∷ [] else entries_at q groups.old)) }
    ensures only { IfErr result (λ e. e ≡ OutOfMemory) }
{
    groups.entry(id)?.or_default().push(entry.clone()?)?;
    Ok(())
}

/// The entries of each id in their keys, in their order.
fn groups_of(alloc: Global, entries: &[MetaEntry]) -> Result<Groups>
    ensures ok { IfOk result (λ groups. (id : ℕ) → entries_at id groups ≡ own_entries id entries.now) }
    ensures only { IfErr result (λ e. e ≡ OutOfMemory) }
{
    let mut groups = BTreeMap::new(alloc);
    for entry in entries {
        if let Some(id) = key_id(&entry.key) {
            put_entry(&mut groups, id, entry)?;
        }
    }
    Ok(groups)
}

/// The entries of this id.
fn own(groups: &Groups, id: u64) -> &[MetaEntry]
    ensures { result.now ≡ entries_at id groups.now }
{
    match groups.get(&id) {
        Some(own) => own,
        None => &[],
    }
}

/// The keyspaces of these ids, as the entries store them. Refuses for the first fault.
fn keyspaces_of(alloc: Global, ids: &[u64], entries: &[MetaEntry]) -> Result<Vec<LivingKeyspace>>
    ensures ids { IfOk result (λ living. map (λ k. k.id) living.items ≡ ids.now) }
    ensures stored { IfOk result (λ living. All (IsStored entries.now) living.items) }
    ensures whole { OnOk result (first_fault ids.now (pairs_of entries.now) ≡ None) }
    ensures cause { IfErr result (IsFirstFault ids.now (pairs_of entries.now)) }
{
    let groups = groups_of(alloc, entries)?;
    let mut living = Vec::with_capacity(alloc, ids.len())?;
    for id in ids {
        let keyspace = keyspace_of(alloc, *id, own(&groups, *id))?;
        living.push(keyspace)?;
    }
    Ok(living)
}

/// Whether these entries are those.
fn are_equal(entries: &[MetaEntry], others: &[MetaEntry]) -> bool
    ensures { IsTrue result ↔ (entries.now ≡ others.now) }
{
    entries == others
}

impl MetaKeyspace {
    /// The keyspaces whose entries these are, so that `entries` gives them again; the next keyspace gets
    /// this id.
    ///
    /// A keyspace lives where some key has its id, so one with some of its 21 pairs but not all is
    /// refused. By id ascending, the name first and then the options in their order: the first pair that
    /// is missing refuses with `Storage(OptionMissing)`, the first value that isn't valid with
    /// `Storage(OptionInvalid)`. Where each keyspace is whole, `Storage(OptionInvalid)` refuses what no
    /// keyspaces store: another pair, another order or number, two keyspaces of one name, id 0, or an id
    /// that isn't below the next one. The entries that `entries` gave are read back, with the next id that
    /// the keyspaces had or a later one.
    ///
    /// Its time and memory are in proportion to the entries, but for a logarithm. It fails where memory is
    /// used up.
    pub fn from_entries(alloc: Global, entries: &[MetaEntry], next_id: u64) -> Result<MetaKeyspace>
        ensures ok { IfOk result (λ keyspaces. entries_of keyspaces.living ≡ entries.now) }
        ensures next { IfOk result (λ keyspaces. keyspaces.next ≡ next_id) }
        ensures lawful { IfOk result AreKeyspaces }
        ensures whole { ReadsBack entries.now next_id result }
        ensures cause { IfErr result (IsReadingRefusal entries.now) }
    {
        let ids = ids_of(alloc, entries)?;
        let living = keyspaces_of(alloc, &ids, entries)?;
        let Some(keyspaces) = MetaKeyspace::restored(alloc, living, next_id)? else {
            return Err(Error::Storage(StorageError::OptionInvalid));
        };
        let again = keyspaces.entries(alloc)?;
        if !are_equal(&again, entries) {
            return Err(Error::Storage(StorageError::OptionInvalid));
        }
        Ok(keyspaces)
    }
}
