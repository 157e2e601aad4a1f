//! The keyspaces that live.

ghost use Rattle.std.specs.Prelude.{◌≡◌, ◌≢◌, ◌↔◌, ◌*◌, ◌^◌, ◌-◌, ◌<◌, ◌+◌, ◌++◌, ◌==◌, true, min, position, take, drop, All, AllPairs, IsTrue};
ghost use Rattle.std.specs.Prelude.{map, length, Ok, Some, is_some, IfOk, IfErr, OnOk, OnErr, IfSome, IfNone, IsPermutation, IsSorted};
ghost use Rattle.fjall_base.specs.Pairs.{byte_order};
ghost use Rattle.fjall_base.specs.declared.error.Error.TheVariants.{OutOfMemory};
ghost use Rattle.fjall_options.specs.Options.{value_at, AreOptions};
ghost use Rattle.std.specs.Option.{option_map, option_copied};
ghost use Rattle.fjall_meta.specs.Keyspaces.{AreKeyspaces, AreRestored, TakesBack, is_name, no_keyspaces, keyspace_at, id_of, creation, IsCreationRefusal, Keyspaces, without_keyspace};
ghost use Rattle.fjall_meta.specs.Entries.{entries_of, IsAscending};

use crate::entry::{MetaEntry, put_all_names, put_all_options, value_of};
use crate::living::LivingKeyspace;
use crate::name::is_name;
use fjall_base::{Error, Result, Slice, UserValue};
use fjall_options::{KeyspaceCreateOptions, StoredOption};
use std::alloc::Global;
use std::collections::BTreeSet;
use std::marker::Model;

/// How many pairs the meta keyspace holds for each keyspace: its name and its 20 options.
const PAIRS_PER_KEYSPACE: usize = 21;

/// The keyspaces that live, by id ascending, and the id that the next one gets.
///
/// Ids begin at 1, since 0 is the meta keyspace itself, and are never used again.
#[derive(Debug, Drop)]
pub struct MetaKeyspace {
    living: Vec<LivingKeyspace>,
    next: u64,
}

impl Model for MetaKeyspace {
    ghost use Rattle.fjall_meta.specs.Keyspaces.{Keyspaces, AreKeyspaces};

    ghost Value = { Keyspaces };

    ghost view = { λ m. record { living = m.living.items; next = m.next } };

    ghost invariant = { λ m. AreKeyspaces (record { living = m.living.items; next = m.next }) };
}

/// Whether each of these ids is at least 1 and below the next one.
fn are_given(living: &[LivingKeyspace], next_id: u64) -> bool
    ensures { IsTrue result ↔ All (λ k. (0 < k.id) × (k.id < next_id)) living.now }
{
    living
        .iter()
        .all(|keyspace| 0 < keyspace.id && keyspace.id < next_id)
}

/// Whether no two of these keyspaces have one name.
fn names_differ(alloc: Global, living: &[LivingKeyspace]) -> Result<bool>
    ensures ok { IfOk result (λ differ. IsTrue differ ↔ AllPairs (λ j k. j.name ≢ k.name) living.now) }
    ensures only { IfErr result (λ e. e ≡ OutOfMemory) }
{
    let mut names = BTreeSet::new(alloc);
    for keyspace in living {
        names.insert(keyspace.name.clone()?)?;
    }
    Ok(names.len() == living.len())
}

/// The place of the keyspace of this id.
fn place_of(living: &[LivingKeyspace], id: u64) -> Option<usize>
    ensures { result ≡ position (λ k. k.id == id) living.now }
{
    living.iter().position(|keyspace| keyspace.id == id)
}

impl MetaKeyspace {
    /// No keyspace lives, and the first one gets id 1.
    pub fn new(alloc: Global) -> MetaKeyspace
        ensures { result ≡ no_keyspaces }
    {
        MetaKeyspace {
            living: Vec::new(alloc),
            next: 1,
        }
    }

    /// The keyspaces that live, by id ascending.
    pub fn living(&self) -> &[LivingKeyspace]
        ensures { result.now ≡ self.now.living }
    {
        &self.living
    }

    /// The id that the next keyspace gets.
    pub fn next_id(&self) -> u64
        ensures value { result ≡ self.now.next }
        ensures begun { 0 < result }
        ensures lawful { AreKeyspaces self.now }
    {
        self.next
    }

    /// How many keyspaces live.
    pub fn keyspace_count(&self) -> usize
        ensures { result ≡ length self.now.living }
    {
        self.living.len()
    }

    /// How many pairs the meta keyspace holds: 21 for each keyspace that lives. It stops at the greatest
    /// `usize`.
    pub fn len(&self) -> usize
        ensures { result ≡ min (length self.now.living * 21) (2 ^ 64 - 1) }
    {
        self.living.len().saturating_mul(PAIRS_PER_KEYSPACE)
    }

    /// The keyspace of this id, where it lives.
    pub fn get(&self, id: u64) -> Option<&LivingKeyspace>
        ensures { option_copied result ≡ keyspace_at id self.now.living }
    {
        match self
            .living
            .binary_search_by_key(&id, |keyspace| keyspace.id)
        {
            Ok(place) => Some(&self.living[place]),
            Err(_) => None,
        }
    }

    /// The id of the keyspace that has this name.
    pub fn resolve_id(&self, name: &[u8]) -> Option<u64>
        ensures { result ≡ id_of name.now self.now.living }
    {
        let named = self
            .living
            .iter()
            .find(|keyspace| keyspace.name.as_slice() == name)?;
        Some(named.id)
    }

    /// Whether a keyspace has this name.
    pub fn keyspace_exists(&self, name: &[u8]) -> bool
        ensures { result ≡ is_some (id_of name.now self.now.living) }
    {
        self.resolve_id(name).is_some()
    }

    /// The name of the keyspace of this id.
    pub fn name_of(&self, id: u64) -> Option<&Slice>
        ensures { option_copied result ≡ option_map (λ k. k.name) (keyspace_at id self.now.living) }
    {
        let keyspace = self.get(id)?;
        Some(&keyspace.name)
    }

    /// The options of the keyspace of this id.
    pub fn options_of(&self, id: u64) -> Option<&KeyspaceCreateOptions>
        ensures { option_copied result ≡ option_map (λ k. k.options) (keyspace_at id self.now.living) }
    {
        let keyspace = self.get(id)?;
        Some(&keyspace.options)
    }

    /// The names of the keyspaces that live, in the order of their bytes. It allocates, and fails where
    /// memory is used up.
    pub fn list_keyspace_names(&self, alloc: Global) -> Result<Vec<Slice>>
        ensures names { IfOk result (λ names. IsPermutation (map (λ k. k.name) self.now.living) names.items) }
        ensures sorted { IfOk result (λ names. IsSorted byte_order names.items) }
        ensures only { IfErr result (λ e. e ≡ OutOfMemory) }
    {
        let mut names = Vec::with_capacity(alloc, self.living.len())?;
        for keyspace in &self.living {
            names.push(keyspace.name.clone()?)?;
        }
        names.sort()?;
        Ok(names)
    }

    /// Creates a keyspace of this name with these options, by the change of this number, and answers its
    /// id, which is the next one. A name that a keyspace has answers that keyspace's id and changes
    /// nothing.
    ///
    /// Refuses with `InvalidName`, then `NumbersUsedUp` where the next id is the greatest `u64`, then
    /// `OutOfMemory`. After a refusal nothing has changed.
    pub fn create_keyspace(
        &mut self,
        name: Slice,
        options: KeyspaceCreateOptions,
        number: u64,
    ) -> Result<u64>
        ensures ok { IfOk result (λ id. creation name options number self.old ≡ Ok (id, self.new)) }
        ensures lawful { OnOk result (AreKeyspaces self.new) }
        ensures unchanged { OnErr result (self.new ≡ self.old) }
        ensures cause { IfErr result (IsCreationRefusal name options number self.old) }
    {
        if !is_name(&name) {
            return Err(Error::InvalidName);
        }
        if let Some(id) = self.resolve_id(&name) {
            return Ok(id);
        }
        let id = self.next;
        let Some(next) = id.checked_add(1) else {
            return Err(Error::NumbersUsedUp);
        };
        self.living.push(LivingKeyspace {
            id,
            number,
            name,
            options,
        })?;
        self.next = next;
        Ok(id)
    }

    /// Takes the keyspace that was made last back, where its creation was the last change: its id is free
    /// again.
    pub fn take_back(&mut self)
        ensures { TakesBack self.old self.new }
    {
        if let Some(keyspace) = self.living.pop() {
            self.next = keyspace.id;
        }
    }

    /// Removes the keyspace of this id, where it lives. Its id is not given out again.
    pub fn remove_keyspace(&mut self, id: u64)
        ensures { self.new ≡ without_keyspace id self.old }
    {
        self.living.retain(|keyspace| keyspace.id != id);
    }

    /// What is stored for an option of the keyspace of this id, where it lives. It allocates, and fails
    /// where memory is used up.
    pub fn get_kv_for_config(
        &self,
        alloc: Global,
        id: u64,
        option: StoredOption,
    ) -> Result<Option<UserValue>>
        ensures ok { IfOk result (λ value. value ≡ option_map (λ k. value_at option k.options) (keyspace_at id self.now.living)) }
        ensures only { IfErr result (λ e. e ≡ OutOfMemory) }
    {
        let Some(keyspace) = self.get(id) else {
            return Ok(None);
        };
        Ok(Some(value_of(alloc, keyspace, option)?))
    }

    /// All pairs of the meta keyspace, each under the number of its keyspace's creation, by key
    /// ascending. It allocates, and fails where memory is used up.
    pub fn entries(&self, alloc: Global) -> Result<Vec<MetaEntry>>
        ensures ok { IfOk result (λ entries. entries.items ≡ entries_of self.now.living) }
        ensures ascending { IfOk result (λ entries. IsAscending entries.items) }
        ensures lawful { OnOk result (AreKeyspaces self.now) }
        ensures only { IfErr result (λ e. e ≡ OutOfMemory) }
    {
        let mut entries = Vec::with_capacity(alloc, self.len())?;
        put_all_options(alloc, &self.living, &mut entries)?;
        put_all_names(alloc, &self.living, &mut entries)?;
        Ok(entries)
    }

    /// The keyspaces that live but for that of this id: those before its place and those behind it, by id ascending.
    /// Where it doesn't live, all of them stand before it.
    pub fn living_without(&self, id: u64) -> (&[LivingKeyspace], &[LivingKeyspace])
        ensures left { result.0.now ++ result.1.now ≡ (without_keyspace id self.now).living }
        ensures lawful { AreKeyspaces (without_keyspace id self.now) }
    {
        match self.place(id) {
            Some(place) => (&self.living[..place], &self.living[place + 1..]),
            None => (&self.living, &[]),
        }
    }

    /// The place of the keyspace of this id, where it lives.
    fn place(&self, id: u64) -> Option<usize>
        ensures within { IfSome result (λ place. place < length self.now.living) }
        ensures left { IfSome result (λ place. (without_keyspace id self.now).living ≡ take place self.now.living ++ drop (place + 1) self.now.living) }
        ensures none { IfNone result ((without_keyspace id self.now).living ≡ self.now.living) }
    {
        place_of(&self.living, id)
    }

    /// These keyspaces with this next id, where each of their ids is at least 1 and below it and no two
    /// have one name.
    pub(crate) fn restored(
        alloc: Global,
        living: Vec<LivingKeyspace>,
        next_id: u64,
    ) -> Result<Option<MetaKeyspace>>
        requires ascending { AllPairs (λ j k. j.id < k.id) living.items }
        requires names { All (λ k. is_name k.name ≡ true) living.items }
        requires options { All (λ k. AreOptions k.options) living.items }
        ensures ok { IfOk result (AreRestored living.items next_id) }
        ensures only { IfErr result (λ e. e ≡ OutOfMemory) }
    {
        if next_id == 0 || !are_given(&living, next_id) {
            return Ok(None);
        }
        if !names_differ(alloc, &living)? {
            return Ok(None);
        }
        Ok(Some(MetaKeyspace {
            living,
            next: next_id,
        }))
    }
}
