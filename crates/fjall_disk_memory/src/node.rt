//! What stands at a name of a disk in memory, and how it changes.

ghost use Rattle.fjall_base.specs.declared.disk.DirEntry.{DirEntry};
ghost use Rattle.std.specs.Prelude.{List, All, AllPairs, Any, ◌≢◌, ◌≡◌, ◌↔◌, ◌≤◌, ◌<◌, ◌+◌, ◌++◌, [], ◌∷◌, IsTrue, OnOk, OnErr, IfOk, IsOk, position, vec_len, vec_capacity, string_bytes};
ghost use Rattle.std.specs.Bool.{OnTrue, OnFalse};
ghost use Rattle.std.specs.List.{list_any};
ghost use Rattle.std.specs.Str.{bytes_eq};
ghost use Rattle.fjall_base.specs.Disk.{Image, File, Folder, Missing, IsEmpty, IsFile, IsInList, IsLong, IsThere, Lists, ReadsAt, ReadsFile, standing, disk_of, folder_of, put, alter, settle, settled, appended, all_synced, cut_to};
ghost use Rattle.fjall_disk_memory.specs.Memory.{entry_of, place_of, state_of, changed, FitsEntry, IsKind, TakesNone};
ghost use Rattle.fjall_disk_memory.specs.Wild.{filled, fills_of, followed, following};
ghost use Rattle.fjall_base.specs.Crash.{keeping, crashed};

use fjall_base::DirEntry;
use std::alloc::{AllocError, Global};
use std::mem;

/// What stands at a name.
#[derive(Drop)]
pub enum Node {
    Missing,
    /// The first `synced` bytes are synced, or all where there are fewer.
    File { bytes: Vec<u8>, synced: usize },
    Folder,
}

/// A name with what stands there now, and what stood there since its folder was synced.
#[derive(Drop)]
pub struct Named {
    pub name: String,
    pub now: Node,
    pub older: Vec<Node>,
}

/// A change of what one file holds.
#[derive(Clone, Copy)]
pub enum FileChange<'a> {
    Append(&'a [u8]),
    Sync,
    Cut(usize),
    /// Adds bytes and syncs the file.
    Fill(&'a [u8]),
}

impl Node {
    /// A file without a byte.
    pub fn file(alloc: Global) -> Node
        ensures { entry_of result ≡ File [] [] }
    {
        Node::File {
            bytes: Vec::new(alloc),
            synced: 0,
        }
    }

    /// Adds bytes to a file; false where there is none.
    pub fn append(&mut self, bytes: &[u8]) -> Result<bool, AllocError>
        ensures ok { IfOk result (λ done. OnTrue done (entry_of self.new ≡ appended bytes.now (entry_of self.old))) }
        ensures file { IfOk result (λ done. IsTrue done ↔ IsFile (entry_of self.old)) }
        ensures no { IfOk result (λ done. OnFalse done (entry_of self.new ≡ entry_of self.old)) }
        ensures err { OnErr result (entry_of self.new ≡ entry_of self.old) }
    {
        match self {
            Node::File {
                bytes: held,
                synced,
            } => {
                // the new bytes stand behind the mark
                let mark = held.len().min(*synced);
                held.extend_from_slice(bytes)?;
                *synced = mark;
                Ok(true)
            }
            _ => Ok(false),
        }
    }

    /// Syncs a file; false where there is none. It takes no memory.
    pub fn sync(&mut self) -> Result<bool, AllocError>
        ensures room { IsOk result }
        ensures ok { IfOk result (λ done. OnTrue done (entry_of self.new ≡ all_synced (entry_of self.old))) }
        ensures file { IfOk result (λ done. IsTrue done ↔ IsFile (entry_of self.old)) }
        ensures no { IfOk result (λ done. OnFalse done (entry_of self.new ≡ entry_of self.old)) }
        ensures err { OnErr result (entry_of self.new ≡ entry_of self.old) }
    {
        match self {
            Node::File { bytes, synced } => {
                *synced = bytes.len();
                Ok(true)
            }
            _ => Ok(false),
        }
    }

    /// Cuts a file to a length and syncs it; false where there is none or it is shorter. It takes no memory.
    pub fn cut(&mut self, len: usize) -> Result<bool, AllocError>
        ensures room { IsOk result }
        ensures ok { IfOk result (λ done. OnTrue done (entry_of self.new ≡ cut_to len (entry_of self.old))) }
        ensures long { IfOk result (λ done. IsTrue done ↔ IsLong len (entry_of self.old)) }
        ensures no { IfOk result (λ done. OnFalse done (entry_of self.new ≡ entry_of self.old)) }
        ensures err { OnErr result (entry_of self.new ≡ entry_of self.old) }
    {
        match self {
            Node::File { bytes, synced } => {
                if bytes.len() < len {
                    return Ok(false);
                }
                bytes.truncate(len);
                *synced = len;
                Ok(true)
            }
            _ => Ok(false),
        }
    }

    /// Adds bytes to a file and syncs it; false where there is none.
    pub fn fill(&mut self, bytes: &[u8]) -> Result<bool, AllocError>
        ensures ok { IfOk result (λ done. OnTrue done (entry_of self.new ≡ followed bytes.now (entry_of self.old))) }
        ensures file { IfOk result (λ done. IsTrue done ↔ IsFile (entry_of self.old)) }
        ensures no { IfOk result (λ done. OnFalse done (entry_of self.new ≡ entry_of self.old)) }
        ensures err { OnErr result (entry_of self.new ≡ entry_of self.old) }
    {
        match self {
            Node::File {
                bytes: held,
                synced,
            } => {
                held.extend_from_slice(bytes)?;
                *synced = held.len();
                Ok(true)
            }
            _ => Ok(false),
        }
    }

    /// Changes a file; false where there is none, or it is too short.
    pub fn alter(&mut self, change: FileChange) -> Result<bool, AllocError>
        ensures ok { IfOk result (λ done. OnTrue done (entry_of self.new ≡ changed change.entry (entry_of self.old))) }
        ensures fits { IfOk result (λ done. IsTrue done ↔ FitsEntry change.entry (entry_of self.old)) }
        ensures no { IfOk result (λ done. OnFalse done (entry_of self.new ≡ entry_of self.old)) }
        ensures err { OnErr result (entry_of self.new ≡ entry_of self.old) }
        ensures room { TakesNone change.entry → IsOk result }
    {
        match change {
            FileChange::Append(bytes) => self.append(bytes),
            FileChange::Sync => self.sync(),
            FileChange::Cut(len) => self.cut(len),
            FileChange::Fill(bytes) => self.fill(bytes),
        }
    }

    /// Keeps so many of the unsynced bytes of a file.
    pub fn crash(&mut self, keep: usize) -> Result<(), AllocError>
        ensures { OnOk result (entry_of self.new ≡ keeping keep (entry_of self.old)) }
    {
        if let Node::File { bytes, synced } = self {
            bytes.truncate(synced.saturating_add(keep));
            *synced = bytes.len();
        }
        Ok(())
    }

    /// Which kind of entry it is.
    pub fn kind(&self) -> Kind
        ensures { IsKind result (entry_of self.now) }
    {
        match self {
            Node::Missing => Kind::Missing,
            Node::File { .. } => Kind::File,
            Node::Folder => Kind::Folder,
        }
    }

    /// Whether it is a file of at least so many bytes.
    pub fn is_long(&self, len: usize) -> bool
        ensures { IsTrue result ↔ IsLong len (entry_of self.now) }
    {
        match self {
            Node::File { bytes, .. } => len <= bytes.len(),
            _ => false,
        }
    }

    /// What a read of it gives.
    pub fn read(&self, alloc: Global) -> Result<Option<Vec<u8>>, AllocError>
        ensures { IfOk result (ReadsFile (entry_of self.now)) }
    {
        match self {
            Node::File { bytes, .. } => Ok(Some(Vec::from_slice(alloc, bytes.as_slice())?)),
            _ => Ok(None),
        }
    }

    /// What a read of so many bytes of it from a place on gives. It copies these alone.
    pub fn read_part(
        &self,
        alloc: Global,
        at: usize,
        len: usize,
    ) -> Result<Option<Vec<u8>>, AllocError>
        ensures { IfOk result (ReadsAt at len (entry_of self.now)) }
    {
        let Node::File { bytes, .. } = self else {
            return Ok(None);
        };
        if bytes.len() < at || bytes.len() - at < len {
            return Ok(None);
        }
        Ok(Some(Vec::from_slice(alloc, &bytes.as_slice()[at..at + len])?))
    }
}

/// Puts one more at the end, where room was made for it.
pub fn push_reserved<T: Drop>(list: &mut Vec<T>, item: T)
    requires { vec_len list.old < vec_capacity list.old }
    ensures items { list.new.items ≡ list.old.items ++ item ∷ [] }
    ensures len { vec_len list.new ≡ vec_len list.old + 1 }
    ensures capacity { vec_capacity list.old ≤ vec_capacity list.new }
{
    let _ = list.push(item);
}

/// The place of a name in the list.
pub fn find(names: &[Named], name: &str) -> Option<usize>
    ensures { result ≡ position (λ named. bytes_eq name.now (string_bytes named.name)) names.now }
{
    names.iter().position(|named| name == named.name.as_str())
}

/// Changes the file of a name; false where there is none, or it is too short.
pub fn alter_at(names: &mut Vec<Named>, name: &str, change: FileChange) -> Result<bool, AllocError>
    ensures ok { IfOk result (λ done. OnTrue done (state_of names.new.items ≡ alter (state_of names.old.items) name.now (changed change.entry))) }
    ensures fits { IfOk result (λ done. IsTrue done ↔ FitsEntry change.entry (state_of names.old.items name.now).now) }
    ensures no { IfOk result (λ done. OnFalse done (state_of names.new.items ≡ state_of names.old.items)) }
    ensures err { OnErr result (state_of names.new.items ≡ state_of names.old.items) }
    ensures room { TakesNone change.entry → IsOk result }
{
    let Some(at) = find(names.as_slice(), name) else {
        return Ok(false);
    };
    if !names[at].now.alter(change)? {
        return Ok(false);
    }
    Ok(true)
}

/// Puts another entry at a name.
pub fn put_at(
    alloc: Global,
    names: &mut Vec<Named>,
    name: &str,
    node: Node,
) -> Result<(), AllocError>
    ensures ok { OnOk result (state_of names.new.items ≡ put (state_of names.old.items) name.now (entry_of node)) }
    ensures err { OnErr result (state_of names.new.items ≡ state_of names.old.items) }
{
    match find(names.as_slice(), name) {
        Some(at) => {
            replace_now(&mut names[at], node)?;
            Ok(())
        }
        None => {
            let mut older = Vec::new(alloc);
            older.push(Node::Missing)?;
            let text = String::from_str(alloc, name)?;
            names.push(Named {
                name: text,
                now: node,
                older,
            })?;
            Ok(())
        }
    }
}

// Puts another entry in place of the one that stands there.
fn replace_now(named: &mut Named, node: Node) -> Result<(), AllocError>
    ensures name { named.new.name ≡ named.old.name }
    ensures now { OnOk result (named.new.now ≡ node) }
    ensures older { OnOk result (named.new.older.items ≡ named.old.older.items ++ named.old.now ∷ []) }
    ensures err_now { OnErr result (named.new.now ≡ named.old.now) }
    ensures err_older { OnErr result (named.new.older.items ≡ named.old.older.items) }
{
    named.older.reserve(1)?;
    let was = mem::replace(&mut named.now, node);
    push_reserved(&mut named.older, was);
    Ok(())
}

/// The kinds of entries.
#[derive(Clone, Copy)]
pub enum Kind {
    Missing,
    File,
    Folder,
}

/// Which kind of entry stands at a name.
pub fn kind_at(names: &[Named], name: &str) -> Kind
    ensures { IsKind result (state_of names.now name.now).now }
{
    match find(names, name) {
        Some(at) => names[at].now.kind(),
        None => Kind::Missing,
    }
}

/// Whether a file of at least so many bytes has a name.
pub fn is_long_at(names: &[Named], name: &str, len: usize) -> bool
    ensures { IsTrue result ↔ IsLong len (state_of names.now name.now).now }
{
    match find(names, name) {
        Some(at) => names[at].now.is_long(len),
        None => false,
    }
}

/// What a read of a name gives.
pub fn read_at(alloc: Global, names: &[Named], name: &str) -> Result<Option<Vec<u8>>, AllocError>
    ensures { IfOk result (ReadsFile (state_of names.now name.now).now) }
{
    let Some(at) = find(names, name) else {
        return Ok(None);
    };
    let found = names[at].now.read(alloc)?;
    Ok(found)
}

/// What a read of so many bytes from a place on gives of a name.
pub fn read_part_at(
    alloc: Global,
    names: &[Named],
    name: &str,
    at: usize,
    len: usize,
) -> Result<Option<Vec<u8>>, AllocError>
    ensures { IfOk result (ReadsAt at len (state_of names.now name.now).now) }
{
    let Some(place) = find(names, name) else {
        return Ok(None);
    };
    let found = names[place].now.read_part(alloc, at, len)?;
    Ok(found)
}

/// The folder that a name is in.
pub fn folder_name(name: &str) -> &[u8]
    ensures { result.now ≡ folder_of name.now }
{
    let bytes = name.as_bytes();
    let mut end = 0;
    for (i, b) in bytes.iter().enumerate() {
        if *b == b'/' {
            end = i;
        }
    }
    &bytes[..end]
}

/// Whether a name is in a folder.
pub fn is_in(name: &str, folder: &str) -> bool
    ensures { result ≡ bytes_eq (folder_of name.now) folder.now }
{
    folder_name(name) == folder.as_bytes()
}

/// Syncs the names in a folder.
pub fn settle_names(names: &mut Vec<Named>, folder: &str)
    ensures { state_of names.new.items ≡ settle (state_of names.old.items) folder.now }
{
    for at in 0..names.len() {
        settle_named(&mut names[at], folder);
    }
}

fn settle_named(named: &mut Named, folder: &str)
    ensures name { named.new.name ≡ named.old.name }
    ensures place { place_of named.new ≡ settled folder.now (string_bytes named.old.name) (place_of named.old) }
{
    if is_in(named.name.as_str(), folder) {
        named.older.clear();
    }
}

// The place of a folder in the list.
fn find_folder(names: &[Named], folder: &[u8]) -> Option<usize>
    ensures { result ≡ position (λ named. bytes_eq folder.now (string_bytes named.name)) names.now }
{
    names
        .iter()
        .position(|named| folder == named.name.as_bytes())
}

/// Whether there is such a folder; the root always is.
pub fn is_there(names: &[Named], folder: &[u8]) -> bool
    ensures { IsTrue result ↔ IsThere (standing (state_of names.now)) folder.now }
{
    if folder.is_empty() {
        return true;
    }
    let Some(at) = find_folder(names, folder) else {
        return false;
    };
    match names[at].now.kind() {
        Kind::Folder => true,
        _ => false,
    }
}

/// Leaves of each file its synced bytes and so many of the others, all of them synced.
pub fn crash_names(names: &mut Vec<Named>, keep: usize) -> Result<(), AllocError>
    ensures { OnOk result (state_of names.new.items ≡ disk_of (crashed keep (state_of names.old.items))) }
{
    for at in 0..names.len() {
        crash_named(&mut names[at], keep)?;
    }
    Ok(())
}

fn crash_named(named: &mut Named, keep: usize) -> Result<(), AllocError>
    ensures name { named.new.name ≡ named.old.name }
    ensures place { OnOk result (place_of named.new ≡ disk_of (crashed keep (λ _. place_of named.old)) []) }
{
    named.older.clear();
    named.now.crash(keep)
}

/// Puts bytes behind those of a name's file, if it has one, all of them synced.
fn fill_name(names: &mut Vec<Named>, name: &str, bytes: &[u8]) -> Result<(), AllocError>
    ensures { (image : Image) → state_of names.old.items ≡ disk_of image
        → OnOk result (state_of names.new.items ≡ disk_of (following name.now bytes.now image)) }
{
    alter_at(names, name, FileChange::Fill(bytes))?;
    Ok(())
}

/// The same of each of these, in order.
pub fn fill_names(names: &mut Vec<Named>, fill: &[(&str, &[u8])]) -> Result<(), AllocError>
    ensures { (image : Image) → state_of names.old.items ≡ disk_of image
        → OnOk result (state_of names.new.items ≡ disk_of (filled (fills_of fill.now) image)) }
{
    for (name, bytes) in fill {
        fill_name(names, name, bytes)?;
    }
    Ok(())
}

// Whether something stands in the folder at that name.
fn stands_in(names: &[Named], named: &Named, folder: &str) -> bool
    ensures yes { OnTrue result ((folder_of (string_bytes named.entry.now.name) ≡ folder.now)
        × ((state_of names.now (string_bytes named.entry.now.name)).now ≢ Missing)) }
    ensures no { OnFalse result (folder_of (string_bytes named.entry.now.name) ≡ folder.now
        → (state_of names.now (string_bytes named.entry.now.name)).now ≡ Missing) }
{
    if !is_in(named.name.as_str(), folder) {
        return false;
    }
    match kind_at(names, named.name.as_str()) {
        Kind::Missing => false,
        _ => true,
    }
}

/// Whether something stands in the folder.
pub fn holds_any(names: &[Named], folder: &str) -> bool
    ensures some { OnTrue result (¬ IsEmpty (state_of names.now) folder.now) }
    ensures none { OnFalse result (IsEmpty (state_of names.now) folder.now) }
{
    for named in names {
        if stands_in(names, named, folder) {
            return true;
        }
    }
    false
}

/// The names in a folder.
pub fn list_names(alloc: Global, names: &[Named], folder: &str) -> Result<Vec<DirEntry>, AllocError>
    ensures { IfOk result (λ listed. Lists (state_of names.now) folder.now listed.items) }
{
    let mut listed = Vec::new(alloc);
    for named in names {
        list_name(alloc, names, named, folder, &mut listed)?;
    }
    Ok(listed)
}

// Whether a name is listed already.
fn is_listed(listed: &[DirEntry], name: &str) -> bool
    ensures { result ≡ list_any (λ entry. bytes_eq (string_bytes entry.name) name.now) listed.now }
{
    listed.iter().any(|entry| entry.name.as_str() == name)
}

// Adds an entry's name, where something stands there, it is in the folder and isn't listed yet.
fn list_name(
    alloc: Global,
    names: &[Named],
    named: &Named,
    folder: &str,
    listed: &mut Vec<DirEntry>,
) -> Result<(), AllocError>
    requires each { All (IsInList (state_of names.now) folder.now) listed.old.items }
    requires once { AllPairs (λ first later. string_bytes first.name ≢ string_bytes later.name) listed.old.items }
    ensures each { OnOk result (All (IsInList (state_of names.now) folder.now) listed.new.items) }
    ensures once { OnOk result (AllPairs (λ first later. string_bytes first.name ≢ string_bytes later.name) listed.new.items) }
    ensures more { OnOk result ((more : List DirEntry) × (listed.new.items ≡ listed.old.items ++ more)) }
    ensures it { OnOk result (folder_of (string_bytes named.entry.now.name) ≡ folder.now
        → (state_of names.now (string_bytes named.entry.now.name)).now ≢ Missing
        → Any (λ entry. string_bytes entry.name ≡ string_bytes named.entry.now.name) listed.new.items) }
{
    let name = named.name.as_str();
    if !is_in(name, folder) {
        return Ok(());
    }
    if is_listed(listed.as_slice(), name) {
        return Ok(());
    }
    let is_folder = match kind_at(names, name) {
        Kind::Missing => return Ok(()),
        Kind::File => false,
        Kind::Folder => true,
    };
    let name = String::from_str(alloc, name)?;
    listed.push(DirEntry { name, is_folder })?;
    Ok(())
}
