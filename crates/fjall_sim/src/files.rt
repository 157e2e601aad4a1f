//! Lines of the disk: its files and its faults.

use crate::answer::{count, flag, word};
use crate::session::Session;
use fjall_disk_memory::MemoryDisk;
use fjall_recorder::{Change, LineError, Parsed, Part, byte, bytes, entries, number, size};

// How much of an append that fails goes out.
fn part(word: &str) -> Parsed<Part> {
    match word {
        "half" => Ok(Part::Half),
        "all" => Ok(Part::Bytes(usize::MAX)),
        _ => Ok(Part::Bytes(size(word)?)),
    }
}

impl Session {
    // What a line of the disk is answered that changes it or its faults.
    fn of_disk(&mut self, words: &[&str]) -> Parsed<String> {
        match words {
            ["new"] => self.replace(MemoryDisk::new(self.alloc))?,
            ["lose", keep] => self.lose(size(keep)?)?,
            ["fail", call, out] => self.disk.fail(number(call)?, part(out)?)?,
            ["faults"] => return Ok(format!(in self.alloc; "count {}", self.disk.failed()?)?),
            [_, name, ..] => self.change(name, words)?,
            _ => return Err(LineError::BadLine),
        }
        Ok(String::from_str(self.alloc, "ok")?)
    }

    // Changes a file by hand.
    fn change(&self, name: &str, words: &[&str]) -> Parsed<()> {
        let alloc = self.alloc;
        match words {
            ["folder", _] => self.disk.change(alloc, name, Change::Folder)?,
            ["remove", _] => self.disk.change(alloc, name, Change::Remove)?,
            ["cut", _, len] => self.disk.change(alloc, name, Change::Cut(size(len)?))?,
            ["damage", _, at, new] => {
                let change = Change::Byte(size(at)?, byte(new)?);
                self.disk.change(alloc, name, change)?
            }
            ["put", _, added] => {
                let added = bytes(alloc, added)?;
                self.disk.change(alloc, name, Change::Append(&added))?
            }
            ["entries", _, seqno, changes @ ..] => {
                let added = entries(alloc, number(seqno)?, changes)?;
                self.disk.change(alloc, name, Change::Append(&added))?
            }
            _ => return Err(LineError::BadLine),
        }
        Ok(())
    }

    /// What a line of the disk is answered.
    pub(crate) fn of_look(&mut self, words: &[&str]) -> Parsed<String> {
        let alloc = self.alloc;
        match words {
            ["file", name] => self.file(name, false),
            ["len", name] => self.file(name, true),
            ["list", "/"] => self.names(""),
            ["list", folder] => self.names(folder),
            ["has", "/", name] => self.has("", name),
            ["has", folder, name] => self.has(folder, name),
            ["digest"] => Ok(format!(in alloc; "digest {}", self.disk.digest(alloc)?)?),
            ["hold", name] => {
                self.held = self.disk.file(alloc, name)?;
                Ok(String::from_str(alloc, "ok")?)
            }
            ["held", name] => Ok(flag(alloc, self.disk.file(alloc, name)? == self.held)?),
            _ => self.of_disk(words),
        }
    }

    // The bytes of a file, or how many they are.
    fn file(&self, name: &str, is_len: bool) -> Parsed<String> {
        let alloc = self.alloc;
        Ok(match self.disk.file(alloc, name)? {
            Some(found) if is_len => count(alloc, found.len())?,
            Some(found) => format!(in alloc; "file {}", word(alloc, &found)?)?,
            None => String::from_str(alloc, "none")?,
        })
    }

    // The names in a folder.
    fn names(&self, folder: &str) -> Parsed<String> {
        let mut out = String::from_str(self.alloc, "list")?;
        for name in &self.disk.names(self.alloc, folder)? {
            out.push_str(" ")?;
            out.push_str(name)?;
        }
        Ok(out)
    }

    // Whether a folder lists a name.
    fn has(&self, folder: &str, name: &str) -> Parsed<String> {
        let mut is_there = false;
        for found in &self.disk.names(self.alloc, folder)? {
            let found = found.as_str();
            is_there = is_there || found.strip_suffix('/').unwrap_or(found) == name;
        }
        Ok(flag(self.alloc, is_there)?)
    }
}
