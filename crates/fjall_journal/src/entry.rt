//! The four entries of a journal.

ghost use Rattle.std.specs.Prelude.{◌≡◌};
ghost use Rattle.fjall_journal.specs.Spelling.{tag_byte, value_type_byte};
ghost use Rattle.fjall_journal.specs.Reading.{Gives, tag_of, value_type_of};

use fjall_base::{CompressionType, Error, UserKey, UserValue};

/// "FJL" and the version, behind which an end is wholly written.
pub const MAGIC_BYTES: [u8; 4] = [b'F', b'J', b'L', 3];

/// What an item does to its key.
#[derive(Clone, Copy, Debug, PartialEq, Eq)]
pub enum ValueType {
    /// Gives it a value.
    Value = 0,
    /// Removes it.
    Tombstone = 1,
    /// Removes it, where it was written once.
    WeakTombstone = 2,
    /// Points to a value elsewhere. No journal of ours has one.
    Indirection = 4,
}

/// The byte that an entry begins with.
#[derive(Clone, Copy, PartialEq, Eq)]
pub enum Tag {
    Start = 1,
    Item = 2,
    End = 3,
    Clear = 4,
}

/// An entry of a journal. A batch is a start, its items and clears, and an end.
#[derive(Drop)]
pub enum Entry {
    /// So many items and clears follow, all of this number.
    Start {
        item_count: u32,
        seqno: u64,
    },
    /// A change of one key. The key has 1 to 65,535 bytes, the value at most 4,294,967,295.
    Item {
        keyspace_id: u64,
        key: UserKey,
        value: UserValue,
        value_type: ValueType,
        compression: CompressionType,
    },
    /// The checksum of the batch.
    End([u8; 8]),
    /// All keys of a keyspace go.
    Clear {
        keyspace_id: u64,
    },
}

impl From<Tag> for u8 {
    ghost from_gives = { λ tag b. b ≡ tag_byte tag };

    fn from(tag: Tag) -> u8 {
        tag as u8
    }
}

impl From<ValueType> for u8 {
    ghost from_gives = { λ kind b. b ≡ value_type_byte kind };

    fn from(value_type: ValueType) -> u8 {
        value_type as u8
    }
}

impl TryFrom<u8> for Tag {
    type Error = Error;

    ghost try_from_gives = { λ b r. Gives (λ tag. tag) r (tag_of b) };

    fn try_from(value: u8) -> Result<Tag, Error> {
        match value {
            1 => Ok(Tag::Start),
            2 => Ok(Tag::Item),
            3 => Ok(Tag::End),
            4 => Ok(Tag::Clear),
            _ => Err(Error::InvalidTag(("JournalMarkerTag", value))),
        }
    }
}

impl TryFrom<u8> for ValueType {
    type Error = Error;

    ghost try_from_gives = { λ b r. Gives (λ kind. kind) r (value_type_of b) };

    fn try_from(value: u8) -> Result<ValueType, Error> {
        match value {
            0 => Ok(ValueType::Value),
            1 => Ok(ValueType::Tombstone),
            2 => Ok(ValueType::WeakTombstone),
            4 => Ok(ValueType::Indirection),
            _ => Err(Error::InvalidTag(("ValueType", value))),
        }
    }
}
