//! What a policy says of one level, as bytes and back.

ghost use Rattle.std.specs.Prelude.{◌≡◌, ◌++◌, ℕ, List, Ok, OnOk, IsOkUnless};
ghost use Rattle.fjall_options.specs.Reading.{Gives, ValueReader, byte_at, number_at};
ghost use Rattle.fjall_options.specs.Policies.{number_bytes, interval_bytes, flag_bytes, flag_at, compression_bytes, compression_at, filter_bytes, bloom_at, filter_at};

use crate::options::filter::{BloomConstructionPolicy, FilterPolicyEntry};
use byteorder::{ByteOrder, LittleEndian};
use fjall_base::{CompressionType, Error, Result, u8_of, u32_of};
use std::io::ErrorKind;

// Bytes that end within a field.
const SHORT: Error = Error::Io(ErrorKind::UnexpectedEof);

/// What a policy says of one level.
pub trait PolicyEntry: Copy {
    /// The entry's bytes.
    ghost spelled: { Self → List ℕ };

    /// How an entry is read.
    ghost entry_at: { ValueReader Self };

    /// Adds the entry's bytes, from which the entry is read again, whatever stands behind them.
    fn encode_into(self, out: &mut Vec<u8>) -> Result<()>
        ensures ok { OnOk result (out.new.items ≡ out.old.items ++ spelled self) }
        ensures back { (rest : List ℕ) → entry_at (spelled self ++ rest) ≡ Ok (self, rest) }
        ensures only { IsOkUnless result Error.OutOfMemory };

    /// The entry at the front of the bytes, and the bytes behind it.
    fn decode_from(bytes: &[u8]) -> Result<(Self, &[u8])>
    where
        Self: Sized,
        ensures { Gives (λ x. (x.0, x.1.now)) result (entry_at bytes.now) };
}

/// A size in bytes, or a ratio in millionths.
impl PolicyEntry for u32 {
    ghost spelled = { number_bytes };

    ghost entry_at = { number_at };

    fn encode_into(self, out: &mut Vec<u8>) -> Result<()> {
        let mut bytes = [0u8; 4];
        LittleEndian::write_u32(&mut bytes, self);
        out.extend_from_slice(&bytes)?;
        Ok(())
    }

    fn decode_from(bytes: &[u8]) -> Result<(u32, &[u8])> {
        u32_of(bytes).ok_or(SHORT)
    }
}

/// An interval in entries.
impl PolicyEntry for u8 {
    ghost spelled = { interval_bytes };

    ghost entry_at = { byte_at };

    fn encode_into(self, out: &mut Vec<u8>) -> Result<()> {
        out.push(self)?;
        Ok(())
    }

    fn decode_from(bytes: &[u8]) -> Result<(u8, &[u8])> {
        u8_of(bytes).ok_or(SHORT)
    }
}

/// Whether it is so.
impl PolicyEntry for bool {
    ghost spelled = { flag_bytes };

    ghost entry_at = { flag_at };

    fn encode_into(self, out: &mut Vec<u8>) -> Result<()> {
        out.push(u8::from(self))?;
        Ok(())
    }

    fn decode_from(bytes: &[u8]) -> Result<(bool, &[u8])> {
        let Some((flag, rest)) = u8_of(bytes) else {
            return Err(SHORT);
        };
        Ok((flag == 1, rest))
    }
}

/// How blocks are compressed.
impl PolicyEntry for CompressionType {
    ghost spelled = { compression_bytes };

    ghost entry_at = { compression_at };

    fn encode_into(self, out: &mut Vec<u8>) -> Result<()> {
        out.push(self as u8)?;
        Ok(())
    }

    fn decode_from(bytes: &[u8]) -> Result<(CompressionType, &[u8])> {
        let Some((kind, rest)) = u8_of(bytes) else {
            return Err(SHORT);
        };
        match kind {
            0 => Ok((CompressionType::None, rest)),
            _ => Err(Error::InvalidTag(("CompressionType", kind))),
        }
    }
}

/// A Bloom filter or none.
impl PolicyEntry for FilterPolicyEntry {
    ghost spelled = { filter_bytes };

    ghost entry_at = { filter_at };

    fn encode_into(self, out: &mut Vec<u8>) -> Result<()> {
        let (kind, millionths) = match self {
            FilterPolicyEntry::None => {
                out.push(0)?;
                return Ok(());
            }
            FilterPolicyEntry::Bloom(BloomConstructionPolicy::BitsPerKey(bits)) => (0, bits),
            FilterPolicyEntry::Bloom(BloomConstructionPolicy::FalsePositiveRate(rate)) => (1, rate),
        };
        let mut bytes = [1, kind, 0, 0, 0, 0];
        LittleEndian::write_u32(&mut bytes[2..], millionths);
        out.extend_from_slice(&bytes)?;
        Ok(())
    }

    fn decode_from(bytes: &[u8]) -> Result<(FilterPolicyEntry, &[u8])> {
        let Some((tag, rest)) = u8_of(bytes) else {
            return Err(SHORT);
        };
        match tag {
            0 => Ok((FilterPolicyEntry::None, rest)),
            1 => {
                let (bloom, rest) = bloom_of(rest)?;
                Ok((FilterPolicyEntry::Bloom(bloom), rest))
            }
            _ => Err(Error::InvalidTag(("FilterPolicy", tag))),
        }
    }
}

fn bloom_of(bytes: &[u8]) -> Result<(BloomConstructionPolicy, &[u8])>
    ensures { Gives (λ x. (x.0, x.1.now)) result (bloom_at bytes.now) }
{
    let Some((kind, rest)) = u8_of(bytes) else {
        return Err(SHORT);
    };
    match kind {
        0 => {
            let (bits, rest) = u32::decode_from(rest)?;
            Ok((BloomConstructionPolicy::BitsPerKey(bits), rest))
        }
        1 => {
            let (rate, rest) = u32::decode_from(rest)?;
            Ok((BloomConstructionPolicy::FalsePositiveRate(rate), rest))
        }
        _ => Err(Error::InvalidTag(("BloomPolicy", kind))),
    }
}
