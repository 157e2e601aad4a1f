//! What a policy says of the filters on a level.

/// How large a Bloom filter is made.
#[derive(Clone, Copy, Debug, PartialEq, Eq)]
pub enum BloomConstructionPolicy {
    /// So many millionths of a bit for each key.
    BitsPerKey(u32),
    /// As many bits as give so many millionths of false positives.
    FalsePositiveRate(u32),
}

/// The filter of a level.
#[derive(Clone, Copy, Debug, PartialEq, Eq)]
pub enum FilterPolicyEntry {
    /// There is none.
    None,
    /// A Bloom filter.
    Bloom(BloomConstructionPolicy),
}
