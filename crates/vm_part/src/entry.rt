//! What a part says of one of its series.

/// What a part says of a series beside its labels.
#[derive(Clone, Copy, Debug, PartialEq, Eq)]
pub struct Entry {
    /// The place of its first block in the file, or where that would stand.
    pub start: u64,
    /// How many blocks it has.
    pub blocks: u64,
    /// How many samples its blocks have.
    pub rows: u64,
    /// The time of its first sample in ms, 0 where it has no block.
    pub first_time: u64,
    /// The time of its last sample in ms, 0 where it has no block.
    pub last_time: u64,
}
