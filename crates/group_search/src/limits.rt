use block_layout::MOST_KEYS;

/// The number of indexes of the hash family: each is below it.
pub const INDEXES: u32 = 65_536;
/// The number of positions of an array: each is below it.
pub const POSITIONS: u8 = 8;
/// The greatest number of entries of a group: as many as a block has keys.
pub const MOST_ENTRIES: usize = MOST_KEYS as usize;
/// The greatest number of value bits: the pairs for which a record has room.
pub const MOST_BITS: usize = 4;
/// The least number of rows of a fallback record: one entry is always served.
pub const FEWEST_ROWS: usize = 2;
/// The greatest number of rows of a fallback record.
pub const MOST_ROWS: usize = 64;
