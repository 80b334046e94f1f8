/// The number of buckets of a block.
pub const BUCKETS: usize = 256;
/// The number of groups of a block.
pub const GROUPS: u8 = 64;
/// The number of octets that hold the choices of a block, four in each.
pub(crate) const CHOICE_OCTETS: usize = BUCKETS / 4;
/// The number of candidates of a bucket.
pub const CANDIDATES: u8 = 4;
/// The greatest number of keys of a block.
pub const MOST_KEYS: u16 = 1536;
