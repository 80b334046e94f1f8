/// The greatest number of turns of an owner, which are numbered from 1.
pub const MOST_TURNS: u32 = 65_535;
