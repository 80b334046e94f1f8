//! The mathematics of a group: which members of the hash family serve its keys, its canonical record, and its words.
//!
//! A contract sees a `Served` as the list of its pairs and `Rows` as the list of its rows. `specs/Serving.antt` says
//! what serves, `specs/Canon.antt` which record a group has, `specs/Decoding.antt` what a record says of a key, and
//! `specs/Words.antt` how a record is packed. `specs/Home.antt` says which flows a group has, and `specs/Build.antt` what
//! table the flows of a cluster give. No call takes memory, but a clone of an image. `least` tries sixteen indexes at a
//! time, in vectors; `specs/Lanes.antt` has the words of its inner contracts, and `least_plain` is the same law without
//! vectors.
//! Proved: each call's exact answer; that a canonical record gives each of its keys its node, whatever the order of
//! the entries. Only tested: that memory suffices for a clone of an image.
#![tactic(auto)]

mod choosing;
mod entry;
mod image;
mod laws;
mod limits;
mod line;
mod packed;
mod plain;
mod published;
mod record;
mod routing;
mod row_spelling;
mod rows;
mod search;
mod served;
#[cfg(test)]
mod tests;
mod turn;
mod words;

pub use choosing::{TooMany, canon, separable};
pub use entry::{Entry, Pair};
pub use image::BlockImage;
pub use laws::{canonical_gives_each_node, canonical_ignores_order, the_limits_are};
pub use limits::{FEWEST_ROWS, INDEXES, MOST_BITS, MOST_ENTRIES, MOST_ROWS, POSITIONS};
pub use packed::served_node;
pub use plain::least_plain;
pub use published::Publication;
pub use record::GroupRecord;
pub use routing::{homes_route_each_flow, past_limit_names_the_first, records_give_each_handler};
pub use row_spelling::{row_of, row_words, words_spell_one_row};
pub use rows::{Row, Rows};
pub use search::least;
pub use served::Served;
pub use words::{Packed, pack, unpack};
