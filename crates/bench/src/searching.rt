use crate::keys::{draw, key};
use group_search::{Entry, Pair, least, least_plain};
use hash_family::pair;
use std::alloc::{AllocError, Global};

/// How groups are searched.
#[derive(Clone, Copy)]
pub enum Search {
    /// Many indexes at a time.
    Lanes,
    /// One index after the other.
    Plain,
}

impl Search {
    /// The least index for the lowest bit.
    fn least(self, entries: &[Entry]) -> Option<Pair> {
        match self {
            Search::Lanes => least(entries, 0),
            Search::Plain => least_plain(entries, 0),
        }
    }
}

/// What a search of groups came to.
#[derive(Clone, Copy)]
pub struct Searched {
    /// The indexes that were tried, and so the tries.
    pub tried: u64,
    /// The indexes and arrays that were found, added up.
    pub sum: u64,
}

/// So many groups of so many keys each, with nodes drawn evenly.
pub fn groups(
    alloc: Global,
    seed: u64,
    groups: u64,
    keys: u64,
) -> Result<Vec<Vec<Entry>>, AllocError> {
    let mut made = Vec::new(alloc);
    'groups: for group in 0..groups {
        made.push(entries(alloc, draw(seed, group), keys)?)?;
    }
    Ok(made)
}

/// Searches the lowest bit of each group.
pub fn search_all(search: Search, groups: &[Vec<Entry>]) -> Searched {
    let mut all = Searched { tried: 0, sum: 0 };
    'groups: for entries in groups {
        let (tried, sum) = match search.least(entries.as_slice()) {
            Some(found) => (
                u64::from(found.index) + 1,
                u64::from(found.index) * 256 + u64::from(found.array),
            ),
            None => (65536, 0),
        };
        all.tried = all.tried.wrapping_add(tried);
        all.sum = all.sum.wrapping_add(sum);
    }
    all
}

fn entries(alloc: Global, seed: u64, keys: u64) -> Result<Vec<Entry>, AllocError> {
    let mut entries = Vec::new(alloc);
    'keys: for number in 0..keys {
        let key = key(seed, number);
        entries.push(Entry {
            pair: pair(key),
            key,
            node: (draw(seed, number) >> 60) as u8,
        })?;
    }
    Ok(entries)
}
