use crate::keys::key;
use crate::searching::Search;
use crate::{building, choosing, searching};
use flow_types::Shape;
use hash_family::{pair, place};
use setsep_build::build;
use std::io;
use std::thread::Threads;

/// The places of so many keys, added up.
pub fn places(seed: u64, keys: u64) -> u64 {
    let Some(shape) = Shape::new(16, 256) else {
        return 0;
    };
    let mut sum = 0u64;
    'keys: for number in 0..keys {
        let place = place(shape, key(seed, number));
        sum = sum.wrapping_add(u64::from(place.block) * 256 + u64::from(place.bucket));
    }
    sum
}

/// The hash pairs of so many keys, added up.
pub fn pairs(seed: u64, keys: u64) -> u64 {
    let mut sum = 0u64;
    'keys: for number in 0..keys {
        let pair = pair(key(seed, number));
        sum = sum
            .wrapping_add(u64::from(pair.g1))
            .wrapping_add(u64::from(pair.g2));
    }
    sum
}

/// Prints a checksum of each work.
pub fn checksums(rt: &(impl Print + AllocGlobal + Threads + Sync)) -> io::Result<()> {
    println!(rt; "places {}", places(1, 1000))?;
    println!(rt; "pairs {}", pairs(1, 1000))?;
    println!(rt; "choices {}", choosing::choices(1, 20))?;
    'sizes: for keys in [0, 1, 7, 16, 20] {
        let groups = searching::groups(rt.alloc(), 1, 20, keys)?;
        let found = searching::search_all(Search::Lanes, groups.as_slice());
        let plain = searching::search_all(Search::Plain, groups.as_slice());
        println!(rt;
            "least of {keys} keys: tried {} sum {} plain {}",
            found.tried, found.sum, plain.sum
        )?;
    }
    looks(rt)
}

/// Prints how many of 2,000 flows their table sends to their nodes.
fn looks(rt: &(impl Print + AllocGlobal + Threads + Sync)) -> io::Result<()> {
    let Some(shape) = Shape::new(4, 4) else {
        return Ok(());
    };
    let flows = building::flows(rt.alloc(), shape, 2_000)?;
    let Ok(images) = build(rt, rt.alloc(), shape, flows.as_slice(), 1) else {
        return println!(rt; "not built");
    };
    let found = building::found(shape, images.as_slice(), flows.as_slice());
    println!(rt; "found {found} of {}", flows.len())
}
