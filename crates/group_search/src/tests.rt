ghost use Rattle.std.specs.Prelude.{◌≡◌, ◌<◌, ◌≤◌, IfOk, vec_len};
ghost use Rattle.flow_types.specs.Map.{HaveDistinctKeys};
ghost use Rattle.group_search.specs.Rows.{entry_key};

use crate::{
    Entry, GroupRecord, Packed, Pair, Row, Rows, Served, TooMany, canon, canonical_gives_each_node,
    canonical_ignores_order, least, least_plain, pack, row_of, row_words, separable, served_node,
    the_limits_are, unpack, words_spell_one_row,
};
use flow_types::FlowKey;
use hash_family::{HashPair, HashedKey, mix, position};
use std::alloc::{AllocError, Global};
use std::test::Fail;

fn key(source: u32, protocol: u8) -> FlowKey
    ensures { result ≡ record { source = source; destination = 0; source_port = 0; destination_port = 0; protocol = protocol } }
{
    FlowKey {
        source,
        destination: 0,
        source_port: 0,
        destination_port: 0,
        protocol,
    }
}

/// So many entries with protocols from 1 up: of one hash pair and nodes 1 and 0 in turn, or of their own pairs and
/// nodes below 16.
fn group(
    alloc: Global,
    source: u32,
    count: u8,
    one: Option<HashPair>,
) -> Result<Vec<Entry>, AllocError>
    ensures { IfOk result (λ v. HaveDistinctKeys entry_key v.items × (vec_len v ≡ count)) }
{
    let mut entries = Vec::new(alloc);
    'keys: for made in 0..count {
        let protocol = made + 1;
        let key = key(source, protocol);
        let seed = u64::from(source) << 8;
        let entry = match one {
            Some(pair) => Entry {
                pair,
                key,
                node: protocol % 2,
            },
            None => Entry {
                pair: hash_family::pair(key),
                key,
                node: (mix(seed + u64::from(protocol)) & 15) as u8,
            },
        };
        entries.push(entry)?;
    }
    Ok(entries)
}

/// The array with which the index serves the entries, by the bits that their positions want.
fn plain_array(entries: &[Entry], index: u16, bit: u8) -> Option<u8>
    requires { bit < 8 }
{
    let mut array = 0;
    for place in 0..8u8 {
        let mut zero = false;
        let mut one = false;
        for entry in entries {
            if position(entry.pair, index) == place {
                if (entry.node >> bit) & 1 == 1 {
                    one = true;
                } else {
                    zero = true;
                }
            }
        }
        if zero && one {
            return None;
        }
        if one {
            array |= 1 << place;
        }
    }
    Some(array)
}

/// The first index of all with its array.
fn plain_least(entries: &[Entry], bit: u8) -> Option<Pair>
    requires { bit < 8 }
{
    for index in 0..=u16::MAX {
        if let Some(array) = plain_array(entries, index, bit) {
            return Some(Pair { index, array });
        }
    }
    None
}

#[test]
fn least_is_the_first_of_a_plain_scan(rt: HostRuntime) -> Result<(), Fail> {
    for (source, count) in [(1, 0), (2, 1), (3, 7), (4, 16), (5, 16), (6, 20)] {
        let entries = group(rt.alloc(), source, count, None)?;
        assert_eq!(rt;
            least(&entries, 0),
            plain_least(&entries, 0),
            "{count} keys"
        );
    }
    Ok(())
}

/// So many entries with bit 1, and then others with bit 0, with drawn pairs.
fn drawn(alloc: Global, ones: u16, zeros: u16) -> Result<Vec<Entry>, AllocError> {
    let mut entries = Vec::new(alloc);
    for made in 0..u32::from(ones) + u32::from(zeros) {
        let drawn = mix(u64::from(made));
        let pair = HashPair {
            g1: (drawn >> 32) as u32,
            g2: (drawn & 0xFFFF_FFFF) as u32,
        };
        let node = u8::from(made < u32::from(ones));
        entries.push(Entry {
            pair,
            key: key(made, 0),
            node,
        })?;
    }
    Ok(entries)
}

#[test]
fn least_is_that_of_the_plain_search(rt: HostRuntime) -> Result<(), Fail> {
    for (ones, zeros) in [
        (0, 0),
        (1, 0),
        (3, 4),
        (8, 8),
        (1, 39),
        (39, 1),
        (1, 64),
        (1, 1535),
    ] {
        let entries = drawn(rt.alloc(), ones, zeros)?;
        assert_eq!(rt;
            least(&entries, 0),
            least_plain(&entries, 0),
            "{ones} and {zeros}"
        );
        assert_eq!(rt; least(&entries, 7), least_plain(&entries, 7), "bit 7");
    }
    Ok(())
}

/// All zeros stand at position 0, and the one leaves it at the last index, or never.
#[test]
fn least_comes_to_the_last_index(rt: HostRuntime) -> Result<(), Fail> {
    let last = Pair {
        index: 65_535,
        array: 2,
    };
    for (step, found) in [(8192, Some(last)), (0, None)] {
        for zeros in [1, 6, 15, 39, 64, 1535] {
            let mut entries = drawn(rt.alloc(), 1, zeros)?;
            for entry in entries.iter_mut() {
                let step = if entry.node == 1 { step } else { 0 };
                entry.pair = HashPair { g1: step, g2: step };
            }
            assert_eq!(rt; least(&entries, 0), found, "{zeros} zeros");
            assert_eq!(rt; least_plain(&entries, 0), found, "{zeros} zeros");
        }
    }
    Ok(())
}

#[test]
fn finds_the_least_index(rt: HostRuntime) {
    let entry = |g2, node| Entry {
        pair: HashPair { g1: 0, g2 },
        key: key(0, node),
        node,
    };
    let none: [Entry; 0] = [];
    assert_eq!(rt; least(&none, 0), Some(Pair { index: 0, array: 0 }));
    let parted = [entry(1, 1), entry(0x2000_0001, 0)];
    assert_eq!(rt; least(&parted, 0), Some(Pair { index: 1, array: 1 }));
    let together = [entry(1, 1), entry(1, 0)];
    assert_eq!(rt; least(&together, 0), None);
}

#[test]
fn falls_back_to_rows(rt: HostRuntime) -> Result<(), Fail> {
    let pair = HashPair { g1: 5, g2: 7 };
    let row = |protocol| Row {
        key: key(0, protocol),
        node: protocol % 2,
    };
    let mut entries = group(rt.alloc(), 0, 2, Some(pair))?;
    entries.reverse();
    let rows = Rows::of(&[row(1), row(2)]).ok_or("rows")?;
    assert_eq!(rt; rows.as_slice().len(), 2);
    assert_eq!(rt; canon(&entries, 1), Ok(GroupRecord::Fallback(rows)));
    assert!(rt; Rows::of(&[row(2), row(1)]).is_none());

    let most = group(rt.alloc(), 0, 64, Some(pair))?;
    let record = canon(&most, 1).map_err(|_| "too many")?;
    assert_eq!(rt; record.rows(), 64);
    assert_eq!(rt; record.decode(4, key(0, 63)), Some(1));
    assert_eq!(rt; record.decode(4, key(0, 65)), None);

    let more = group(rt.alloc(), 0, 65, Some(pair))?;
    assert!(rt; !separable(&more, 1));
    assert_eq!(rt; canon(&more, 1), Err(TooMany { keys: 65 }));
    Ok(())
}

#[test]
fn gives_each_key_its_node(rt: HostRuntime) -> Result<(), Fail> {
    canonical_gives_each_node();
    canonical_ignores_order();
    the_limits_are();
    let entries = group(rt.alloc(), 7, 16, None)?;
    assert!(rt; separable(&entries, 4));
    let record = canon(&entries, 4).map_err(|_| "too many")?;
    assert_eq!(rt; record.rows(), 0);
    for entry in &entries {
        assert_eq!(rt; record.decode(16, entry.key), Some(entry.node));
        assert_eq!(rt; record.decode(u16::from(entry.node), entry.key), None);
    }
    Ok(())
}

#[test]
fn packs_as_laid_out(rt: HostRuntime) -> Result<(), Fail> {
    let pair = |index, array| Pair { index, array };
    let none = pair(0, 0);
    let served = Served {
        bits: 2,
        pairs: [pair(1, 0x05), pair(258, 0x80), none, none],
    };
    let words = [0x0000_8001_0205_0001, 0];
    assert_eq!(rt; pack(&GroupRecord::Served(served)), words);
    assert_eq!(rt; unpack(words, 2), Some(Packed::Served(served)));
    assert_eq!(rt; unpack(words, 1), None);
    assert_eq!(rt; unpack([words[0] | 1 << 63, 0], 2), None);

    let entries = group(rt.alloc(), 0, 3, Some(HashPair { g1: 0, g2: 1 }))?;
    let record = canon(&entries, 1).map_err(|_| "too many")?;
    let words = [0x0001_0000_0000_0003, 0];
    assert_eq!(rt; pack(&record), words);
    assert_eq!(rt; unpack(words, 1), Some(Packed::Fallback { rows: 3 }));
    Ok(())
}

// A row of 10.0.0.1, 192.0.2.7, 1000, 443, 6.
#[test]
fn spells_rows_as_laid_out(rt: HostRuntime) {
    words_spell_one_row();
    let key = FlowKey {
        source: 0x0A00_0001,
        destination: 0xC000_0207,
        source_port: 1000,
        destination_port: 443,
        protocol: 6,
    };
    let row = Row { key, node: 2 };
    let words = [0x0002_0703_E801_BB06, 0x0006_020A_0000_01C0];
    assert_eq!(rt; row_words(&row, 5), words);
    assert_eq!(rt; row_of(words), Some((5, row)));
    assert_eq!(rt; row_of([words[0], words[1] % (1 << 48)]), None);
    assert_eq!(rt; row_of([words[0], words[1] + (59 << 48)]), None);
    let last = row_of([words[0], words[1] + (58 << 48)]);
    assert_eq!(rt; last, Some((63, row)));
}

#[test]
fn decodes_packed_words(rt: HostRuntime) {
    let pair = |array| Pair { index: 0, array };
    let none = pair(0);
    let record = GroupRecord::Served(Served {
        bits: 2,
        pairs: [pair(0x0F), pair(0xA5), none, none],
    });
    let words = pack(&record);
    for protocol in 0..=255 {
        let key = key(3, protocol);
        assert_eq!(rt;
            served_node(words, 2, 3, &HashedKey::of(&key)),
            record.decode(3, key)
        );
    }
}
