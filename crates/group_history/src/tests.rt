use crate::{Change, Journal};
use flow_types::{FlowKey, Record};
use std::test::Fail;

fn change(group: u8, port: u16, node: Option<u8>) -> Change {
    Change {
        block: 3,
        group,
        key: FlowKey {
            source: 0x0A00_0001,
            destination: 0xC000_0207,
            source_port: port,
            destination_port: 443,
            protocol: 6,
        },
        to: node.map(|node| (node, Record { teid: 77, base: 9 })),
    }
}

#[test]
fn counts_each_group_apart(rt: HostRuntime) -> Result<(), Fail> {
    let mut journal = Journal::new(rt.alloc());
    'additions: for (group, port, node) in [
        (5, 1000, Some(2)),
        (6, 1001, Some(1)),
        (5, 1000, None),
    ] {
        journal.reserve()?;
        journal.push(change(group, port, node));
    }
    assert_eq!(rt; journal.len(), 3);
    assert_eq!(rt; journal.get(0), None);
    assert_eq!(rt; journal.get(2), Some(change(6, 1001, Some(1))));
    assert_eq!(rt; journal.get(3), Some(change(5, 1000, None)));
    assert_eq!(rt; journal.get(4), None);
    'counts: for (block, group, count) in [(3, 5, 2), (3, 6, 1), (3, 7, 0), (4, 5, 0)] {
        assert_eq!(rt;
            journal.count(block, group),
            count,
            "group {group} of block {block}"
        );
    }
    Ok(())
}
