use crate::report;
use flow_types::{Flow, FlowKey, Record};
use group_history::UpdateRefused;
use packet_reader::{Event, Part};
use run_model::Reply;
use std::test::Fail;

const KEY: FlowKey = FlowKey {
    source: 0x0A00_0001,
    destination: 0xC000_0207,
    source_port: 1000,
    destination_port: 443,
    protocol: 6,
};

const INFO: Record = Record {
    teid: 4_294_967_295,
    base: 0xFFFF_FFFF,
};

const SET: Event = Event::Set(Flow {
    key: KEY,
    node: 2,
    info: INFO,
});

const DEL: Event = Event::Del(KEY);

const PACKET: Event = Event::Packet {
    ingress: 3,
    key: KEY,
};

const CARRY: Event = Event::Carry {
    node: 0,
    owner: 3,
    turn: 9,
    part: Part::Table,
};

#[test]
fn prints_updates(rt: HostRuntime) -> Result<(), Fail> {
    let script = [SET, DEL, SET, DEL, DEL, SET, SET];
    let replies = [
        Reply::Accepted {
            owner: 15,
            turn: 65535,
        },
        Reply::Accepted { owner: 0, turn: 1 },
        Reply::Refused(UpdateRefused::Spent { limit: 65535 }),
        Reply::Refused(UpdateRefused::Spent { limit: 65535 }),
        Reply::Refused(UpdateRefused::Absent),
        Reply::Refused(UpdateRefused::BlockFull { block: 255 }),
        Reply::Refused(UpdateRefused::RowsFull {
            block: 7,
            needed: 65,
            free: 64,
        }),
    ];
    let text = report(rt.alloc(), &script, &replies)?;
    let want = b"set accepted owner 15 turn 65535\n\
        del accepted owner 0 turn 1\n\
        set refused spent\n\
        del refused spent\n\
        del refused absent\n\
        set refused blockfull block 255\n\
        set refused rowsfull needed 65 free 64\n\
        done packets 0 found 0 unknown 0\n";
    assert!(rt; text.as_slice() == want.as_slice());
    Ok(())
}

#[test]
fn prints_packets(rt: HostRuntime) -> Result<(), Fail> {
    let script = [PACKET; 3];
    let replies = [
        Reply::Nowhere { seen: 65535 },
        Reply::Found {
            node: 15,
            seen: 2,
            fib: 1,
            info: INFO,
        },
        Reply::Unknown {
            node: 3,
            seen: 7,
            fib: 8,
        },
    ];
    let text = report(rt.alloc(), &script, &replies)?;
    let want = b"packet 0 in 3 seen 65535 unknown\n\
        packet 1 in 3 to 15 hops 1 seen 2 fib 1 teid 4294967295 base 255.255.255.255\n\
        packet 2 in 3 to 3 hops 0 seen 7 fib 8 unknown\n\
        done packets 3 found 1 unknown 2\n";
    assert!(rt; text.as_slice() == want.as_slice());
    Ok(())
}

#[test]
fn prints_messages_and_numbers_packets_alone(rt: HostRuntime) -> Result<(), Fail> {
    let script = [CARRY, PACKET, CARRY, Event::Sync, CARRY, CARRY, PACKET];
    let replies = [
        Reply::EarlyHave { have: 0 },
        Reply::Nowhere { seen: 0 },
        Reply::Applied,
        Reply::Synced,
        Reply::RepeatHave { have: 1 },
        Reply::Unsent,
        Reply::Nowhere { seen: 0 },
    ];
    let text = report(rt.alloc(), &script, &replies)?;
    let want = b"carry early have 0\n\
        packet 0 in 3 seen 0 unknown\n\
        carry applied\n\
        carry repeat have 1\n\
        carry refused unsent\n\
        packet 1 in 3 seen 0 unknown\n\
        done packets 2 found 0 unknown 2\n";
    assert!(rt; text.as_slice() == want.as_slice());
    Ok(())
}
