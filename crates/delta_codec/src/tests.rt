use super::*;
use flow_types::{FlowKey, Record, Shape};
use group_search::{GroupRecord, Pair, Row, Rows, Served};
use std::test::Fail;

const KEY: FlowKey = FlowKey {
    source: 0x0A00_0001,
    destination: 0xC000_0207,
    source_port: 1000,
    destination_port: 443,
    protocol: 6,
};

/// At shape (4, 1): owner 0, turn 1, block 0, group 5, two pairs.
const SERVED: [u8; 14] = [0x11, 0, 0, 1, 0, 0, 5, 0, 0, 0, 0, 0, 0, 0x10];

/// At shape (4, 1): owner 0, turn 1, block 0, group 5, two rows with protocols 6 and 7 at nodes 0 and 3.
const ROWS: [u8; 37] = [
    0x11, 0, 0, 1, 0, 0, 5, 1, 2, 0x0A, 0, 0, 1, 0xC0, 0, 2, 7, 0x03, 0xE8, 0x01, 0xBB, 6, 0, 0x0A,
    0, 0, 1, 0xC0, 0, 2, 7, 0x03, 0xE8, 0x01, 0xBB, 7, 3,
];

/// At shape (4, 6): owner 1, turn 513, block 5, group 63, a key with its record.
const PUT: [u8; 29] = [
    0x12, 0x01, 0x02, 0x01, 0x00, 0x05, 0x3F, 0x01, 0x0A, 0x00, 0x00, 0x01, 0xC0, 0x00, 0x02, 0x07,
    0x03, 0xE8, 0x01, 0xBB, 0x06, 0x12, 0x34, 0x56, 0x78, 0xC0, 0xA8, 0x00, 0x09,
];

#[test]
fn a_served_record(rt: HostRuntime) -> Result<(), Fail> {
    let shape = Shape::new(4, 1).ok_or("a shape")?;
    let pair = |array| Pair { index: 0, array };
    let pairs = [pair(0), pair(0x10), pair(0), pair(0)];
    let message = Message::Table(TableMessage {
        owner: 0,
        turn: 1,
        block: 0,
        group: 5,
        content: GroupRecord::Served(Served { bits: 2, pairs }),
    });
    assert!(rt; fits(shape, &message));
    assert_eq!(rt; encode(shape, &message).as_slice(), SERVED.as_slice());
    let octets = encode_short(shape, &message).ok_or("no rows")?;
    assert_eq!(rt; octets.as_slice(), SERVED.as_slice());
    assert_eq!(rt; decode(shape, &SERVED), Ok((message, 14)));
    let short = ShortMessage::Table(ServedMessage {
        owner: 0,
        turn: 1,
        block: 0,
        group: 5,
        served: Served { bits: 2, pairs },
    });
    assert_eq!(rt; decode_short(shape, &SERVED), Ok(Some((short, 14))));
    for len in 0..SERVED.len() {
        let refused = decode(shape, &SERVED[..len]);
        assert_eq!(rt; refused, Err(DecodeRefused::Short), "{len} octets");
    }
    Ok(())
}

#[test]
fn a_record_of_rows(rt: HostRuntime) -> Result<(), Fail> {
    let shape = Shape::new(4, 1).ok_or("a shape")?;
    let first = Row { key: KEY, node: 0 };
    let second = Row {
        key: FlowKey { protocol: 7, ..KEY },
        node: 3,
    };
    let message = Message::Table(TableMessage {
        owner: 0,
        turn: 1,
        block: 0,
        group: 5,
        content: GroupRecord::Fallback(Rows::of(&[first, second]).ok_or("rows")?),
    });
    assert!(rt; fits(shape, &message));
    assert_eq!(rt; encode(shape, &message).as_slice(), ROWS.as_slice());
    assert!(rt; encode_short(shape, &message).is_none());
    assert_eq!(rt; decode_short(shape, &ROWS), Ok(None));
    assert_eq!(rt; decode(shape, &ROWS), Ok((message, 37)));

    let mut one_key = ROWS;
    one_key[35] = 6;
    one_key[36] = 0;
    let why = BadField::Order;
    assert_eq!(rt;
        decode(shape, &one_key),
        Err(DecodeRefused::Bad { at: 23, why })
    );
    let why = BadField::Node;
    one_key[22] = 4;
    assert_eq!(rt;
        decode(shape, &one_key),
        Err(DecodeRefused::Bad { at: 22, why })
    );
    Ok(())
}

#[test]
fn a_key_with_its_record(rt: HostRuntime) -> Result<(), Fail> {
    let shape = Shape::new(4, 6).ok_or("a shape")?;
    let info = Record {
        teid: 305_419_896,
        base: 0xC0A8_0009,
    };
    let fib = FibMessage {
        owner: 1,
        turn: 513,
        block: 5,
        group: 63,
        op: FibOp::Put(KEY, info),
    };
    let message = Message::Fib(fib);
    assert!(rt; fits(shape, &message));
    assert_eq!(rt; encode(shape, &message).as_slice(), PUT.as_slice());
    let octets = encode_short(shape, &message).ok_or("no rows")?;
    assert_eq!(rt; octets.as_slice(), PUT.as_slice());
    let short = ShortMessage::Fib(fib);
    assert_eq!(rt; decode_short(shape, &PUT), Ok(Some((short, 29))));
    assert_eq!(rt; decode(shape, &PUT), Ok((message, 29)));
    assert_eq!(rt; decode(shape, &PUT[..20]), Err(DecodeRefused::Short));

    let mut other_owner = PUT;
    other_owner[1] = 2;
    let why = BadField::Block;
    assert_eq!(rt;
        decode(shape, &other_owner),
        Err(DecodeRefused::Bad { at: 4, why })
    );
    Ok(())
}

#[test]
fn other_changes(rt: HostRuntime) -> Result<(), Fail> {
    let shape = Shape::new(2, 2).ok_or("a shape")?;
    for (op, body, used) in [(FibOp::Nothing, 0, 8), (FibOp::Drop(KEY), 2, 21)] {
        let message = Message::Fib(FibMessage {
            owner: 1,
            turn: 65_535,
            block: 1,
            group: 0,
            op,
        });
        assert!(rt; fits(shape, &message));
        let octets = encode(shape, &message);
        let head = [0x12, 1, 0xFF, 0xFF, 0, 1, 0, body];
        assert!(rt; octets.as_slice().starts_with(&head), "body {body}");
        assert_eq!(rt; decode(shape, octets.as_slice()), Ok((message, used)));
    }
    let late = Message::Fib(FibMessage {
        owner: 1,
        turn: 65_536,
        block: 1,
        group: 0,
        op: FibOp::Nothing,
    });
    assert!(rt; !fits(shape, &late));
    Ok(())
}

/// The served record's octets with a change, and where they are bad.
#[test]
fn bad_fields(rt: HostRuntime) -> Result<(), Fail> {
    let shape = Shape::new(4, 1).ok_or("a shape")?;
    for (octets, at, why) in [
        (
            [0x13, 0, 0, 1, 0, 0, 5, 0, 0, 0, 0, 0, 0, 16],
            0,
            BadField::Kind,
        ),
        (
            [0x11, 4, 0, 1, 0, 0, 5, 0, 0, 0, 0, 0, 0, 16],
            1,
            BadField::Owner,
        ),
        (
            [0x11, 0, 0, 0, 0, 0, 5, 0, 0, 0, 0, 0, 0, 16],
            2,
            BadField::Turn,
        ),
        (
            [0x11, 0, 0, 1, 0, 1, 5, 0, 0, 0, 0, 0, 0, 16],
            4,
            BadField::Block,
        ),
        (
            [0x11, 0, 0, 1, 0, 0, 64, 0, 0, 0, 0, 0, 0, 16],
            6,
            BadField::Group,
        ),
        (
            [0x11, 0, 0, 1, 0, 0, 5, 2, 0, 0, 0, 0, 0, 16],
            7,
            BadField::Body,
        ),
        (
            [0x11, 0, 0, 1, 0, 0, 5, 1, 0, 0, 0, 0, 0, 16],
            8,
            BadField::Count,
        ),
        (
            [0x11, 0, 0, 1, 0, 0, 5, 1, 65, 0, 0, 0, 0, 16],
            8,
            BadField::Count,
        ),
    ] {
        assert_eq!(rt; decode(shape, &octets), Err(DecodeRefused::Bad { at, why }));
    }
    Ok(())
}

#[test]
fn laws_can_be_called(rt: HostRuntime) -> Result<(), Fail> {
    let shape = Shape::new(4, 1).ok_or("a shape")?;
    laws::messages_have_one_spelling(shape);
    laws::spellings_have_one_message(shape);
    laws::no_spelling_begins_another(shape);
    laws::build_reaches_handlers();
    laws::routes_stay_in_the_cluster();
    assert_eq!(rt; decode(shape, &[]), Err(DecodeRefused::Short));
    Ok(())
}
