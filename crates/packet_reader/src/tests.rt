use crate::{
    Event, Mode, Part, first_bad_row_law, first_bad_wire_row_law, read_script, read_script_from,
    read_wire, scripts_are_formed,
};
use csv_rows::RowReader;
use flow_reader::{MOST_OCTETS, RowRefused, read_opening, read_opening_from};
use flow_types::{BadRow, Flow, FlowKey, Record, Why};
use std::alloc::Global;
use std::test::Fail;

const KEY: FlowKey = FlowKey {
    source: 0x0a00_0001,
    destination: 0xc000_0207,
    source_port: 1000,
    destination_port: 443,
    protocol: 6,
};

// What the rows after `begin` of a whole text read as.
fn read(alloc: Global, text: &[u8], mode: Mode) -> Result<Result<Vec<Event>, BadRow>, Fail> {
    if text.len() > MOST_OCTETS {
        return Err(Fail::from("too long"));
    }
    let opening = match read_opening(alloc, text) {
        Ok(opening) => opening,
        Err(_) => return Err(Fail::from("no opening")),
    };
    match read_script(alloc, text, opening.begin_row, opening.shape, mode) {
        Ok(events) => Ok(Ok(events)),
        Err(RowRefused::Bad(bad)) => Ok(Err(bad)),
        Err(RowRefused::OutOfMemory) => Err(Fail::from("out of memory")),
    }
}

// What these rows read as after a `cluster` row of four nodes and `begin`.
fn read_after_begin(
    alloc: Global,
    rows: &[u8],
    mode: Mode,
) -> Result<Result<Vec<Event>, BadRow>, Fail> {
    let mut text = Vec::new(alloc);
    text.extend_from_slice(b"cluster,4,1\nbegin\n")?;
    text.extend_from_slice(rows)?;
    read(alloc, text.as_slice(), mode)
}

#[test]
fn refuses_the_first_bad_row(rt: HostRuntime) -> Result<(), Fail> {
    let cases: [(&[u8], u32, Why); 58] = [
        // The rows end before `end`.
        (b"", 3, Why::NoEnd),
        (b"sync\n\n", 4, Why::NoEnd),
        (b"packet,0,10.0.0.1,192.0.2.7,1000,443,6", 4, Why::NoEnd),
        // A row after `end`, whatever else is wrong with it.
        (b"end\nsync\n", 4, Why::AfterEnd),
        (b"end\nend\n", 4, Why::AfterEnd),
        (b"sync\nend\nwhat\n", 5, Why::AfterEnd),
        (b"end\ncarry,4\n", 4, Why::AfterEnd),
        // The kind, whatever else is wrong with the row.
        (b"\"\"\nend\n", 3, Why::Kind),
        (b"Sync\nend\n", 3, Why::Kind),
        (b"sync \nend\n", 3, Why::Kind),
        (b"packets,9\nend\n", 3, Why::Kind),
        (b"begin\nend\n", 3, Why::Kind),
        (b"cluster,4,1\nend\n", 3, Why::Kind),
        (
            b"flow,10.0.0.1,192.0.2.7,1000,443,6,2,77,192.168.0.9\nend\n",
            3,
            Why::Kind,
        ),
        // The number of fields, whatever is wrong with them.
        (
            b"set,10.0.0.1,192.0.2.7,1000,443,6,4,77\nend\n",
            3,
            Why::Fields,
        ),
        (
            b"set,x,192.0.2.7,1000,443,6,2,77,192.168.0.9,\nend\n",
            3,
            Why::Fields,
        ),
        (b"del,10.0.0.1,192.0.2.7,1000,443\nend\n", 3, Why::Fields),
        (
            b"del,10.0.0.1,192.0.2.7,1000,443,6,2,77,192.168.0.9\nend\n",
            3,
            Why::Fields,
        ),
        (
            b"packet,10.0.0.1,192.0.2.7,1000,443,6\nend\n",
            3,
            Why::Fields,
        ),
        (
            b"packet,9,10.0.0.1,192.0.2.7,1000,443,6,\nend\n",
            3,
            Why::Fields,
        ),
        (b"carry,4,0,1\nend\n", 3, Why::Fields),
        (b"carry,0,0,1,tables,\nend\n", 3, Why::Fields),
        (b"sync,\nend\n", 3, Why::Fields),
        (b"end,\n", 3, Why::Fields),
        // The fields of `set`, the first bad one from the left.
        (
            b"set,10.0.0.256,192.0.2.7,65536,443,6,2,77,192.168.0.9\nend\n",
            3,
            Why::Address,
        ),
        (
            b"set,10.0.0.1,192.0.2.07,65536,443,6,4,77,192.168.0.9\nend\n",
            3,
            Why::Address,
        ),
        (
            b"set,10.0.0.1,192.0.2.7,65536,443,6,4,77,x\nend\n",
            3,
            Why::Number,
        ),
        (
            b"set,10.0.0.1,192.0.2.7,1000,443,6,256,77,x\nend\n",
            3,
            Why::Number,
        ),
        (
            b"set,10.0.0.1,192.0.2.7,1000,443,6,4,x,x\nend\n",
            3,
            Why::Node,
        ),
        (
            b"set,10.0.0.1,192.0.2.7,1000,443,6,3,4294967296,x\nend\n",
            3,
            Why::Number,
        ),
        (
            b"set,10.0.0.1,192.0.2.7,1000,443,6,3,77,192.168.0\nend\n",
            3,
            Why::Address,
        ),
        // Of `del`.
        (b"del,10.0.0,192.0.2.7,-1,443,6\nend\n", 3, Why::Address),
        (
            b"del,10.0.0.1,192.0.2.7,1000,443,256\nend\n",
            3,
            Why::Number,
        ),
        // Of `packet`.
        (b"packet,4,x,192.0.2.7,1000,443,6\nend\n", 3, Why::Node),
        (
            b"packet,255,10.0.0.1,192.0.2.7,1000,443,6\nend\n",
            3,
            Why::Node,
        ),
        (b"packet,256,x,192.0.2.7,1000,443,6\nend\n", 3, Why::Number),
        (b"packet,one,x,192.0.2.7,1000,443,6\nend\n", 3, Why::Number),
        (b"packet,3,10.0.0.1,x,1000,443,256\nend\n", 3, Why::Address),
        (
            b"packet,3,10.0.0.1,192.0.2.7,1000,65536,x\nend\n",
            3,
            Why::Number,
        ),
        // Of `carry`.
        (b"carry,4,x,0,x\nend\n", 3, Why::Node),
        (b"carry,256,4,0,x\nend\n", 3, Why::Number),
        (b"carry,0,4,0,x\nend\n", 3, Why::Node),
        (b"carry,0,01,0,x\nend\n", 3, Why::Number),
        (b"carry,0,0,0,x\nend\n", 3, Why::Number),
        (b"carry,0,0,65536,x\nend\n", 3, Why::Number),
        (b"carry,0,0,,table\nend\n", 3, Why::Number),
        (b"carry,0,0,4294967297,table\nend\n", 3, Why::Number),
        (b"carry,0,0,1,\nend\n", 3, Why::Kind),
        (b"carry,0,0,1,Table\nend\n", 3, Why::Kind),
        (b"carry,0,0,1,tables\nend\n", 3, Why::Kind),
        (b"carry,0,0,1,fi\nend\n", 3, Why::Kind),
        (b"carry,0,0,1,0\nend\n", 3, Why::Kind),
        // Two bad rows, a bad row before a missing `end`, and blank lines and quoted line ends before one.
        (b"sync\npacket,4\ncarry,4\nend\n", 4, Why::Fields),
        (b"packet,4,10.0.0.1,192.0.2.7,1000,443,6\n", 3, Why::Node),
        (b"del\nend\nend\n", 3, Why::Fields),
        (b"\n\r\n\nsync\n\nend\n\nend", 5, Why::AfterEnd),
        (
            b"\"del\",\"10.0.0.1\n\",192.0.2.7,1000,443,6\nend\n",
            3,
            Why::Address,
        ),
        (b"sync\n\"never closed,\nend\n", 4, Why::Kind),
    ];
    for (rows, row, why) in cases {
        match read_after_begin(rt.alloc(), rows, Mode::Replay)? {
            Ok(events) => assert!(rt; false, "{rows:?} reads as {events:?}"),
            Err(bad) => assert_eq!(rt; bad, BadRow { row, why }, "{rows:?}"),
        }
    }
    Ok(())
}

// A storm's script: what is refused there alone, and in which order.
#[test]
fn refuses_in_storms_mode(rt: HostRuntime) -> Result<(), Fail> {
    let cases: [(&[u8], u32, Why); 8] = [
        (b"carry,0,0,1,table\nend\n", 3, Why::CarryInStorm),
        (b"sync\ncarry,0,0,1,fib\nend\n", 4, Why::CarryInStorm),
        // Whatever else is wrong with the row.
        (b"carry\nend\n", 3, Why::CarryInStorm),
        (b"carry,4,x,0,y\nend\n", 3, Why::CarryInStorm),
        // But for these.
        (b"Carry,0,0,1,table\nend\n", 3, Why::Kind),
        (b"end\ncarry,0,0,1,table\n", 4, Why::AfterEnd),
        // As in the other mode.
        (
            b"packet,4,10.0.0.1,192.0.2.7,1000,443,6\ncarry\nend\n",
            3,
            Why::Node,
        ),
        (b"sync\n", 4, Why::NoEnd),
    ];
    for (rows, row, why) in cases {
        match read_after_begin(rt.alloc(), rows, Mode::Storm)? {
            Ok(events) => assert!(rt; false, "{rows:?} reads as {events:?}"),
            Err(bad) => assert_eq!(rt; bad, BadRow { row, why }, "{rows:?}"),
        }
    }
    Ok(())
}

// The number of events that `syncs` rows `sync` and then these rows say, or the bad row.
fn read_after_syncs(
    alloc: Global,
    syncs: usize,
    rows: &[u8],
    mode: Mode,
) -> Result<Result<usize, BadRow>, Fail> {
    let mut text = Vec::new(alloc);
    'syncs: for _ in 0..syncs {
        text.extend_from_slice(b"sync\n")?;
    }
    text.extend_from_slice(rows)?;
    match read_after_begin(alloc, text.as_slice(), mode)? {
        Ok(events) => Ok(Ok(events.len())),
        Err(bad) => Ok(Err(bad)),
    }
}

#[test]
fn counts_a_storms_phases(rt: HostRuntime) -> Result<(), Fail> {
    let cases: [(usize, &[u8], Mode, Result<usize, BadRow>); 8] = [
        (255, b"end\n", Mode::Storm, Ok(255)),
        (
            256,
            b"end\n",
            Mode::Storm,
            Err(BadRow {
                row: 258,
                why: Why::TooManyPhases,
            }),
        ),
        (
            255,
            b"sync,\nend\n",
            Mode::Storm,
            Err(BadRow {
                row: 258,
                why: Why::Fields,
            }),
        ),
        (
            255,
            b"del,10.0.0.1,192.0.2.7,1000,443,6\nend\n",
            Mode::Storm,
            Ok(256),
        ),
        (
            254,
            b"packet,0,10.0.0.1,192.0.2.7,1000,443,6\nsync\nsync\n",
            Mode::Storm,
            Err(BadRow {
                row: 259,
                why: Why::TooManyPhases,
            }),
        ),
        (66_000, b"end\n", Mode::Replay, Ok(66_000)),
        (
            66_000,
            b"del\nend\n",
            Mode::Replay,
            Err(BadRow {
                row: 66_003,
                why: Why::Fields,
            }),
        ),
        (300, b"end\n", Mode::Replay, Ok(300)),
    ];
    for (syncs, rows, mode, wanted) in cases {
        let found = read_after_syncs(rt.alloc(), syncs, rows, mode)?;
        assert_eq!(rt; found, wanted, "{syncs} syncs, then {rows:?}");
    }
    Ok(())
}

#[test]
fn reads_each_kind_of_row(rt: HostRuntime) -> Result<(), Fail> {
    first_bad_row_law();
    scripts_are_formed();
    let rows =
        b"set,10.0.0.1,192.0.2.7,1000,443,6,2,77,192.168.0.9\ndel,10.0.0.1,192.0.2.7,1000,443,6\npacket,3,10.0.0.1,192.0.2.7,1000,443,6\ncarry,0,3,1,table\ncarry,3,0,65535,fib\nsync\nend\n";
    let wanted = [
        Event::Set(Flow {
            key: KEY,
            node: 2,
            info: Record {
                teid: 77,
                base: 0xc0a8_0009,
            },
        }),
        Event::Del(KEY),
        Event::Packet {
            ingress: 3,
            key: KEY,
        },
        Event::Carry {
            node: 0,
            owner: 3,
            turn: 1,
            part: Part::Table,
        },
        Event::Carry {
            node: 3,
            owner: 0,
            turn: 65535,
            part: Part::Fib,
        },
        Event::Sync,
    ];
    match read_after_begin(rt.alloc(), rows, Mode::Replay)? {
        Ok(events) => assert!(rt; events.as_slice() == wanted.as_slice(), "{events:?}"),
        Err(bad) => assert!(rt; false, "refused: {bad:?}"),
    }
    Ok(())
}

// Whole inputs, with what they read as in both modes: a number of events, or a bad row.
#[test]
fn reads_whole_inputs(rt: HostRuntime) -> Result<(), Fail> {
    let updates_and_carries =
        b"cluster,4,1\nbegin\nset,10.0.0.1,192.0.2.7,1000,443,6,1,1,192.168.0.9\nset,10.0.0.1,192.0.2.7,1000,443,6,2,1,192.168.0.9\ncarry,0,0,2,table\ncarry,0,0,1,table\ncarry,0,0,1,table\ncarry,0,0,9,table\ncarry,0,3,1,fib\nend\n";
    let cases: [(&[u8], Mode, Result<usize, BadRow>); 6] = [
        (updates_and_carries, Mode::Replay, Ok(7)),
        (
            updates_and_carries,
            Mode::Storm,
            Err(BadRow {
                row: 5,
                why: Why::CarryInStorm,
            }),
        ),
        (
            b"cluster,4,1\nbegin",
            Mode::Replay,
            Err(BadRow {
                row: 3,
                why: Why::NoEnd,
            }),
        ),
        (
            b"cluster,4,1\nbegin\nend\nsync\n",
            Mode::Storm,
            Err(BadRow {
                row: 4,
                why: Why::AfterEnd,
            }),
        ),
        (b"cluster,16,256\nbegin\nend\n", Mode::Storm, Ok(0)),
        (
            b"\xef\xbb\xbfcluster,2,1\r\nflow,10.0.0.1,192.0.2.7,1000,443,6,1,77,192.168.0.9\r\n\r\n\"begin\"\r\n\"del\",\"10.0.0.1\",192.0.2.7,1000,443,6\r\npacket,2,10.0.0.1,192.0.2.7,1000,443,6\r\nend",
            Mode::Replay,
            Err(BadRow {
                row: 5,
                why: Why::Node,
            }),
        ),
    ];
    for (text, mode, wanted) in cases {
        let found = match read(rt.alloc(), text, mode)? {
            Ok(events) => Ok(events.len()),
            Err(bad) => Err(bad),
        };
        assert_eq!(rt; found, wanted, "{text:?}");
    }
    Ok(())
}

// Both readers go on with one reader of rows.
#[test]
fn reads_in_one_pass(rt: HostRuntime) -> Result<(), Fail> {
    let text =
        b"cluster,4,1\nflow,10.0.0.1,192.0.2.7,1000,443,6,2,77,192.168.0.9\nbegin\ndel,10.0.0.1,192.0.2.7,1000,443,6\nsync\nend\n";
    let mut reader = RowReader::new(rt.alloc(), text);
    let opening = match read_opening_from(rt.alloc(), &mut reader) {
        Ok(opening) => opening,
        Err(refused) => {
            assert!(rt; false, "refused: {refused:?}");
            return Ok(());
        }
    };
    match read_script_from(
        rt.alloc(),
        &mut reader,
        opening.begin_row,
        opening.shape,
        Mode::Storm,
    ) {
        Ok(events) => {
            let wanted = [Event::Del(KEY), Event::Sync];
            assert!(rt; events.as_slice() == wanted.as_slice(), "{events:?}");
        }
        Err(refused) => assert!(rt; false, "refused: {refused:?}"),
    }
    Ok(())
}

// What these rows after a `cluster` row of four nodes and `begin` read as, with raw packets among them.
fn read_raw(alloc: Global, rows: &str) -> Result<String, Fail> {
    let text = format!(in alloc; "cluster,4,1\nbegin\n{rows}")?;
    if text.len() > MOST_OCTETS {
        return Err(Fail::from("too long"));
    }
    let Ok(opening) = read_opening(alloc, text.as_bytes()) else {
        return Err(Fail::from("no opening"));
    };
    match read_wire(alloc, text.as_bytes(), opening.begin_row, opening.shape) {
        Ok(events) => Ok(format!(in alloc; "{events:?}")?),
        Err(RowRefused::Bad(BadRow { row, why })) => Ok(format!(in alloc; "{row} {why:?}")?),
        Err(RowRefused::OutOfMemory) => Err(Fail::from("out of memory")),
    }
}

#[test]
fn reads_raw_packets(rt: HostRuntime) -> Result<(), Fail> {
    first_bad_wire_row_law();
    let cases = [
        (
            "wire,3,45fF\ntunnel,30\nsync\nend\n",
            "[Wire { ingress: 3, octets: Octets { octets: [69, 255] } }, \
             Tunnel { octets: Octets { octets: [48] } }, Plain(Sync)]",
        ),
        (
            "wire,0,\nend\n",
            "[Wire { ingress: 0, octets: Octets { octets: [] } }]",
        ),
        ("wire,0,4\nend\n", "3 Number"),
        ("tunnel,4g\nend\n", "3 Number"),
        ("wire,4,4\nend\n", "3 Node"),
        ("wire,0\nend\n", "3 Fields"),
        ("tunnel,0,45\nend\n", "3 Fields"),
        ("Tunnel,45\nend\n", "3 Kind"),
        ("wire,0,45\nend\nwire,0,45\n", "5 AfterEnd"),
    ];
    for (rows, read) in cases {
        let said = read_raw(rt.alloc(), rows)?;
        assert_eq!(rt; said.as_str(), read, "{rows:?}");
    }
    Ok(())
}
