use crate::{
    FlowMap, MOST_OCTETS, Opening, RowRefused, first_bad_row_law, openings_fit, read_opening,
    the_limits_are,
};
use flow_types::{BadRow, Flow, FlowKey, Record, Shape, Why};
use std::alloc::Global;
use std::fmt::Write;
use std::test::Fail;

// What a text of rows reads as.
fn read(alloc: Global, text: &[u8]) -> Result<Result<Opening, BadRow>, Fail> {
    if text.len() > MOST_OCTETS {
        return Err(Fail::from("too long"));
    }
    match read_opening(alloc, text) {
        Ok(opening) => Ok(Ok(opening)),
        Err(RowRefused::Bad(bad)) => Ok(Err(bad)),
        Err(RowRefused::OutOfMemory) => Err(Fail::from("out of memory")),
    }
}

// The number of the first bad row of a text and why it is bad, or its opening.
fn refused(alloc: Global, text: &[u8]) -> Result<String, Fail> {
    match read(alloc, text)? {
        Ok(opening) => Ok(format!(in alloc; "{opening:?}")?),
        Err(BadRow { row, why }) => Ok(format!(in alloc; "{row} {why:?}")?),
    }
}

/// The number of the first bad row, why it is bad, and the rows. A `/` is a line feed.
const BAD: [&str; 51] = [
    // The rows end before `begin`.
    "1 NoBegin: ",
    "1 NoBegin: /\r//",
    "2 NoBegin: cluster,4,1",
    "3 NoBegin: cluster,4,1/flow,10.0.0.1,192.0.2.7,1000,443,6,2,77,192.168.0.9/",
    "2 NoBegin: //cluster,4,1//",
    // The first row.
    "1 Kind: \"\"/",
    "1 Kind: \"\",4,1/",
    "1 Kind: Cluster,4,1/begin/",
    "1 Kind: cluster ,4,1/begin/",
    "1 Kind: begin/",
    "1 Kind: flow,10.0.0.1,192.0.2.7,1000,443,6,2,77,192.168.0.9/begin/",
    "1 Fields: cluster/begin/",
    "1 Fields: cluster,4/begin/",
    "1 Fields: cluster,4,1,/begin/",
    "1 Number: cluster,1,1/begin/end/",
    "1 Number: cluster,17,1/begin/",
    "1 Number: cluster,4,0/begin/",
    "1 Number: cluster,4,257/begin/",
    "1 Number: cluster,04,1/begin/",
    "1 Number: cluster,+4,1/begin/",
    "1 Number: cluster, 4,1/begin/",
    "1 Number: cluster,,1/begin/",
    "1 Number: cluster,18446744073709551620,1/begin/",
    // The kind of a later row, and its number of fields.
    "2 Kind: cluster,4,1/cluster,4,1/begin/",
    "2 Kind: cluster,4,1/end/",
    "2 Kind: cluster,4,1/packet,0,10.0.0.1,192.0.2.7,1000,443,6/",
    "2 Kind: cluster,4,1/flows,x/",
    "2 Fields: cluster,4,1/begin,/",
    "2 Fields: cluster,4,1/begin,0/",
    "2 Fields: cluster,4,1/flow/",
    "2 Fields: cluster,4,1/flow,x,x,x,x,x,x,x/",
    "2 Fields: cluster,4,1/flow,10.0.0.1,192.0.2.7,1000,443,6,2,77,192.168.0.9,/",
    // The fields of a `flow` row, from left to right.
    "2 Address: cluster,4,1/flow,10.0.0.256,192.0.2.7,65536,443,6,2,77,192.168.0.9/",
    "2 Address: cluster,4,1/flow,10.0.0,192.0.2.7,1000,443,6,2,77,192.168.0.9/",
    "2 Address: cluster,4,1/flow,10.0.0.1,192.0.2.07,1000,443,6,2,77,192.168.0.9/",
    "2 Number: cluster,4,1/flow,10.0.0.1,192.0.2.7,65536,443,6,2,77,x/",
    "2 Number: cluster,4,1/flow,10.0.0.1,192.0.2.7,1000,-1,6,2,77,x/",
    "2 Number: cluster,4,1/flow,10.0.0.1,192.0.2.7,1000,443,256,4,77,x/",
    "2 Number: cluster,4,1/flow,10.0.0.1,192.0.2.7,1000,443,6,256,77,x/",
    "2 Number: cluster,4,1/flow,10.0.0.1,192.0.2.7,1000,443,6,one,77,x/",
    "2 Node: cluster,4,1/flow,10.0.0.1,192.0.2.7,1000,443,6,255,x,x/",
    "2 Node: cluster,4,1/flow,10.0.0.1,192.0.2.7,1000,443,6,4,x,x/",
    "2 Number: cluster,4,1/flow,10.0.0.1,192.0.2.7,1000,443,6,3,4294967296,x/",
    "2 Address: cluster,4,1/flow,10.0.0.1,192.0.2.7,1000,443,6,3,77,192.168.0.9 /",
    // A key that an earlier flow has.
    "3 Duplicate: cluster,4,1/flow,10.0.0.1,192.0.2.7,1000,443,6,2,77,192.168.0.9/flow,10.0.0.1,192.0.2.7,1000,443,6,1,78,192.168.0.8/begin/",
    "3 Node: cluster,4,1/flow,10.0.0.1,192.0.2.7,1000,443,6,2,77,192.168.0.9/flow,10.0.0.1,192.0.2.7,1000,443,6,4,78,192.168.0.8/begin/",
    "7 Duplicate: cluster,4,1/flow,0.0.0.0,0.0.0.0,0,0,1,0,0,0.0.0.0/flow,0.0.0.0,0.0.0.0,0,0,2,0,0,0.0.0.0/flow,0.0.0.0,0.0.0.0,0,0,3,0,0,0.0.0.0/flow,0.0.0.0,0.0.0.0,0,0,4,0,0,0.0.0.0/flow,0.0.0.0,0.0.0.0,0,0,5,0,0,0.0.0.0/flow,0.0.0.0,0.0.0.0,0,0,2,0,0,0.0.0.0/begin/",
    // Two bad rows, and blank lines and quoted line ends before one.
    "1 Number: cluster,1,1/flow/",
    "2 Fields: cluster,4,1/flow/flows/",
    "2 Fields: cluster,4,1//\r//flow/",
    "2 Address: cluster,4,1/\"flow\",\"10.0.0.1/\",192.0.2.7,1000,443,6,2,77,192.168.0.9/",
];

#[test]
fn refuses_the_first_bad_row(rt: HostRuntime) -> Result<(), Fail> {
    for case in BAD {
        let Some((wanted, rows)) = case.split_once(": ") else {
            return Err(Fail::from("no case"));
        };
        let text = rows.replace(rt.alloc(), '/', "\n")?;
        let found = refused(rt.alloc(), text.as_bytes())?;
        assert_eq!(rt; found.as_str(), wanted, "{case}");
    }
    let no_text = refused(rt.alloc(), b"cluster,4,1\n\xff\xfe\nbegin\n")?;
    assert_eq!(rt; no_text.as_str(), "2 Kind");
    Ok(())
}

#[test]
fn reads_up_to_begin(rt: HostRuntime) -> Result<(), Fail> {
    let cases: [(&[u8], u16, u16, usize, u32); 8] = [
        (b"cluster,4,1\nbegin\n", 4, 1, 0, 2),
        (b"cluster,16,256\r\nbegin\r\nend\r\n", 16, 256, 0, 2),
        (b"cluster,2,1\nbegin", 2, 1, 0, 2),
        (b"\xef\xbb\xbfcluster,2,1\n\n\nbegin\n", 2, 1, 0, 2),
        (b"\"cluster\",\"2\",\"1\"\n\"begin\"\n", 2, 1, 0, 2),
        (b"cluster,4,1\nbegin\n\"never closed,\n\xff\n", 4, 1, 0, 2),
        (
            b"cluster,4,1\nflow,10.0.0.1,192.0.2.7,1000,443,6,2,77,192.168.0.9\nbegin\nbegin\n",
            4,
            1,
            1,
            3,
        ),
        (
            b"cluster,4,1\nflow,0.0.0.0,0.0.0.0,0,0,0,0,0,0.0.0.0\n\"flow\",255.255.255.255,\"255.255.255.255\",65535,65535,255,3,4294967295,255.255.255.255\nbegin",
            4,
            1,
            2,
            4,
        ),
    ];
    for (text, nodes, blocks, flows, begin_row) in cases {
        match read(rt.alloc(), text)? {
            Ok(opening) => {
                assert_eq!(rt; opening.shape.nodes(), nodes, "{text:?}");
                assert_eq!(rt; opening.shape.blocks(), blocks, "{text:?}");
                assert_eq!(rt; opening.flows.as_slice().len(), flows, "{text:?}");
                assert_eq!(rt; opening.begin_row, begin_row, "{text:?}");
            }
            Err(bad) => assert!(rt; false, "{text:?} is refused: {bad:?}"),
        }
    }
    Ok(())
}

#[test]
fn reads_the_fields_of_a_flow(rt: HostRuntime) -> Result<(), Fail> {
    first_bad_row_law();
    openings_fit();
    the_limits_are();
    let text = b"cluster,4,1\nflow,10.0.0.1,192.0.2.7,1000,443,6,2,77,192.168.0.9\nbegin\n";
    let wanted = Flow {
        key: FlowKey {
            source: 0x0a00_0001,
            destination: 0xc000_0207,
            source_port: 1000,
            destination_port: 443,
            protocol: 6,
        },
        node: 2,
        info: Record {
            teid: 77,
            base: 0xc0a8_0009,
        },
    };
    match read(rt.alloc(), text)? {
        Ok(opening) => {
            let copy = opening.clone()?;
            assert!(rt; copy.flows.as_slice() == [wanted].as_slice(), "{copy:?}");
        }
        Err(bad) => assert!(rt; false, "refused: {bad:?}"),
    }
    Ok(())
}

/// So many flow rows with keys of their own.
fn flow_rows(alloc: Global, count: u32) -> Result<String, Fail> {
    let mut text = String::new(alloc);
    'rows: for source in 0..count {
        let [a, b, c, d] = source.to_be_bytes();
        writeln!(
            text,
            "flow,{a}.{b}.{c}.{d},192.0.2.7,1000,443,6,2,77,192.168.0.9"
        )?;
    }
    Ok(text)
}

#[test]
fn reads_more_flows_than_a_port_has_numbers(rt: HostRuntime) -> Result<(), Fail> {
    let rows = flow_rows(rt.alloc(), 66_000)?;
    let whole = format!(in rt.alloc(); "cluster,4,1\n{rows}begin\n")?;
    match read(rt.alloc(), whole.as_bytes())? {
        Ok(opening) => {
            assert_eq!(rt; opening.flows.as_slice().len(), 66_000);
            assert_eq!(rt; opening.begin_row, 66_002);
        }
        Err(bad) => assert!(rt; false, "refused: {bad:?}"),
    }
    let first = flow_rows(rt.alloc(), 1)?;
    let again = format!(in rt.alloc(); "cluster,4,1\n{rows}{first}begin\n")?;
    let bad = BadRow {
        row: 66_002,
        why: Why::Duplicate,
    };
    assert_eq!(rt; read(rt.alloc(), again.as_bytes())?.err(), Some(bad));
    Ok(())
}

/// The flow from this address to port 443 of 192.0.2.7, which this node handles.
fn flow(source: u32, node: u8) -> Flow {
    let key = FlowKey {
        source,
        destination: 0xc000_0207,
        source_port: 1000,
        destination_port: 443,
        protocol: 6,
    };
    let info = Record {
        teid: 77,
        base: 0xc0a8_0009,
    };
    Flow { key, node, info }
}

/// How many flows the map of 4 nodes has that is made of these sources and nodes, or why there is none.
fn mapped(alloc: Global, pairs: &[(u32, u8)]) -> Result<String, Fail> {
    let shape = Shape::new(4, 1).ok_or("4 nodes and 1 block")?;
    let mut flows = Vec::new(alloc);
    for (source, node) in pairs {
        flows.push(flow(*source, *node))?;
    }
    match FlowMap::of(alloc, shape, flows.as_slice()) {
        Ok(map) => {
            if map.shape() != shape || map.flows() != flows.as_slice() {
                return Err(Fail::from("a map of other flows"));
            }
            Ok(format!(in alloc; "{} flows", map.flows().len())?)
        }
        Err(refused) => Ok(format!(in alloc; "{refused}")?),
    }
}

#[test]
fn maps_flows_up_to_the_first_fault(rt: HostRuntime) -> Result<(), Fail> {
    let cases: [(&[(u32, u8)], &str); 8] = [
        (&[], "0 flows"),
        (&[(1, 0), (2, 3), (0, 3)], "3 flows"),
        (&[(1, 4)], "flow 0: no node 4 in the cluster"),
        (
            &[(1, 0), (2, 255), (1, 0)],
            "flow 1: no node 255 in the cluster",
        ),
        (
            &[(1, 0), (2, 1), (1, 2)],
            "flow 2: a key that an earlier flow has",
        ),
        (
            &[(1, 0), (1, 0), (2, 9)],
            "flow 1: a key that an earlier flow has",
        ),
        // Both faults.
        (&[(1, 0), (1, 4)], "flow 1: no node 4 in the cluster"),
        (&[(9, 9), (9, 9)], "flow 0: no node 9 in the cluster"),
    ];
    for (pairs, wanted) in cases {
        let found = mapped(rt.alloc(), pairs)?;
        assert_eq!(rt; found.as_str(), wanted, "{pairs:?}");
    }
    Ok(())
}
