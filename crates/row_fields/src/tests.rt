use crate::{
    RowRefused, address_field, flow_of, is_kind, key_at, node_field, number_field,
    readings_are_in_range, refusal,
};
use csv_rows::{ByteRecord, RowReader};
use flow_types::{BadRow, Flow, FlowKey, Record, Why};
use std::test::Fail;

const KEY: FlowKey = FlowKey {
    source: 0x0a00_0001,
    destination: 0xc000_0207,
    source_port: 1000,
    destination_port: 443,
    protocol: 6,
};

#[test]
fn reads_fields(rt: HostRuntime) -> Result<(), Fail> {
    readings_are_in_range();
    assert_eq!(rt; number_field(b"255", 255), Ok(255));
    assert_eq!(rt; number_field(b"256", 255), Err(Why::Number));
    assert_eq!(rt; address_field(b"10.0.0.1"), Ok(0x0a00_0001));
    assert_eq!(rt; address_field(b"10.0.0.01"), Err(Why::Address));
    assert_eq!(rt; node_field(b"3", 4), Ok(3));
    assert_eq!(rt; node_field(b"4", 4), Err(Why::Node));
    assert_eq!(rt; node_field(b"256", 4), Err(Why::Number));
    let bad = BadRow {
        row: 7,
        why: Why::Kind,
    };
    let refused = refusal(7, Why::Kind);
    assert_eq!(rt; refused, RowRefused::Bad(bad));
    let printed = format!(in rt.alloc(); "{refused}")?;
    assert_eq!(rt;
        printed.as_str(),
        "row 7: no kind of row or part that may stand here"
    );
    Ok(())
}

#[test]
fn reads_the_fields_of_a_row(rt: HostRuntime) -> Result<(), Fail> {
    let text = b"set,10.0.0.1,192.0.2.7,1000,443,6,2,77,192.168.0.9\n";
    let mut reader = RowReader::new(rt.alloc(), text);
    let mut row = ByteRecord::new(rt.alloc());
    assert!(rt; reader.next_row(&mut row)?);
    assert!(rt; is_kind(&row, b"set"));
    assert!(rt; !is_kind(&row, b"sets"));
    assert_eq!(rt; key_at(&row, 1), Ok(KEY));
    assert_eq!(rt; key_at(&row, 2), Err(Why::Address));
    let wanted = Flow {
        key: KEY,
        node: 2,
        info: Record {
            teid: 77,
            base: 0xc0a8_0009,
        },
    };
    assert_eq!(rt; flow_of(&row, 4), Ok(wanted));
    assert_eq!(rt; flow_of(&row, 2), Err(Why::Node));
    Ok(())
}
