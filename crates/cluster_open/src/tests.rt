use crate::{InputFault, one_text_one_run, open_parts, read_rows, read_vec};
use flow_reader::MOST_OCTETS;
use flow_types::{BadRow, Why};
use packet_reader::Mode;
use std::test::Fail;

const OPENING: &str = "cluster,2,1\nflow,10.0.0.1,192.0.2.7,1000,443,6,1,77,192.168.0.9\nbegin\n";

/// Rows after the opening, a mode, and how many events they say, or the first bad row.
type Case = (&'static str, Mode, Result<usize, BadRow>);

#[test]
fn reads_a_script_in_its_mode(rt: HostRuntime) -> Result<(), Fail> {
    one_text_one_run();
    let cases: [Case; 4] = [
        ("sync\ncarry,1,0,1,table\nend\n", Mode::Replay, Ok(2)),
        (
            "sync\ncarry,1,0,1,table\nend\n",
            Mode::Storm,
            Err(BadRow {
                row: 5,
                why: Why::CarryInStorm,
            }),
        ),
        ("sync\nend\n", Mode::Storm, Ok(1)),
        (
            "sync\n",
            Mode::Storm,
            Err(BadRow {
                row: 5,
                why: Why::NoEnd,
            }),
        ),
    ];
    for (rows, mode, wanted) in cases {
        let text = format!(in rt.alloc(); "{OPENING}{rows}")?.into_bytes();
        if text.len() > MOST_OCTETS {
            return Err("too many octets".into());
        }
        let read = match read_vec(rt.alloc(), text, mode) {
            Ok(input) => Ok(input.script.len()),
            Err(InputFault::Bad(bad)) => Err(bad),
            Err(_) => return Err("memory".into()),
        };
        assert_eq!(rt; read, wanted, "of {rows:?}");
    }
    Ok(())
}

#[test]
fn opens_an_owner_for_each_that_has_a_block(rt: HostRuntime) -> Result<(), Fail> {
    let rows = "cluster,2,1\nflow,10.0.0.1,192.0.2.7,1000,443,6,1,77,192.168.0.9\nbegin\nend\n";
    let Ok(input) = read_rows(rt.alloc(), rows.as_bytes(), Mode::Storm) else {
        return Err("rows".into());
    };
    let Ok(parts) = open_parts(&rt, rt.alloc(), &input.opening, 2) else {
        return Err("parts".into());
    };
    assert_eq!(rt; parts.owners.len(), 1);
    assert_eq!(rt; parts.nodes.len(), 2);
    for node in parts.nodes {
        assert_eq!(rt; node.fibs.len(), 1);
        for table in node.tables {
            let (shard, writer) = table.into_parts();
            assert_eq!(rt; shard.taken(&writer), 0);
        }
    }
    Ok(())
}
