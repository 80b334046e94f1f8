ghost use Rattle.std.specs.Prelude.{◌≤◌, IfOk, length};

use super::*;
use crate::trying::read_uninterrupted;
use std::io;
use std::io::{ErrorKind, Read};
use std::test::Fail;

/// A source's octets, the calls that fail, the limit, and what reading it all must give: the octets or the refusal.
type Reading<'a> = (&'a [u8], &'a [u64], u64, Result<&'a [u8], ReadRefusal>);

#[test]
fn reads_whole_inputs_or_says_why_not(rt: HostRuntime) -> Result<(), Fail> {
    let cases: [Reading; 8] = [
        (b"", &[], 0, Ok(b"")),
        (b"octets", &[], 6, Ok(b"octets")),
        (b"octets", &[3], 100, Ok(b"octets")),
        (b"octets", &[1], 100, Err(ReadRefusal::ReadFault)),
        (b"octets", &[7, 2], 100, Err(ReadRefusal::ReadFault)),
        (b"octets", &[2], 5, Err(ReadRefusal::TooLarge { limit: 5 })),
        (b"octets", &[], 0, Err(ReadRefusal::TooLarge { limit: 0 })),
        (b"octets", &[0], u64::MAX - 1, Ok(b"octets")),
    ];
    for (content, failing, limit, wanted) in cases {
        let mut source = MemSource::new(rt.alloc(), content, failing)?;
        match (read_all(rt.alloc(), &mut source, limit), wanted) {
            (Ok(bytes), Ok(octets)) => assert_eq!(rt; bytes.as_slice(), octets),
            (Err(refusal), Err(cause)) => assert_eq!(rt; refusal, cause),
            _ => panic!(rt; "of {content:?} up to {limit}"),
        }
    }
    Ok(())
}

#[test]
fn reads_more_than_one_turn(rt: HostRuntime) -> Result<(), Fail> {
    let content = vec![in rt.alloc(); 7u8; 200_000]?;
    let mut source = HonestSource::new(rt.alloc(), &content)?;
    let bytes = read_all(rt.alloc(), &mut source, 200_000)?;
    assert_eq!(rt; bytes.as_slice(), content.as_slice());
    let mut source = HonestSource::new(rt.alloc(), &content)?;
    let refused = read_all(rt.alloc(), &mut source, 199_999);
    assert_eq!(rt;
        refused.err(),
        Some(ReadRefusal::TooLarge { limit: 199_999 })
    );
    Ok(())
}

#[test]
fn writes_all_or_a_part(rt: HostRuntime) -> Result<(), Fail> {
    let cases: [(usize, &[u64], Result<(), WriteFault>, &[u8]); 5] = [
        (6, &[], Ok(()), b"octets"),
        (100, &[2], Ok(()), b"octets"),
        (100, &[1], Err(WriteFault), b""),
        (5, &[], Err(WriteFault), b""),
        (0, &[9, 1], Err(WriteFault), b""),
    ];
    for (limit, failing, wanted, held) in cases {
        let mut sink = MemSink::new(rt.alloc(), limit, failing)?;
        assert_eq!(rt;
            write_all(&mut sink, b"octets"),
            wanted,
            "at a limit of {limit}"
        );
        assert_eq!(rt; sink.content(), held, "at a limit of {limit}");
    }
    assert_eq!(rt; write_all(&mut HonestSink::new(), b"octets"), Ok(()));
    Ok(())
}

#[test]
fn standard_streams_work(rt: HostRuntime) -> Result<(), Fail> {
    let mut source = StdSource::new(&rt);
    assert_eq!(rt; source.read(&mut []), Ok(0));
    let mut sink = StdSink::new(&rt);
    assert_eq!(rt; sink.write(b""), Ok(0));
    assert_eq!(rt;
        write_all(&mut sink, b"octets on standard output\n"),
        Ok(())
    );
    Ok(())
}

/// A reader of sevens, whose first `times` reads a signal interrupts.
#[derive(Drop)]
struct Interrupted {
    times: u8,
}

impl Read for Interrupted {
    fn read(&mut self, into: &mut [u8]) -> io::Result<usize>
        ensures bound { IfOk result (λ n. n ≤ length into.new) }
    {
        if self.times > 0 {
            self.times -= 1;
            return Err(io::Error::from(ErrorKind::Interrupted));
        }
        into.fill(7);
        Ok(into.len())
    }
}

#[test]
fn reads_again_after_an_interruption(rt: HostRuntime) {
    for times in [0, 1, 9] {
        let mut reader = Interrupted { times };
        let mut octets = [0; 3];
        assert_eq!(rt; read_uninterrupted(&mut reader, &mut octets).ok(), Some(3));
        assert_eq!(rt; octets, [7; 3], "after {times} interruptions");
    }
}

#[test]
fn an_open_gate_holds_nobody(_rt: HostRuntime) {
    for who in [Who::Owner(0), Who::Applier(1), Who::Lane(2)] {
        OpenGate.before(who, 0);
        OpenGate.after(who, 0);
    }
}
