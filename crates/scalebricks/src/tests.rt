ghost use Rattle.std.specs.Prelude.{◌≢◌};

use crate::status::{
    DONE, INPUT_LIMIT, INPUT_REFUSED, READ_FAULT, TOO_LARGE, WORDS_REFUSED, WRITE_FAULT,
};
use crate::{grind, grind_input, run};
use sb_io::{HonestSink, HonestSource, MemSink, MemSource, OpenGate};
use std::alloc::Global;
use std::sync::Wait;
use std::test::Fail;
use std::thread::Threads;

const ROOM: usize = 1000;

/// A row of input and the output, each line ended by a line feed.
type Case<'a> = (&'a str, u8, &'a str);

/// The program's words, where there is one.
pub fn one_word(alloc: Global, word: &str) -> Result<Vec<String>, Fail> {
    Ok(vec![in alloc; String::from_str(alloc, word)?]?)
}

/// The program's words, which spaces part.
fn words_of(alloc: Global, line: &str) -> Result<Vec<String>, Fail> {
    let mut words = Vec::new(alloc);
    for word in line.split(' ') {
        words.push(String::from_str(alloc, word)?)?;
    }
    Ok(words)
}

#[test]
fn answers_each_input(rt: HostRuntime) -> Result<(), Fail> {
    let cases: [Case; 12] = [
        (
            "cluster,4,1\nbegin\npacket,0,10.0.0.1,192.0.2.7,1000,443,6\nend\n",
            DONE,
            "packet 0 in 0 to 0 hops 0 seen 0 fib 0 unknown\n\
             done packets 1 found 0 unknown 1\n",
        ),
        (
            "cluster,4,1\nflow,10.0.0.1,192.0.2.7,1000,443,6,2,77,192.168.0.9\nbegin\n\
             packet,0,10.0.0.1,192.0.2.7,1000,443,6\nend\n",
            DONE,
            "packet 0 in 0 to 2 hops 1 seen 0 fib 0 teid 77 base 192.168.0.9\n\
             done packets 1 found 1 unknown 0\n",
        ),
        (
            "cluster,4,1\nflow,10.0.0.1,192.0.2.7,1000,443,6,2,77,192.168.0.9\nbegin\n\
             packet,2,10.0.0.1,192.0.2.7,1000,443,6\nend\n",
            DONE,
            "packet 0 in 2 to 2 hops 0 seen 0 fib 0 teid 77 base 192.168.0.9\n\
             done packets 1 found 1 unknown 0\n",
        ),
        (
            "cluster,1,1\nbegin\nend\n",
            INPUT_REFUSED,
            "refused row 1 Number\n",
        ),
        (
            "cluster,16,256\nbegin\nend\n",
            DONE,
            "done packets 0 found 0 unknown 0\n",
        ),
        (
            "cluster,4,1\nflow,10.0.0.1,192.0.2.7,1,443,6,0,1,192.168.0.9\n\
             flow,10.0.0.1,192.0.2.7,2,443,6,0,2,192.168.0.9\n\
             flow,10.0.0.1,192.0.2.7,3,443,6,0,3,192.168.0.9\n\
             flow,10.0.0.1,192.0.2.7,4,443,6,0,4,192.168.0.9\n\
             flow,10.0.0.1,192.0.2.7,5,443,6,0,5,192.168.0.9\n\
             flow,10.0.0.1,192.0.2.7,2,443,6,1,6,192.168.0.9\nbegin\nend\n",
            INPUT_REFUSED,
            "refused row 7 Duplicate\n",
        ),
        ("", INPUT_REFUSED, "refused row 1 NoBegin\n"),
        (
            "cluster,4,1\nbegin\n",
            INPUT_REFUSED,
            "refused row 3 NoEnd\n",
        ),
        (
            "cluster,4,1\nbegin\nend\nsync\n",
            INPUT_REFUSED,
            "refused row 4 AfterEnd\n",
        ),
        (
            "cluster,4,1\nbegin\ndel,10.0.0.1,192.0.2.7,1000,443,6\n\
             packet,0,10.0.0.1,192.0.2.7,1000,443,6\nend\n",
            DONE,
            "del refused absent\npacket 0 in 0 to 0 hops 0 seen 0 fib 0 unknown\n\
             done packets 1 found 0 unknown 1\n",
        ),
        // What stands already is set.
        (
            "cluster,4,1\nflow,10.0.0.1,192.0.2.7,1000,443,6,2,77,192.168.0.9\nbegin\n\
             set,10.0.0.1,192.0.2.7,1000,443,6,2,77,192.168.0.9\nsync\n\
             packet,0,10.0.0.1,192.0.2.7,1000,443,6\nend\n",
            DONE,
            "set accepted owner 0 turn 1\n\
             packet 0 in 0 to 2 hops 1 seen 1 fib 1 teid 77 base 192.168.0.9\n\
             done packets 1 found 1 unknown 0\n",
        ),
        (
            "cluster,4,1\nflow,10.0.0.1,192.0.2.7,1000,443,6,2,77,192.168.0.9\nbegin\n\
             del,10.0.0.1,192.0.2.7,1000,443,6\nsync\n\
             packet,0,10.0.0.1,192.0.2.7,1000,443,6\nend\n",
            DONE,
            "del accepted owner 0 turn 1\npacket 0 in 0 to 0 hops 0 seen 1 fib 1 unknown\n\
             done packets 1 found 0 unknown 1\n",
        ),
    ];
    let alloc = rt.alloc();
    let words = one_word(alloc, "replay")?;
    for (rows, wanted, printed) in cases {
        let mut input = MemSource::new(alloc, rows.as_bytes(), &[])?;
        let mut output = MemSink::new(alloc, ROOM, &[])?;
        let status = run(&rt, alloc, &words, &mut input, &mut output, &OpenGate);
        assert_eq!(rt; status, wanted, "of {rows:?}");
        assert_eq!(rt; output.content(), printed.as_bytes(), "of {rows:?}");
    }
    Ok(())
}

// No packet stands in a phase in which its group changes, so there is one output.
#[test]
fn storms_by_any_lanes(rt: HostRuntime) -> Result<(), Fail> {
    let alloc = rt.alloc();
    let mut phases = String::from_str(alloc, "cluster,4,1\nbegin\n")?;
    for _ in 0..255 {
        phases.push_str("sync\n")?;
    }
    let most_phases = format!(in alloc; "{phases}end\n")?;
    let too_many_phases = format!(in alloc; "{phases}sync\nend\n")?;
    let cases: [Case; 5] = [
        (
            "cluster,4,2\nflow,10.0.0.1,192.0.2.7,1000,443,6,1,77,192.168.0.9\nbegin\n\
             packet,0,10.0.0.1,192.0.2.7,1000,443,6\n\
             set,10.0.0.1,192.0.2.7,1002,443,6,3,79,192.168.0.11\n\
             packet,2,10.0.0.1,192.0.2.7,1000,443,6\nsync\n\
             set,10.0.0.1,192.0.2.7,1000,443,6,2,78,192.168.0.10\n\
             packet,1,10.0.0.1,192.0.2.7,1002,443,6\nsync\n\
             packet,0,10.0.0.1,192.0.2.7,1000,443,6\n\
             packet,3,10.0.0.1,192.0.2.7,1000,443,6\n\
             del,10.0.0.1,192.0.2.7,1002,443,6\nsync\n\
             packet,2,10.0.0.1,192.0.2.7,1000,443,6\nend\n",
            DONE,
            "packet 0 in 0 to 1 hops 1 seen 0 fib 0 teid 77 base 192.168.0.9\n\
             set accepted owner 0 turn 1\n\
             packet 1 in 2 to 1 hops 1 seen 0 fib 0 teid 77 base 192.168.0.9\n\
             set accepted owner 1 turn 1\n\
             packet 2 in 1 to 3 hops 1 seen 1 fib 1 teid 79 base 192.168.0.11\n\
             packet 3 in 0 to 2 hops 1 seen 1 fib 1 teid 78 base 192.168.0.10\n\
             packet 4 in 3 to 2 hops 1 seen 1 fib 1 teid 78 base 192.168.0.10\n\
             del accepted owner 0 turn 2\n\
             packet 5 in 2 to 2 hops 0 seen 1 fib 1 teid 78 base 192.168.0.10\n\
             done packets 6 found 6 unknown 0\n",
        ),
        // A refused update changes nothing.
        (
            "cluster,4,1\nbegin\ndel,10.0.0.1,192.0.2.7,1000,443,6\n\
             packet,0,10.0.0.1,192.0.2.7,1000,443,6\nend\n",
            DONE,
            "del refused absent\npacket 0 in 0 to 0 hops 0 seen 0 fib 0 unknown\n\
             done packets 1 found 0 unknown 1\n",
        ),
        (
            "cluster,4,1\nbegin\ncarry,0,1,1,table\nend\n",
            INPUT_REFUSED,
            "refused row 3 CarryInStorm\n",
        ),
        (&most_phases, DONE, "done packets 0 found 0 unknown 0\n"),
        (
            &too_many_phases,
            INPUT_REFUSED,
            "refused row 258 TooManyPhases\n",
        ),
    ];
    let lines = [
        "storm --lanes 1",
        "storm --lanes 2 --workers 64",
        "storm --lanes 8 --workers 1",
    ];
    'inputs: for (rows, wanted, printed) in cases {
        'words: for line in lines {
            let words = words_of(alloc, line)?;
            let mut input = MemSource::new(alloc, rows.as_bytes(), &[])?;
            let mut output = MemSink::new(alloc, ROOM, &[])?;
            let status = run(&rt, alloc, &words, &mut input, &mut output, &OpenGate);
            assert_eq!(rt; status, wanted, "of {rows:?} by {line:?}");
            assert_eq!(rt;
                output.content(),
                printed.as_bytes(),
                "of {rows:?} by {line:?}"
            );
        }
    }
    Ok(())
}

// A hundred phases, in which updates race with packets.
#[test]
fn storms_the_rows_of_a_grind(rt: HostRuntime) -> Result<(), Fail> {
    let alloc = rt.alloc();
    let words = words_of(alloc, "storm --lanes 4")?;
    let rows = grind_input(alloc, 1)?;
    let mut input = MemSource::new(alloc, rows.as_slice(), &[])?;
    let mut output = MemSink::new(alloc, 4_000_000, &[])?;
    let status = run(&rt, alloc, &words, &mut input, &mut output, &OpenGate);
    assert_eq!(rt; status, DONE);
    let lines = output.content().iter().filter(|octet| **octet == b'\n');
    assert_eq!(rt; lines.count(), 21_001);
    Ok(())
}

#[test]
fn faults_and_other_words_end_it(rt: HostRuntime) -> Result<(), Fail> {
    let alloc = rt.alloc();
    let rows = b"cluster,4,1\nbegin\nend\n";
    // The words, the calls of the source and of the sink that fail, the sink's room, and the status.
    let cases: [(&str, &[u64], &[u64], usize, u8); 6] = [
        ("replay", &[2], &[], ROOM, READ_FAULT),
        ("replay", &[], &[1], ROOM, WRITE_FAULT),
        ("replay", &[], &[], 10, WRITE_FAULT),
        ("fly", &[1], &[1], 0, WORDS_REFUSED),
        ("Replay", &[], &[], ROOM, WORDS_REFUSED),
        ("replay ", &[], &[], ROOM, WORDS_REFUSED),
    ];
    for (word, unread, unwritten, room, wanted) in cases {
        let words = one_word(alloc, word)?;
        let mut input = MemSource::new(alloc, rows, unread)?;
        let mut output = MemSink::new(alloc, room, unwritten)?;
        let status = run(&rt, alloc, &words, &mut input, &mut output, &OpenGate);
        assert_eq!(rt; status, wanted, "of {word:?}");
        assert!(rt; output.content().is_empty(), "of {word:?}");
    }
    Ok(())
}

#[test]
fn grinds_the_same_by_any_workers(rt: HostRuntime) -> Result<(), Fail> {
    let alloc = rt.alloc();
    let line = grind(&rt, alloc, 1, 1)?;
    let begin = b"grind seed 1 rows 37487 accepted 1000 refused 0 packets 20000 found ";
    assert!(rt; line.as_slice().starts_with(begin));
    for workers in [4, 7] {
        let other = grind(&rt, alloc, 1, workers)?;
        assert_eq!(rt; other.as_slice(), line.as_slice(), "by {workers} workers");
    }
    Ok(())
}

#[test]
fn one_octet_over_the_limit_is_too_large(rt: HostRuntime) -> Result<(), Fail> {
    let alloc = rt.alloc();
    let words = one_word(alloc, "replay")?;
    let content = vec![in alloc; b'x'; INPUT_LIMIT as usize + 1]?;
    let mut input = HonestSource::new(alloc, &content)?;
    let status = run_honestly(&rt, alloc, &words, &mut input, &mut HonestSink::new());
    assert_eq!(rt; status, TOO_LARGE);
    Ok(())
}

/// Over a source and a sink that never fail, no fault is told.
fn run_honestly<R: Threads + Sync + Wait>(
    rt: &R,
    alloc: Global,
    words: &[String],
    input: &mut HonestSource,
    output: &mut HonestSink,
) -> u8
    ensures no_read_fault { result ≢ READ_FAULT }
    ensures no_write_fault { result ≢ WRITE_FAULT }
{
    run(rt, alloc, words, input, output, &OpenGate)
}
