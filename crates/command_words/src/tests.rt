use crate::{Command, Task, read_command};
use std::test::Fail;

/// Words, parted by spaces, and what they ask for: the task, workers, lanes and seed.
type Case = (&'static str, Option<(Task, u8, u8, u32)>);

#[test]
fn words_ask_for_what_they_say(rt: HostRuntime) -> Result<(), Fail> {
    let cases: [Case; 28] = [
        ("replay", Some((Task::Replay, 4, 2, 1))),
        ("grind", Some((Task::Grind, 4, 2, 1))),
        ("storm", Some((Task::Storm, 4, 2, 1))),
        ("--workers 1 replay", Some((Task::Replay, 1, 2, 1))),
        ("--lanes=8 storm --workers 7", Some((Task::Storm, 7, 8, 1))),
        ("replay --workers=64", Some((Task::Replay, 64, 2, 1))),
        ("grind --seed 0 --lanes 8", Some((Task::Grind, 4, 8, 0))),
        (
            "--seed 4294967295 grind --lanes=1 --workers 7",
            Some((Task::Grind, 7, 1, 4_294_967_295)),
        ),
        ("-- replay", Some((Task::Replay, 4, 2, 1))),
        ("fly", None),
        ("REPLAY", None),
        ("replay replay", None),
        ("grind replay", None),
        ("storm replay", None),
        ("Storm", None),
        ("--help", None),
        ("replay --help", None),
        ("--version", None),
        ("replay --nonsense", None),
        ("--workers 4", None),
        ("--workers 0 replay", None),
        ("--workers 65 replay", None),
        ("--lanes 9 replay", None),
        ("--lanes 0 storm", None),
        ("--seed 4294967296 replay", None),
        ("--workers 4 --workers 4 replay", None),
        ("--workers +4 replay", None),
        ("--workers 04 replay", None),
    ];
    let alloc = rt.alloc();
    for (words, wanted) in cases {
        let mut list = Vec::new(alloc);
        for word in words.split(' ') {
            list.push(String::from_str(alloc, word)?)?;
        }
        let wanted = wanted.map(|(task, workers, lanes, seed)| Command {
            task,
            workers,
            lanes,
            seed,
        });
        assert_eq!(rt;
            read_command(alloc, list.as_slice())?,
            wanted,
            "of {words:?}"
        );
    }
    assert_eq!(rt; read_command(alloc, &[])?, None);
    Ok(())
}
