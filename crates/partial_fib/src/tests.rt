ghost use Rattle.std.specs.Prelude.{◌≡◌, ◌<◌, ◌%◌};
ghost use Rattle.delta_codec.specs.Messages.{FibMessageFits};

use crate::{Fib, FibRefused, FibSeen, laws};
use delta_codec::{FibMessage, FibOp};
use flow_types::{Flow, FlowKey, Record, Shape};
use hash_family::place;
use std::process::Abort;
use std::test::Fail;

const INFO: Record = Record { teid: 77, base: 9 };

/// A key of block 0 at shape (4, 2) for port 1000, and of block 1 for the ports from 1001 to 1005.
fn key_of_port(source_port: u16) -> FlowKey
    ensures { result ≡ record { source = 1; destination = 2; source_port = source_port; destination_port = 443; protocol = 6 } }
{
    FlowKey {
        source: 1,
        destination: 2,
        source_port,
        destination_port: 443,
        protocol: 6,
    }
}

/// A message of an owner, of group 5 of the block with its number.
fn message(owner: u8, turn: u32, op: FibOp) -> FibMessage
    ensures { result ≡ record { owner = owner; turn = turn; block = owner; group = 5; op = op } }
{
    FibMessage {
        owner,
        turn,
        block: u16::from(owner),
        group: 5,
        op,
    }
}

/// What a FIB answers to a message, and how many turns it has taken then.
fn answers(
    rt: &impl Abort,
    fib: &mut Fib,
    message: FibMessage,
    answer: Result<(), FibRefused>,
    taken: u32,
)
    requires { FibMessageFits fib.old.size message }
    ensures size { fib.new.size ≡ fib.old.size }
    ensures owner { fib.new.owner ≡ fib.old.owner }
{
    assert_eq!(rt; fib.apply(&message), answer, "turn {}", message.turn);
    assert_eq!(rt; fib.taken(), taken);
}

/// What a FIB says of a key in a group of block 1.
fn says(rt: &impl Abort, fib: &Fib, group: u8, key: FlowKey, version: u32, answer: Option<Record>)
    requires within { 1 < fib.now.size.blocks }
    requires owned { 1 % fib.now.size.nodes ≡ fib.now.owner }
    requires in_block { group < 64 }
{
    assert_eq!(rt; fib.find(1, group, key), FibSeen { version, answer });
}

#[test]
fn takes_the_next_turn_alone(rt: HostRuntime) -> Result<(), Fail> {
    let shape = Shape::new(4, 2).ok_or("shape")?;
    let mut fib = Fib::open(rt.alloc(), shape, 3, 1, &[])?;
    let nothing = FibOp::Nothing;
    let foreign = Err(FibRefused::Foreign { owner: 0 });
    answers(&rt, &mut fib, message(0, 1, nothing), foreign, 0);
    answers(&rt, &mut fib, message(0, 2, nothing), foreign, 0);
    let early = Err(FibRefused::Early { have: 0 });
    answers(&rt, &mut fib, message(1, 2, nothing), early, 0);
    answers(&rt, &mut fib, message(1, 1, nothing), Ok(()), 1);
    let repeat = Err(FibRefused::Repeat { have: 1 });
    answers(&rt, &mut fib, message(1, 1, nothing), repeat, 1);
    answers(&rt, &mut fib, message(0, 1, nothing), foreign, 1);
    answers(&rt, &mut fib, message(1, 2, nothing), Ok(()), 2);
    Ok(())
}

#[test]
fn a_moved_flow_is_gone_at_its_old_node(rt: HostRuntime) -> Result<(), Fail> {
    let shape = Shape::new(4, 2).ok_or("shape")?;
    let (foreign, moved, kept) = (key_of_port(1000), key_of_port(1001), key_of_port(1002));
    assert!(rt; place(shape, foreign).block == 0);
    assert!(rt; place(shape, moved).block == 1);
    assert!(rt; place(shape, kept).block == 1);
    let flow = |key, node| Flow {
        key,
        node,
        info: INFO,
    };
    let flows = [flow(foreign, 2), flow(moved, 2), flow(kept, 3)];
    let mut from = Fib::open(rt.alloc(), shape, 2, 1, &flows)?;
    let mut to = Fib::open(rt.alloc(), shape, 3, 1, &flows)?;
    says(&rt, &from, 5, foreign, 0, None);
    says(&rt, &from, 5, moved, 0, Some(INFO));
    says(&rt, &from, 5, kept, 0, None);
    says(&rt, &to, 5, moved, 0, None);

    let other = Record { teid: 78, base: 10 };
    answers(&rt, &mut from, message(1, 1, FibOp::Drop(moved)), Ok(()), 1);
    let put = FibOp::Put(moved, other);
    answers(&rt, &mut to, message(1, 1, put), Ok(()), 1);
    says(&rt, &from, 5, moved, 1, None);
    says(&rt, &from, 6, moved, 0, None);
    says(&rt, &to, 5, moved, 1, Some(other));
    says(&rt, &to, 5, kept, 1, Some(INFO));
    Ok(())
}

#[test]
fn laws_can_be_called() {
    laws::a_turn_goes_on();
    laws::turns_make_the_fib();
}
