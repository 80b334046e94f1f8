ghost use Rattle.std.specs.Prelude.{◌≡◌, ◌<◌, ◌≤◌, All, IfOk, IfSome, sum_by};
ghost use Rattle.group_search.specs.Canon.{rows_in};
ghost use Rattle.group_search.specs.Words.{HasBits};
ghost use Rattle.group_search.specs.Records.{HasNodes};
ghost use Rattle.packet_path.specs.Fibs.{AreFibsOf, IsFibOf};

use crate::{TableSeat, ViewSeat};
use block_layout::choose;
use delta_codec::{FibMessage, FibOp, Message, TableMessage, fits};
use flow_types::{FlowKey, Record, Shape};
use group_search::{BlockImage, GroupRecord, Pair, Row, Rows, Served};
use hash_family::{HashedKey, place};
use partial_fib::{Fib, FibReader, FibWriter, share};
use replica_shard::Shard;
use run_model::Reply;
use std::alloc::{AllocError, Global};
use std::process::Abort;
use std::sync::Wait;
use std::test::Fail;

const KEY: FlowKey = FlowKey {
    source: 1,
    destination: 2,
    source_port: 7,
    destination_port: 443,
    protocol: 6,
};

const INFO: Record = Record { teid: 77, base: 9 };

/// A record of one bit that gives each key this node of two.
fn giving(node: u8) -> GroupRecord
    ensures bits { HasBits 1 result }
    ensures nodes { HasNodes 2 result }
    ensures rows { rows_in result ≡ 0 }
{
    let zero = Pair { index: 0, array: 0 };
    let pair = Pair {
        index: 0,
        array: if node == 0 { 0 } else { 255 },
    };
    let pairs = [pair, zero, zero, zero];
    GroupRecord::Served(Served { bits: 1, pairs })
}

/// A record of rows that gives the key no node.
fn giving_none() -> Result<GroupRecord, Fail> {
    let row = |source_port: u16| Row {
        key: FlowKey { source_port, ..KEY },
        node: 0,
    };
    Ok(GroupRecord::Fallback(Rows::of(&[row(8), row(9)]).ok_or("rows")?))
}

/// An image whose every record gives each key the node 1.
fn image(alloc: Global) -> Result<BlockImage, AllocError>
    ensures rows { IfOk result (λ image. sum_by rows_in image.records ≤ 64) }
    ensures bits { IfOk result (λ image. All (HasBits 1) image.records) }
    ensures nodes { IfOk result (λ image. All (HasNodes 2) image.records) }
{
    let mut records = Vec::new(alloc);
    'records: for _ in 0..64u8 {
        records.push(giving(1))?;
    }
    Ok(BlockImage::new(choose(&[0; 256]), records))
}

/// Two nodes with one block.
fn shape() -> Result<Shape, Fail>
    ensures { IfOk result (λ shape. shape ≡ record { nodes = 2; blocks = 1 }) }
{
    Ok(Shape::new(2, 1).ok_or("shape")?)
}

/// The table of the one block of two nodes, which gives each key the node 1.
#[tactic(auto, using(crate::proofs::Pairs::one_table))]
fn table(alloc: Global) -> Result<(Shape, TableSeat), Fail>
    ensures size { IfOk result (λ r. r.0 ≡ record { nodes = 2; blocks = 1 }) }
    ensures shape { IfOk result (λ r. r.1.shard.shape ≡ record { nodes = 2; blocks = 1 }) }
    ensures owner { IfOk result (λ r. r.1.shard.owner ≡ 0) }
{
    let shape = shape()?;
    let images = [image(alloc)?];
    let (shard, writer) = Shard::open(alloc, shape, 0, &images)?;
    Ok((shape, TableSeat::new(alloc, shard, writer)?))
}

/// Both ends of a node's FIB of this block, without a record.
fn ends<R: Wait>(rt: &R, alloc: Global, node: u8) -> Option<(FibWriter, FibReader)>
    requires { node < 2 }
    ensures writer { IfSome result (λ r. r.0.opening.size ≡ record { nodes = 2; blocks = 1 }) }
    ensures reader { IfSome result (λ r. IsFibOf (record { nodes = 2; blocks = 1 }) 0 node r.1.opening) }
{
    let shape = Shape::new(2, 1)?;
    let fib = Fib::open(alloc, shape, node, 0, &[]).ok()?;
    match share(rt, alloc, fib, 1) {
        Ok((writer, mut readers)) => match readers.pop() {
            Some(reader) => Some((writer, reader)),
            None => {
                writer.close(rt);
                None
            }
        },
        Err(_) => None,
    }
}

/// A message of the owner of the one block, which fits.
fn turn_of(turn: u32, group: u8, content: GroupRecord) -> TableMessage {
    TableMessage {
        owner: 0,
        turn,
        block: 0,
        group,
        content,
    }
}

/// The table takes the message.
fn takes(rt: &impl Abort, shape: Shape, table: &mut TableSeat, message: TableMessage)
    requires shape { table.old.shard.shape ≡ shape }
    ensures { table.new.shard ≡ table.old.shard }
{
    let message = Message::Table(message);
    assert!(rt; fits(shape, &message));
    if let Message::Table(told) = &message {
        assert_eq!(rt; table.apply(told), Ok(()));
    }
}

/// The FIB takes the message.
fn puts<R: Abort + Wait>(rt: &R, shape: Shape, fib: &mut FibWriter, group: u8)
    requires shape { fib.old.opening.size ≡ shape }
    ensures { fib.new.opening ≡ fib.old.opening }
{
    let message = Message::Fib(FibMessage {
        owner: 0,
        turn: 1,
        block: 0,
        group,
        op: FibOp::Put(KEY, INFO),
    });
    assert!(rt; fits(shape, &message));
    if let Message::Fib(told) = &message {
        assert_eq!(rt; fib.apply(rt, told), Ok(()));
    }
}

/// The paths of a packet, before each of two turns of its group and after them.
fn walks<R: Abort + Wait>(
    rt: &R,
    shape: Shape,
    table: &mut TableSeat,
    view: &mut ViewSeat,
    fib: &mut FibWriter,
    fibs: &mut [FibReader],
) -> Result<[Reply; 4], Fail>
    requires size { shape ≡ record { nodes = 2; blocks = 1 } }
    requires shape { table.old.shard.shape ≡ shape }
    requires view { (view.old.shard.shape ≡ shape) × (view.old.shard.owner ≡ 0) }
    requires fib { fib.old.opening.size ≡ shape }
    requires fibs { AreFibsOf shape 0 fibs.old }
{
    let at = place(shape, KEY);
    if at.block % 2 != 0 {
        return Err(Fail::from("the owner's block"));
    }
    let group = (at.bucket % 64) as u8;
    let key = HashedKey::of(&KEY);
    let first = view.path(rt, &key, fibs);
    takes(rt, shape, table, turn_of(1, group, giving(0)));
    let moved = view.path(rt, &key, fibs);
    puts(rt, shape, fib, group);
    let known = view.path(rt, &key, fibs);
    takes(rt, shape, table, turn_of(2, group, giving_none()?));
    Ok([first, moved, known, view.path(rt, &key, fibs)])
}

#[test]
#[tactic(auto, using(crate::proofs::Pairs::two_fibs))]
fn paths_follow_what_tables_and_fibs_have_taken(rt: HostRuntime) -> Result<(), Fail> {
    let (shape, mut table) = table(rt.alloc())?;
    let mut view = table.view()?;
    let Some((mut here, first)) = ends(&rt, rt.alloc(), 0) else {
        return Err(Fail::from("a FIB"));
    };
    let Some((there, second)) = ends(&rt, rt.alloc(), 1) else {
        here.close(&rt);
        return Err(Fail::from("a FIB"));
    };
    let mut fibs = [first, second];
    let paths = walks(&rt, shape, &mut table, &mut view, &mut here, &mut fibs);
    here.close(&rt);
    there.close(&rt);
    let known = Reply::Found {
        node: 0,
        seen: 1,
        fib: 1,
        info: INFO,
    };
    let unknown = |node: u8, seen: u32| Reply::Unknown { node, seen, fib: 0 };
    let expected = [
        unknown(1, 0),
        unknown(0, 1),
        known,
        Reply::Nowhere { seen: 2 },
    ];
    assert_eq!(rt; paths?, expected);
    Ok(())
}
