ghost use Rattle.std.specs.Prelude.{◌≡◌, ◌↔◌, ◌+◌, ◌*◌, ◌≤◌, ◌++◌, All, IfSome, None, length};
ghost use Rattle.std.specs.List.{flat_map};
ghost use Rattle.arrayvec.specs.ArrayVec.{array_vec_len};
ghost use Rattle.flow_types.specs.Size.{most_value_bits};
ghost use Rattle.group_search.specs.Limits.{most_rows};
ghost use Rattle.delta_codec.specs.Fits.{Fits};
ghost use Rattle.delta_codec.specs.Limits.{longest_message, longest_short_message};
ghost use Rattle.group_search.specs.Words.{IsPair};
ghost use Rattle.group_search.specs.declared.record.GroupRecord.TheVariants as content;
ghost use Rattle.delta_codec.specs.declared.message.Message.TheVariants as whole;
ghost use Rattle.delta_codec.specs.Short.{IsOfRows};
ghost use Rattle.delta_codec.specs.Spelling.{Spells, content_octets, head, operation_octets, pair_octets, row_octets, spelling};
ghost use Rattle.flow_types.specs.Key.{IsKeyValue};
ghost use Rattle.flow_types.specs.Limits.{most_turns};
ghost use Rattle.delta_codec.specs.Values.{IsHead, IsMessage, IsOperation};

use crate::heading::{FIB, TABLE};
use crate::message::{FibMessage, FibOp, Message, TableMessage};
use arrayvec::ArrayVec;
use flow_types::Shape;
use group_search::{GroupRecord, Pair, Row, Rows, Served};

/// How many octets a message has at most: a table message with 64 rows.
pub const LONGEST_MESSAGE: usize = 905;
/// How many octets a message without rows has at most: a FIB message that puts a record.
pub const LONGEST_SHORT_MESSAGE: usize = 29;

/// The octets of a message that fits the shape: `LONGEST_MESSAGE` at most.
pub fn encode(shape: Shape, message: &Message) -> ArrayVec<u8, 1024>
    requires { Fits shape message.now }
    ensures spelled { Spells shape result.items message.now }
    ensures longest { array_vec_len result ≤ longest_message }
    ensures sized { IsMessage message.now }
{
    let mut octets = ArrayVec::new();
    match message {
        Message::Table(table) => {
            put_table_head(&mut octets, table);
            match &table.content {
                GroupRecord::Served(served) => put_served(&mut octets, served),
                GroupRecord::Fallback(rows) => put_fallback(&mut octets, rows),
            }
        }
        Message::Fib(fib) => put_fib(&mut octets, fib),
    }
    octets
}

/// The octets of a message that fits the shape, `LONGEST_SHORT_MESSAGE` at most, or `None` where it has rows.
pub fn encode_short(shape: Shape, message: &Message) -> Option<ArrayVec<u8, 32>>
    requires { Fits shape message.now }
    ensures spelled { IfSome result (λ octets. Spells shape octets.items message.now) }
    ensures longest { IfSome result (λ octets. array_vec_len octets ≤ longest_short_message) }
    ensures rows { result ≡ None ↔ IsOfRows message.now }
    ensures sized { IfSome result (λ _. IsMessage message.now) }
{
    let mut octets = ArrayVec::new();
    match message {
        Message::Table(table) => {
            let GroupRecord::Served(served) = &table.content else {
                return None;
            };
            put_table_head(&mut octets, table);
            put_served(&mut octets, served);
        }
        Message::Fib(fib) => put_fib(&mut octets, fib),
    }
    Some(octets)
}

/// Appends octets for which there is room.
fn put<const N: usize>(octets: &mut ArrayVec<u8, N>, more: &[u8])
    requires { array_vec_len octets.old + length more.now ≤ N }
    ensures items { octets.new.items ≡ octets.old.items ++ more.now }
    ensures len { array_vec_len octets.new ≡ array_vec_len octets.old + length more.now }
{
    octets.try_extend_from_slice(more).unwrap();
}

fn put_head<const N: usize>(
    octets: &mut ArrayVec<u8, N>,
    kind: u8,
    owner: u8,
    turn: u32,
    block: u16,
    group: u8,
)
    requires room { array_vec_len octets.old + 7 ≤ N }
    requires short { turn ≤ most_turns }
    ensures items { octets.new.items ≡ octets.old.items ++ head kind owner turn block group }
    ensures len { array_vec_len octets.new ≡ array_vec_len octets.old + 7 }
    ensures sized { IsHead owner turn block group }
{
    put(octets, &[kind, owner]);
    put(octets, &(turn as u16).to_be_bytes());
    put(octets, &block.to_be_bytes());
    put(octets, &[group]);
}

fn put_table_head<const N: usize>(octets: &mut ArrayVec<u8, N>, table: &TableMessage)
    requires room { array_vec_len octets.old + 7 ≤ N }
    requires short { table.now.turn ≤ most_turns }
    ensures items { octets.new.items ≡ octets.old.items ++ head 0x11 table.now.owner table.now.turn table.now.block table.now.group }
    ensures len { array_vec_len octets.new ≡ array_vec_len octets.old + 7 }
    ensures sized { IsHead table.now.owner table.now.turn table.now.block table.now.group }
{
    put_head(
        octets,
        TABLE,
        table.owner,
        table.turn,
        table.block,
        table.group,
    );
}

fn put_served<const N: usize>(octets: &mut ArrayVec<u8, N>, served: &Served)
    requires { array_vec_len octets.old + 13 ≤ N }
    ensures items { octets.new.items ≡ octets.old.items ++ content_octets (content.Served served.now) }
    ensures longest { array_vec_len octets.new ≤ array_vec_len octets.old + 13 }
    ensures sized { All IsPair served.now }
{
    put(octets, &[0]);
    put_pairs(octets, &served.pairs[..usize::from(served.bits)]);
}

fn put_fallback<const N: usize>(octets: &mut ArrayVec<u8, N>, rows: &Rows)
    requires { array_vec_len octets.old + 898 ≤ N }
    ensures items { octets.new.items ≡ octets.old.items ++ content_octets (content.Fallback rows.now) }
    ensures longest { array_vec_len octets.new ≤ array_vec_len octets.old + 898 }
    ensures sized { All (λ row. IsKeyValue row.key) rows.now }
{
    let rows = rows.as_slice();
    put(octets, &[1, rows.len() as u8]);
    put_rows(octets, rows);
}

fn put_pairs<const N: usize>(octets: &mut ArrayVec<u8, N>, pairs: &[Pair])
    requires room { array_vec_len octets.old + 12 ≤ N }
    requires few { length pairs.now ≤ most_value_bits }
    ensures items { octets.new.items ≡ octets.old.items ++ flat_map pair_octets pairs.now }
    ensures len { array_vec_len octets.new ≡ array_vec_len octets.old + 3 * length pairs.now }
    ensures sized { All IsPair pairs.now }
{
    'pairs: for pair in pairs {
        put_pair(octets, *pair);
    }
}

fn put_pair<const N: usize>(octets: &mut ArrayVec<u8, N>, pair: Pair)
    requires { array_vec_len octets.old + 3 ≤ N }
    ensures items { octets.new.items ≡ octets.old.items ++ pair_octets pair }
    ensures len { array_vec_len octets.new ≡ array_vec_len octets.old + 3 }
    ensures sized { IsPair pair }
{
    put(octets, &pair.index.to_be_bytes());
    put(octets, &[pair.array]);
}

fn put_rows<const N: usize>(octets: &mut ArrayVec<u8, N>, rows: &[Row])
    requires room { array_vec_len octets.old + 896 ≤ N }
    requires few { length rows.now ≤ most_rows }
    ensures items { octets.new.items ≡ octets.old.items ++ flat_map row_octets rows.now }
    ensures len { array_vec_len octets.new ≡ array_vec_len octets.old + 14 * length rows.now }
    ensures sized { All (λ row. IsKeyValue row.key) rows.now }
{
    'rows: for row in rows {
        put_row(octets, *row);
    }
}

fn put_row<const N: usize>(octets: &mut ArrayVec<u8, N>, row: Row)
    requires { array_vec_len octets.old + 14 ≤ N }
    ensures items { octets.new.items ≡ octets.old.items ++ row_octets row }
    ensures len { array_vec_len octets.new ≡ array_vec_len octets.old + 14 }
    ensures sized { IsKeyValue row.key }
{
    put(octets, &row.key.to_bytes());
    put(octets, &[row.node]);
}

fn put_fib<const N: usize>(octets: &mut ArrayVec<u8, N>, fib: &FibMessage)
    requires room { array_vec_len octets.old + longest_short_message ≤ N }
    requires short { fib.now.turn ≤ most_turns }
    ensures items { octets.new.items ≡ octets.old.items ++ spelling (whole.Fib fib.now) }
    ensures longest { array_vec_len octets.new ≤ array_vec_len octets.old + longest_short_message }
    ensures sized { IsMessage (whole.Fib fib.now) }
{
    put_head(octets, FIB, fib.owner, fib.turn, fib.block, fib.group);
    put_operation(octets, fib.op);
}

fn put_operation<const N: usize>(octets: &mut ArrayVec<u8, N>, op: FibOp)
    requires { array_vec_len octets.old + 22 ≤ N }
    ensures items { octets.new.items ≡ octets.old.items ++ operation_octets op }
    ensures longest { array_vec_len octets.new ≤ array_vec_len octets.old + 22 }
    ensures sized { IsOperation op }
{
    match op {
        FibOp::Nothing => put(octets, &[0]),
        FibOp::Put(key, info) => {
            put(octets, &[1]);
            put(octets, &key.to_bytes());
            put(octets, &info.teid.to_be_bytes());
            put(octets, &info.base.to_be_bytes());
        }
        FibOp::Drop(key) => {
            put(octets, &[2]);
            put(octets, &key.to_bytes());
        }
    }
}
