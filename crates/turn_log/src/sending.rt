//! How the messages of a turn are put behind those of the turns before it.

ghost use Rattle.std.specs.Prelude.{◌≡◌, ◌+◌, ◌≤◌, ℕ, IfSome, Some, None, option_map, vec_capacity, vec_len};
ghost use mathlib.Core.List.{IsPrefix};
ghost use Rattle.delta_codec.specs.declared.message.FibOp.TheVariants.{Drop, Put};
ghost use Rattle.delta_codec.specs.declared.message.Message.TheVariants.{Fib, Table};
ghost use Rattle.delta_codec.specs.Fits.{ContentFits, HeadFits};
ghost use Rattle.flow_types.specs.Key.{IsKeyValue};
ghost use Rattle.flow_types.specs.Map.{IsRecordValue};
ghost use Rattle.delta_codec.specs.Values.{IsContent};
ghost use Rattle.turn_log.specs.Sent.{IsSpelledAt, fib_place};
ghost use Rattle.turn_log.specs.Turn.{fib_with, head_of, op_in, table_with};

use crate::message::TurnHead;
use crate::octets::put_message;
use crate::sent::{SentTo, SentTurn};
use delta_codec::FibOp;
use flow_types::{FlowKey, Record, Shape};
use rib_owner::Turn;

/// The octets of a turn's messages, at most: of the one for tables, and of those for FIBs that do nothing, put and drop.
pub(crate) const MOST_OCTETS: usize = 905 + 8 + 29 + 21;

/// Puts a turn's messages behind the octets, which have room for them, and tells where they begin. It takes no memory.
pub(crate) fn put_turn(octets: &mut Vec<u8>, shape: Shape, owner: u8, turn: Turn) -> SentTurn
    requires head { HeadFits shape owner turn.number turn.change.block turn.change.group }
    requires content { ContentFits shape turn.content }
    requires record { IsContent turn.content }
    requires key { IsKeyValue turn.change.key }
    requires info { IfSome turn.change.to (λ to. IsRecordValue to.1) }
    requires room { vec_len octets.old + 963 ≤ vec_capacity octets.old }
    ensures appended { IsPrefix octets.old.items octets.new.items }
    ensures table { IsSpelledAt shape octets.new.items result.table (Table (table_with (head_of owner turn) turn.content)) }
    ensures fib { (node : ℕ) → IsSpelledAt shape octets.new.items (fib_place node result) (Fib (fib_with (head_of owner turn) (op_in node turn))) }
{
    let Turn {
        number,
        change,
        content,
        fib,
    } = turn;
    let head = TurnHead {
        owner,
        turn: number,
        block: change.block,
        group: change.group,
    };
    let table = put_message(octets, shape, &head.table(content));
    let nothing = put_message(octets, shape, &head.fib(FibOp::Nothing));
    let put = send_put(octets, shape, head, change.key, change.to);
    let drop = send_drop(octets, shape, head, change.key, fib.drop);
    SentTurn {
        table,
        put,
        drop,
        nothing,
    }
}

/// Puts the message for the FIB of the node where the key goes, if it goes anywhere.
fn send_put(
    octets: &mut Vec<u8>,
    shape: Shape,
    head: TurnHead,
    key: FlowKey,
    to: Option<(u8, Record)>,
) -> Option<SentTo>
    requires head { HeadFits shape head.owner head.turn head.block head.group }
    requires key { IsKeyValue key }
    requires info { IfSome to (λ t. IsRecordValue t.1) }
    requires room { vec_len octets.old + 29 ≤ vec_capacity octets.old }
    ensures appended { IsPrefix octets.old.items octets.new.items }
    ensures len { vec_len octets.new ≤ vec_len octets.old + 29 }
    ensures capacity { vec_capacity octets.old ≤ vec_capacity octets.new }
    ensures node { option_map (λ own. own.node) result ≡ option_map (λ t. t.0) to }
    ensures spelled { IfSome result (λ own. IfSome to (λ t. IsSpelledAt shape octets.new.items own.at (Fib (fib_with head (Put key t.1))))) }
{
    match to {
        Some((node, info)) => Some(SentTo {
            node,
            at: put_message(octets, shape, &head.fib(FibOp::Put(key, info))),
        }),
        None => None,
    }
}

/// Puts the message for the FIB of the node that the key leaves, if it leaves any.
fn send_drop(
    octets: &mut Vec<u8>,
    shape: Shape,
    head: TurnHead,
    key: FlowKey,
    from: Option<u8>,
) -> Option<SentTo>
    requires head { HeadFits shape head.owner head.turn head.block head.group }
    requires key { IsKeyValue key }
    requires room { vec_len octets.old + 21 ≤ vec_capacity octets.old }
    ensures appended { IsPrefix octets.old.items octets.new.items }
    ensures node { option_map (λ own. own.node) result ≡ from }
    ensures spelled { IfSome result (λ own. IsSpelledAt shape octets.new.items own.at (Fib (fib_with head (Drop key)))) }
{
    match from {
        Some(node) => Some(SentTo {
            node,
            at: put_message(octets, shape, &head.fib(FibOp::Drop(key))),
        }),
        None => None,
    }
}
