//! The rows of a grind, as octets.

ghost use Rattle.std.specs.Prelude.{◌≡◌, ◌+◌, ◌*◌, ◌<◌, ◌≤◌, ◌^◌, ◌++◌, OnOk, length};
ghost use Rattle.grind_rows.specs.Input.{packet_rows, sync_rows, turn, update_row};
ghost use Rattle.grind_rows.specs.Rows.{del_row, flow_row, packet_text};

use crate::fields::{append, append_flow, append_key, append_number};
use crate::made::{PACKETS, changed_flow, ingress, moved_flow, new_flow, packet_key, packets_draw};
use flow_types::{Flow, FlowKey};
use std::alloc::AllocError;

/// Appends the row of this kind, of at most four letters, about a flow.
#[tactic(auto, unfolding(crate::specs::Rows::flow_row))]
pub fn write_flow(text: &mut Vec<u8>, kind: &[u8], flow: Flow) -> Result<(), AllocError>
    requires { length kind.now ≤ 4 }
    ensures written { OnOk result (text.new.items ≡ text.old.items ++ flow_row kind.now flow) }
    ensures within { OnOk result (length text.new.items ≤ length text.old.items + 160) }
{
    append(text, kind)?;
    append_flow(text, flow)?;
    append(text, b"\n")
}

fn write_del(text: &mut Vec<u8>, key: FlowKey) -> Result<(), AllocError>
    ensures written { OnOk result (text.new.items ≡ text.old.items ++ del_row key) }
    ensures within { OnOk result (length text.new.items ≤ length text.old.items + 160) }
{
    append(text, b"del")?;
    append_key(text, key)?;
    append(text, b"\n")
}

fn write_packet(text: &mut Vec<u8>, ingress: u8, key: FlowKey) -> Result<(), AllocError>
    ensures written { OnOk result (text.new.items ≡ text.old.items ++ packet_text ingress key) }
    ensures within { OnOk result (length text.new.items ≤ length text.old.items + 160) }
{
    append(text, b"packet")?;
    append_number(text, u64::from(ingress))?;
    append_key(text, key)?;
    append(text, b"\n")
}

/// Appends the row of an update: of each four, two move a flow, one deletes one, and one sets a new one.
fn write_update(text: &mut Vec<u8>, seed: u32, update: u32) -> Result<(), AllocError>
    requires { update < 1000 }
    ensures written { OnOk result (text.new.items ≡ text.old.items ++ update_row seed update) }
    ensures within { OnOk result (length text.new.items ≤ length text.old.items + 160) }
{
    match update % 4 {
        3 => write_flow(text, b"set", new_flow(seed, update)),
        2 => write_del(text, changed_flow(seed, update).key),
        _ => write_flow(text, b"set", moved_flow(seed, update)),
    }
}

/// Appends the rows of `count` packets, two draws each, from the draw of the number `first` on.
fn write_packets(text: &mut Vec<u8>, seed: u32, first: u32, count: u32) -> Result<(), AllocError>
    requires few { count ≤ 20 }
    requires low { first < 2 ^ 30 }
    ensures written { OnOk result (text.new.items ≡ text.old.items ++ packet_rows seed first count) }
    ensures within { OnOk result (length text.new.items ≤ length text.old.items + 160 * count) }
{
    'packets: for packet in 0..count {
        let number = first + 2 * packet;
        write_packet(text, ingress(seed, number), packet_key(seed, number + 1))?;
    }
    Ok(())
}

/// Appends the `sync` that follows every tenth update and its packets.
fn write_sync(text: &mut Vec<u8>, update: u32) -> Result<(), AllocError>
    ensures written { OnOk result (text.new.items ≡ text.old.items ++ sync_rows update) }
    ensures within { OnOk result (length text.new.items ≤ length text.old.items + 160) }
{
    if update % 10 == 9 {
        append(text, b"sync\n")
    } else {
        Ok(())
    }
}

/// Appends the rows of an update and of what follows it before the next.
#[tactic(auto, unfolding(crate::specs::Input::turn))]
pub fn write_turn(text: &mut Vec<u8>, seed: u32, update: u32) -> Result<(), AllocError>
    requires { update < 1000 }
    ensures written { OnOk result (text.new.items ≡ text.old.items ++ turn seed update) }
    ensures within { OnOk result (length text.new.items ≤ length text.old.items + 3520) }
{
    write_update(text, seed, update)?;
    write_packets(text, seed, packets_draw(update), PACKETS)?;
    write_sync(text, update)
}
