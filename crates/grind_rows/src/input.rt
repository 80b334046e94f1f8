ghost use Rattle.std.specs.Prelude.{◌≡◌, ◌+◌, ◌*◌, ◌≤◌, ◌++◌, IfOk, OnOk, length};
ghost use Rattle.flow_types.specs.Input.{most_octets};
ghost use Rattle.grind_rows.specs.Input.{flow_rows, grind_octets, turns};

use crate::fields::append;
use crate::made::{FLOWS, UPDATES, flow};
use crate::rows::{write_flow, write_turn};
use out_of_memory::OutOfMemory;
use std::alloc::{AllocError, Global};

/// As many octets as the rows of most seeds have at most.
const MOST_ROWS_LENGTH: usize = 2_097_152;

/// The rows of the seed: `cluster`, 16,384 flows, `begin`, 1,000 updates each with its 20 packets and after every tenth a
/// `sync`, and `end`. They are 37,487 rows of about 2 MB.
#[tactic(auto, unfolding(crate::specs::Input::grind_octets))]
pub fn grind_input(alloc: Global, seed: u32) -> Result<Vec<u8>, OutOfMemory>
    ensures rows { IfOk result (λ text. text.items ≡ grind_octets seed) }
    ensures within { IfOk result (λ text. length text.items ≤ most_octets) }
{
    let mut text = Vec::with_capacity(alloc, MOST_ROWS_LENGTH)?;
    append(&mut text, b"cluster,4,16\n")?;
    write_flows(&mut text, seed, FLOWS)?;
    append(&mut text, b"begin\n")?;
    write_turns(&mut text, seed, UPDATES)?;
    append(&mut text, b"end\n")?;
    Ok(text)
}

/// Appends the rows of the first `count` flows.
fn write_flows(text: &mut Vec<u8>, seed: u32, count: u32) -> Result<(), AllocError>
    requires { count ≤ 16384 }
    ensures written { OnOk result (text.new.items ≡ text.old.items ++ flow_rows seed count) }
    ensures within { OnOk result (length text.new.items ≤ length text.old.items + 160 * count) }
{
    'flows: for number in 0..count {
        write_flow(text, b"flow", flow(seed, number))?;
    }
    Ok(())
}

/// Appends the rows of the first `count` updates and of what follows them.
fn write_turns(text: &mut Vec<u8>, seed: u32, count: u32) -> Result<(), AllocError>
    requires { count ≤ 1000 }
    ensures written { OnOk result (text.new.items ≡ text.old.items ++ turns seed count) }
    ensures within { OnOk result (length text.new.items ≤ length text.old.items + 3520 * count) }
{
    'updates: for update in 0..count {
        write_turn(text, seed, update)?;
    }
    Ok(())
}
