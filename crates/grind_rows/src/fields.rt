//! The fields of a row, as octets.

ghost use Rattle.std.specs.Prelude.{◌≡◌, ◌+◌, ◌≤◌, [], ◌∷◌, ◌++◌, OnOk, codes, length};
ghost use Rattle.std.specs.List.{concat};
ghost use Rattle.std.specs.Fmt.{decimal};
ghost use Rattle.flow_types.specs.Text.{address_text};
ghost use Rattle.grind_rows.specs.Rows.{flow_words, key_words};

use flow_types::{Flow, FlowKey, write_address};
use line_text::{write_count, write_words};
use std::alloc::AllocError;

/// Appends a flow's fields, each after a comma.
pub fn append_flow(text: &mut Vec<u8>, flow: Flow) -> Result<(), AllocError>
    ensures written { OnOk result (text.new.items ≡ text.old.items ++ concat (flow_words flow)) }
    ensures within { OnOk result (length text.new.items ≤ length text.old.items + 153) }
{
    append_key(text, flow.key)?;
    append_number(text, u64::from(flow.node))?;
    append_number(text, u64::from(flow.info.teid))?;
    append_address(text, flow.info.base)
}

/// Appends a key's fields, each after a comma.
pub fn append_key(text: &mut Vec<u8>, key: FlowKey) -> Result<(), AllocError>
    ensures written { OnOk result (text.new.items ≡ text.old.items ++ concat (key_words key)) }
    ensures within { OnOk result (length text.new.items ≤ length text.old.items + 95) }
{
    append_address(text, key.source)?;
    append_address(text, key.destination)?;
    append_number(text, u64::from(key.source_port))?;
    append_number(text, u64::from(key.destination_port))?;
    append_number(text, u64::from(key.protocol))
}

/// Appends a comma and an address.
fn append_address(text: &mut Vec<u8>, address: u32) -> Result<(), AllocError>
    ensures written { OnOk result (text.new.items ≡ text.old.items ++ concat (codes "," ∷ address_text address ∷ [])) }
    ensures within { OnOk result (length text.new.items ≤ length text.old.items + 16) }
{
    append(text, b",")?;
    append(text, write_address(address).as_slice())
}

/// Appends a comma and a number.
pub fn append_number(text: &mut Vec<u8>, number: u64) -> Result<(), AllocError>
    ensures written { OnOk result (text.new.items ≡ text.old.items ++ concat (codes "," ∷ decimal number ∷ [])) }
    ensures within { OnOk result (length text.new.items ≤ length text.old.items + 21) }
{
    write_count(text, b",", number)
}

/// Appends words.
pub fn append(text: &mut Vec<u8>, words: &[u8]) -> Result<(), AllocError>
    ensures written { OnOk result (text.new.items ≡ text.old.items ++ concat (words.now ∷ [])) }
    ensures within { OnOk result (length text.new.items ≤ length text.old.items + length words.now) }
{
    write_words(text, words)
}
