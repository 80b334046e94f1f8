ghost use Rattle.std.specs.Prelude.{◌≡◌, ◌<◌, ◌+◌, ◌-◌, ◌*◌, ◌/◌, ◌≤◌};
ghost use Rattle.block_layout.specs.Limits.{group_count};
ghost use Rattle.partial_fib.specs.Store.{slot_count, slot_of};

use block_layout::GROUPS;
use flow_types::Shape;

/// How many places the versions of an owner's groups take.
pub(crate) fn slots(shape: Shape) -> usize
    ensures { result ≡ slot_count shape }
{
    usize::from((shape.blocks() - 1) / shape.nodes()) * usize::from(GROUPS) + usize::from(GROUPS)
}

/// The place of a group's version.
pub(crate) fn slot(shape: Shape, block: u16, group: u8) -> usize
    requires within { block < shape.blocks }
    requires in_block { group < group_count }
    ensures value { result ≡ slot_of shape.nodes (record { block = block; group = group }) }
    ensures there { result < slot_count shape }
{
    usize::from(block / shape.nodes()) * usize::from(GROUPS) + usize::from(group)
}
