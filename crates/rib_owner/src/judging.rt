//! The judgement of an update by its key's block, one case after another.

ghost use Rattle.std.specs.Prelude.{◌≡◌, ◌<◌, ◌≤◌, ℕ, IfOk, Some, length};
ghost use Rattle.flow_types.specs.Map.{flow_at};
ghost use Rattle.flow_types.specs.Size.{most_value_bits};
ghost use Rattle.group_search.specs.Canon.{canonical, rows_in};
ghost use Rattle.group_search.specs.Records.{entries};
ghost use Rattle.group_history.specs.Change.{step};
ghost use Rattle.group_history.specs.Acceptance.{change_at, grounds_in, refusal_of_place, updated_key};
ghost use Rattle.rib_owner.specs.Judging.{Follows, refusal_in_rows};
ghost use Rattle.rib_owner.specs.Part.{IsKeptPart, rows_free};
ghost use Rattle.rib_owner.specs.Rib.{map_in};
ghost use Rattle.rib_owner.specs.Stock.{part_in};

use crate::block::OwnedBlock;
use flow_types::Flow;
use group_history::{Change, Update, UpdateRefused};
use group_search::{Entry, GroupRecord, MOST_ENTRIES, canon};

/// Refuses to remove a key that isn't there, and to set a new one in a full block. `before` is what was found at the key.
pub(crate) fn check_place(
    block: &OwnedBlock,
    number: u16,
    group: u8,
    update: &Update,
    before: Option<Flow>,
) -> Result<(), UpdateRefused>
    requires { before ≡ flow_at (updated_key update.now) (map_in (part_in block.now) group) }
    ensures { (bits turns : ℕ) → Follows (refusal_of_place update.now (grounds_in bits turns (record { block = number; group = group }) (map_in (part_in block.now)) update.now)) result }
{
    if before.is_some() {
        return Ok(());
    }
    match update {
        Update::Del(_) => Err(UpdateRefused::Absent),
        Update::Set(_) if block.keys() as usize == MOST_ENTRIES => {
            Err(UpdateRefused::BlockFull { block: number })
        }
        Update::Set(_) => Ok(()),
    }
}

/// The canonical record of a group's map after a change. Refused where it takes more rows than the block's other groups
/// leave.
pub(crate) fn fitting_record(
    block: &OwnedBlock,
    bits: u8,
    change: &Change,
    room: &mut Vec<Entry>,
) -> Result<GroupRecord, UpdateRefused>
    requires enough_bits { 1 ≤ bits }
    requires few_bits { bits ≤ most_value_bits }
    requires kept { IsKeptPart bits (part_in block.now) }
    requires in_range { change.now.group < 64 }
    requires few { length (step (map_in (part_in block.now) change.now.group) change.now) ≤ 1536 }
    ensures rows { Follows (refusal_in_rows bits (part_in block.now) change.now) result }
    ensures record { IfOk result (λ content. canonical bits (entries (step (map_in (part_in block.now) change.now.group) change.now)) ≡ Some content) }
    ensures free { IfOk result (λ content. rows_in content ≤ rows_free (part_in block.now) change.now.group) }
{
    let free = block.rows_left(change.group);
    block.gather(change.group, change, room)?;
    match canon(room.as_slice(), bits) {
        Ok(content) if content.rows() as usize <= free => Ok(content),
        Ok(content) => Err(UpdateRefused::RowsFull {
            block: change.block,
            needed: u32::from(content.rows()),
            free: free as u32,
        }),
        Err(too_many) => Err(UpdateRefused::RowsFull {
            block: change.block,
            needed: u32::from(too_many.keys),
            free: free as u32,
        }),
    }
}
