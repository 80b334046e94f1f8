//! An owner's turns are taken.
ghost use Rattle.std.specs.Prelude.{◌≡◌, ◌↔◌, ◌<◌, ◌+◌, ◌∷◌, [], ◌++◌, ℕ, OnOk, OnErr, IsErrOf, length};
ghost use Rattle.group_search.specs.Canon.{rows_in};
ghost use Rattle.delta_codec.specs.Turns.{IsEarly, IsForeign, IsRepeat};
ghost use Rattle.replica_shard.specs.declared.refused.ShardRefused.TheVariants.{Foreign, Repeat, Early, RowsFull};
ghost use Rattle.delta_codec.specs.Messages.{TableMessageFits};
ghost use Rattle.replica_shard.specs.Owners.{publication_of};
ghost use Rattle.replica_shard.specs.Seats.{IsShardWriterOf, shard_taken, taken_list};
ghost use Rattle.replica_shard.specs.Shard.{free_rows, with_content};
ghost use Rattle.replica_shard.specs.Store.{shard_state_of};

use crate::refused::ShardRefused;
use crate::shard::{Shard, ShardWriter};
use delta_codec::TableMessage;

impl Shard {
    /// Takes the owner's next turn: the message's group has the message's record from now on, and its version rises by 1.
    ///
    /// The message fits the cluster's shape, and the seat is this shard's. It takes no memory and waits for nobody.
    pub fn apply(
        &self,
        writer: &mut ShardWriter,
        message: &TableMessage,
    ) -> Result<(), ShardRefused>
        requires writer { IsShardWriterOf self.now writer.old }
        requires fits { TableMessageFits self.now.shape message.now }
        ensures writer { IsShardWriterOf self.now writer.new }
        ensures listed { OnOk result (taken_list self.now writer.new ≡ taken_list self.now writer.old ++ publication_of message.now ∷ []) }
        ensures taken { OnOk result (shard_state_of (shard_taken self.now writer.new) ≡ with_content (shard_state_of (shard_taken self.now writer.old)) message.now) }
        ensures foreign { (owner : ℕ) → IsErrOf result (Foreign owner) ↔ IsForeign self.now.owner message.now.owner owner }
        ensures repeat { (have : ℕ) → IsErrOf result (Repeat have) ↔
            IsRepeat self.now.owner (length (taken_list self.now writer.old)) message.now.owner message.now.turn have }
        ensures early { (have : ℕ) → IsErrOf result (Early have) ↔
            IsEarly self.now.owner (length (taken_list self.now writer.old)) message.now.owner message.now.turn have }
        ensures rows_full { (needed free : ℕ) → IsErrOf result (RowsFull needed free) ↔
            ((message.now.owner ≡ self.now.owner) × (message.now.turn ≡ length (taken_list self.now writer.old) + 1) ×
            (needed ≡ rows_in message.now.content) ×
            (free ≡ free_rows (shard_state_of (shard_taken self.now writer.old)) message.now.block message.now.group) × (free < needed)) }
        ensures refused { OnErr result (writer.new ≡ writer.old) }
    {
        if message.owner != self.owner {
            return Err(ShardRefused::Foreign {
                owner: message.owner,
            });
        }
        let have = writer.taken;
        if message.turn <= have {
            return Err(ShardRefused::Repeat { have });
        }
        if message.turn > have + 1 {
            return Err(ShardRefused::Early { have });
        }
        let block = self.cell_block(message.block);
        let needed = message.content.rows();
        let free = self.table.room(&writer.seat, block, message.group);
        if needed > free {
            return Err(ShardRefused::RowsFull { needed, free });
        }
        self.table
            .publish(&mut writer.seat, block, message.group, &message.content);
        writer.taken += 1;
        Ok(())
    }

    /// How many turns of the owner the writer has taken. The seat is this shard's. It takes no memory.
    pub fn taken(&self, writer: &ShardWriter) -> u32
        requires { IsShardWriterOf self.now writer.now }
        ensures { result ≡ length (taken_list self.now writer.now) }
    {
        writer.taken
    }
}
