//! Seats that are made, and seats that meet.
ghost use Rattle.std.specs.Prelude.{◌≡◌};
ghost use mathlib.Core.List.{IsPrefix};
ghost use Rattle.replica_shard.specs.Seats.{IsShardReaderOf, IsShardWriterOf, seen_list, taken_list};

use crate::shard::{Shard, ShardReader, ShardWriter};

impl Shard {
    /// A reader that has seen all that the writer has taken. The writer's seat is this shard's. It takes no memory.
    pub fn reader(&self, writer: &mut ShardWriter) -> ShardReader
        requires { IsShardWriterOf self.now writer.old }
        ensures writer { IsShardWriterOf self.now writer.new }
        ensures kept { taken_list self.now writer.new ≡ taken_list self.now writer.old }
        ensures reader { IsShardReaderOf self.now result }
        ensures seen { seen_list self.now result ≡ taken_list self.now writer.old }
    {
        ShardReader {
            seat: self.table.reader(&mut writer.seat),
        }
    }

    /// The reader has then seen all that the writer has taken, and what it had seen before is the beginning of that.
    ///
    /// Both seats are this shard's. It takes no memory and waits for nobody.
    pub fn meet(&self, reader: &mut ShardReader, writer: &mut ShardWriter)
        requires reader { IsShardReaderOf self.now reader.old }
        requires writer { IsShardWriterOf self.now writer.old }
        ensures reader { IsShardReaderOf self.now reader.new }
        ensures all { seen_list self.now reader.new ≡ taken_list self.now writer.old }
        ensures before { IsPrefix (seen_list self.now reader.old) (taken_list self.now writer.old) }
        ensures writer { IsShardWriterOf self.now writer.new }
        ensures kept { taken_list self.now writer.new ≡ taken_list self.now writer.old }
    {
        self.table.meet(&mut reader.seat, &mut writer.seat);
    }
}
