ghost use Rattle.std.specs.Prelude.{◌≡◌, length};
ghost use mathlib.Core.List.{IsPrefix};
ghost use Rattle.partial_fib.specs.Ends.{IsLater};

use crate::sharing::reader::FibReader;
use crate::sharing::writer::FibWriter;
use std::sync::Wait;

/// Lets a reader see all that is published. Both come from one `share`.
///
/// It looks until the reader has seen as many turns as are published. It takes no memory.
pub fn told<R: Wait>(rt: &R, reader: &mut FibReader, writer: &mut FibWriter)
    requires { reader.old.book ≡ writer.old.book }
    ensures told { reader.new ≡ record reader.old { turns = writer.old.turns } }
    ensures before { IsPrefix reader.old.turns writer.old.turns }
    ensures writer { writer.new ≡ writer.old }
{
    'looks: for _ in rt.forever() {
        reader.look(rt);
        if reader.taken() == writer.taken() {
            agree(reader, writer);
            return;
        }
    }
    unreachable!()
}

/// Of one sharing as many turns are the same turns.
fn agree(reader: &FibReader, writer: &FibWriter)
    requires one { reader.now.book ≡ writer.now.book }
    requires count { length reader.now.turns ≡ length writer.now.turns }
    ensures { reader.now.turns ≡ writer.now.turns }
{
    let mut both = reader.past().again();
    both.learn(writer.past());
}
