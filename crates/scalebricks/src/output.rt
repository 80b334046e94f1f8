//! What a run prints, and the status with which it ends then.

ghost use Rattle.std.specs.Prelude.{◌≡◌, ◌≢◌, ◌≤◌, ◌⊎◌, IfOk, OnOk, string_bytes};
ghost use Rattle.std.specs.Io.KnownBytes.{Appends};
ghost use Rattle.sb_io.specs.Faults.{Rose};
ghost use Rattle.sb_io.specs.Streams.{AppendsPart};
ghost use Rattle.scalebricks.specs.Printed.{IsRefused, printed};
ghost use Rattle.scalebricks.specs.Status.{code};
ghost use Rattle.scalebricks.specs.Status.Status.{InputRefused, WriteFailed};

use crate::refusal::{refused_block, refused_row};
use crate::status::{INPUT_REFUSED, WRITE_FAULT};
use cluster_replay::InputFault;
use out_of_memory::OutOfMemory;
use sb_io::{Sink, WriteFault, write_all};
use std::alloc::Global;

/// All that a run prints, and the status with which it ends once that is written.
#[derive(Debug, Drop)]
pub struct Output {
    /// What is printed.
    pub text: Vec<u8>,
    /// The status.
    pub status: u8,
}

/// The output of rows that are refused: the line of the first bad row, or of the first block past a limit.
pub fn refused(alloc: Global, fault: InputFault) -> Result<Output, OutOfMemory>
    ensures text { IfOk result (λ made. made.text.items ≡ printed (Err fault)) }
    ensures status { IfOk result (λ made. made.status ≡ code InputRefused) }
    ensures known { OnOk result (IsRefused (Err fault)) }
{
    let line = match fault {
        InputFault::Bad(bad) => refused_row(alloc, bad)?,
        InputFault::BlockFull { block } => refused_block(alloc, block, "BlockFull")?,
        InputFault::RowsFull { block } => refused_block(alloc, block, "RowsFull")?,
        InputFault::OutOfMemory => return Err(OutOfMemory),
    };
    Ok(output_of(line))
}

/// The output of this line, of rows that are refused.
fn output_of(line: String) -> Output
    ensures text { result.text.items ≡ string_bytes line }
    ensures status { result.status ≡ code InputRefused }
{
    let status = INPUT_REFUSED;
    Output {
        text: line.into_bytes(),
        status,
    }
}

/// Writes the output, and answers the status.
pub fn print_output<K: Sink>(made: Output, output: &mut K) -> u8
    requires { made.status ≢ code WriteFailed }
    ensures status { (result ≡ made.status) ⊎ (result ≡ code WriteFailed) }
    ensures written { result ≡ made.status → Appends (K.held output.old) (K.held output.new) made.text.items }
    ensures write_fault { result ≡ code WriteFailed → Rose (K.faults output.old) (K.faults output.new) }
    ensures cut_short { result ≡ code WriteFailed → AppendsPart (K.held output.old) (K.held output.new)
        made.text.items }
    ensures never_falls { K.faults output.old ≤ K.faults output.new }
{
    match write_all(output, &made.text) {
        Ok(()) => made.status,
        Err(WriteFault) => WRITE_FAULT,
    }
}
