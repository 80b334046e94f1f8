//! The rows of an input, which is read whole before a cluster is opened.

ghost use Rattle.std.specs.Prelude.{◌≡◌, ◌≤◌, IfErr, IfOk, IfSome, Some, length};
ghost use Rattle.csv_rows.specs.Rows.{rows};
ghost use Rattle.flow_reader.specs.Fit.{IsFit};
ghost use Rattle.flow_types.specs.Input.{most_octets};
ghost use Rattle.cluster_open.specs.Input.{fault_in};
ghost use Rattle.packet_reader.specs.Form.{IsScriptOf};
ghost use Rattle.cluster_open.specs.Limits.{named_fault};
ghost use Rattle.cluster_open.specs.Reading.{IsReadFrom};

use crate::fault::InputFault;
use csv_rows::RowReader;
use flow_reader::{Opening, read_opening_from};
use packet_reader::{Event, Mode, read_script_from};
use std::alloc::Global;

/// What the rows of an input say. Nothing of it borrows the input, which can be freed.
#[derive(Debug, Drop)]
pub struct InputRows {
    /// What the rows up to `begin` say.
    pub opening: Opening,
    /// What the rows after it say.
    pub script: Vec<Event>,
}

/// Reads all rows of an input, whose script is of this mode. The fault is the first row that breaks a rule.
#[tactic(auto, unfolding(crate::specs::Input::input_in))]
pub fn read_rows(alloc: Global, bytes: &[u8], mode: Mode) -> Result<InputRows, InputFault>
    requires { length bytes.now ≤ most_octets }
    ensures read { IfOk result (λ input. IsReadFrom mode bytes.now input.opening input.script.items) }
    ensures fit { IfOk result (λ input. IsFit (rows bytes.now) input.opening) }
    ensures script { IfOk result (λ input. IsScriptOf mode input.opening.shape input.script.items) }
    ensures refused { IfErr result (λ fault. IfSome (named_fault fault) (λ named. fault_in mode bytes.now ≡ Some named)) }
{
    let mut reader = RowReader::new(alloc, bytes);
    let opening = read_opening_from(alloc, &mut reader)?;
    let script = read_script_from(alloc, &mut reader, opening.begin_row, opening.shape, mode)?;
    Ok(InputRows { opening, script })
}

/// What `read_rows` answers for the octets, which are freed then.
pub fn read_vec(alloc: Global, bytes: Vec<u8>, mode: Mode) -> Result<InputRows, InputFault>
    requires { length bytes.items ≤ most_octets }
    ensures read { IfOk result (λ input. IsReadFrom mode bytes.items input.opening input.script.items) }
    ensures fit { IfOk result (λ input. IsFit (rows bytes.items) input.opening) }
    ensures script { IfOk result (λ input. IsScriptOf mode input.opening.shape input.script.items) }
    ensures refused { IfErr result (λ fault. IfSome (named_fault fault) (λ named. fault_in mode bytes.items ≡ Some named)) }
{
    read_rows(alloc, bytes.as_slice(), mode)
}
