ghost use Rattle.std.specs.Prelude.{ℕ, List};
ghost use Rattle.csv_rows.specs.Rows.{Row};
ghost use Rattle.flow_types.specs.Size.{Size};
ghost use Rattle.packet_reader.specs.declared.mode.Mode.{Mode};
ghost use Rattle.packet_reader.specs.declared.event.Event.{Event};
ghost use Rattle.packet_reader.specs.Events.{events_in};
ghost use Rattle.packet_reader.specs.FirstBad.{IsScript, ScriptLaw};
ghost use Rattle.packet_reader.specs.Form.{IsScriptOf};
ghost use Rattle.packet_reader.specs.Wire.{wire_events_in};

/// A law of what the rows after `begin` say: they say a script exactly where each of them breaks no rule and the last is
/// the `end`, and a bad row exactly where it breaks a rule and no row before it does. The call does nothing.
pub fn first_bad_row_law()
    ensures { (mode : Mode) (shape : Size) (begin_row : ℕ) (rest : List Row) → ScriptLaw (events_in mode shape) begin_row rest }
{}

/// A law of scripts: the events that rows say have the form of rows of their mode, the numbers of their keys and records are in
/// range, and their phases are as few as the mode may have. The call does nothing.
pub fn scripts_are_formed()
    ensures { (mode : Mode) (shape : Size) (rest : List Row) (events : List Event) → IsScript (events_in mode shape) rest events → IsScriptOf mode shape events }
{}

/// The same law of scripts with raw packets. The call does nothing.
pub fn first_bad_wire_row_law()
    ensures { (shape : Size) (begin_row : ℕ) (rest : List Row) → ScriptLaw (wire_events_in shape) begin_row rest }
{}
