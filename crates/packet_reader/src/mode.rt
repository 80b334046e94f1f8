ghost use Rattle.std.specs.Prelude.{◌≡◌};
ghost use Rattle.packet_reader.specs.Mode.{may_stand};

use crate::kind::Kind;

/// How a script is run, which decides what it may have.
#[derive(Clone, Copy, Debug, PartialEq, Eq)]
pub enum Mode {
    /// By one thread, event after event, with messages delivered as the script says.
    Replay,
    /// By many threads, with messages delivered by themselves. `sync` rows part the script into phases, at most 256, and no
    /// `carry` row may stand in it.
    Storm,
}

impl Mode {
    /// Whether rows of this kind may stand in a script of this mode.
    pub(crate) fn allows(self, kind: Kind) -> bool
        ensures { result ≡ may_stand self kind }
    {
        match self {
            Mode::Replay => true,
            Mode::Storm => kind != Kind::Carry,
        }
    }
}
