ghost use Rattle.std.specs.Prelude.{◌≡◌};
ghost use Rattle.turn_log.specs.Sent.{fib_place, place_for};

/// A node, and where a message for it alone begins.
#[derive(Clone, Copy)]
pub(crate) struct SentTo {
    pub(crate) node: u8,
    pub(crate) at: usize,
}

impl SentTo {
    /// Where the message for a node begins: here, if there is one of its own, and else elsewhere.
    fn place(own: Option<SentTo>, node: u8, elsewhere: usize) -> usize
        ensures { result ≡ place_for node own elsewhere }
    {
        match own {
            Some(own) if own.node == node => own.at,
            _ => elsewhere,
        }
    }
}

/// Where the messages of a turn begin among the octets.
#[derive(Clone, Copy)]
pub(crate) struct SentTurn {
    /// The message for the nodes' tables.
    pub(crate) table: usize,
    /// The message for the FIB of the node that puts the key's record.
    pub(crate) put: Option<SentTo>,
    /// The message for the FIB of the node that drops the key's record.
    pub(crate) drop: Option<SentTo>,
    /// The message for the FIBs of all other nodes.
    pub(crate) nothing: usize,
}

impl SentTurn {
    /// Where the message for a node's FIB begins.
    pub(crate) fn fib(&self, node: u8) -> usize
        ensures { result ≡ fib_place node self.now }
    {
        SentTo::place(self.put, node, SentTo::place(self.drop, node, self.nothing))
    }
}
