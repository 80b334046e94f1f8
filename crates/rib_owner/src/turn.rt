ghost use Rattle.std.specs.Prelude.{◌≡◌};
ghost use Rattle.rib_owner.specs.Turn.{plan_of};

use flow_types::Flow;
use group_history::{Change, Update};
use group_search::GroupRecord;

/// Which nodes change their records for a turn.
#[derive(Clone, Copy, Debug, PartialEq, Eq)]
pub struct FibPlan {
    /// The node that puts the key's record.
    pub put: Option<u8>,
    /// The node that drops the key's record: where the key was, unless it stays there.
    pub drop: Option<u8>,
}

impl FibPlan {
    /// The plan of an update of a key that had this flow.
    pub(crate) fn of(update: &Update, before: Option<Flow>) -> FibPlan
        ensures { result ≡ plan_of update.now before }
    {
        match (update, before) {
            (Update::Set(new), Some(old)) => FibPlan {
                put: Some(new.node),
                drop: if old.node == new.node {
                    None
                } else {
                    Some(old.node)
                },
            },
            (Update::Set(new), None) => FibPlan {
                put: Some(new.node),
                drop: None,
            },
            (Update::Del(_), Some(old)) => FibPlan {
                put: None,
                drop: Some(old.node),
            },
            (Update::Del(_), None) => FibPlan {
                put: None,
                drop: None,
            },
        }
    }
}

/// An accepted update, with what it tells the nodes.
#[derive(Debug, Drop)]
pub struct Turn {
    /// The turn's number, which is the place of its change in the journal, from 1.
    pub number: u32,
    /// The change.
    pub change: Change,
    /// The canonical record of the changed group.
    pub content: GroupRecord,
    /// Which nodes change their records.
    pub fib: FibPlan,
}
