use crate::rule::{Line, Port};
use std::alloc::Global;
use std::marker::Model;
use std::sync::Arc;

/// The end of a link that sends. A contract sees its link, the shape of the messages, and all that it sent.
#[derive(Drop)]
pub struct SendEnd {
    pub(crate) line: Arc<Line>,
    pub(crate) alloc: Global,
    pub(crate) port: Option<Port>,
}

/// The end of a link that takes. A contract sees its link, the shape of the messages, and all that it took.
#[derive(Drop)]
pub struct TakeEnd {
    pub(crate) line: Arc<Line>,
    pub(crate) port: Option<Port>,
}

impl Model for SendEnd {
    ghost use Rattle.std.specs.Arc.{arc_value};
    ghost use Rattle.node_link.specs.Ends.{End, IsSender, sender_end};

    ghost Value = { End };

    ghost view = { λ e. sender_end (arc_value e.line).queue e.port };

    ghost invariant = { λ e. IsSender (arc_value e.line).queue e.port };
}

impl Model for TakeEnd {
    ghost use Rattle.std.specs.Arc.{arc_value};
    ghost use Rattle.node_link.specs.Ends.{End, IsTaker, taker_end};

    ghost Value = { End };

    ghost view = { λ e. taker_end (arc_value e.line).queue e.port };

    ghost invariant = { λ e. IsTaker (arc_value e.line).queue e.port };
}
