ghost use Rattle.delta_codec.specs.Values.{IsOperation};
ghost use Rattle.delta_codec.specs.Messages.{FibMessageFits};

use crate::sharing::history::Past;
use delta_codec::FibMessage;
use flow_types::Shape;

/// A turn that both copies take, with the history that ends with it.
#[derive(Drop)]
pub(crate) struct Turn {
    pub(crate) shape: Shape,
    pub(crate) message: FibMessage,
    pub(crate) past: Past,
    ghost fits: { FibMessageFits shape message },
}
