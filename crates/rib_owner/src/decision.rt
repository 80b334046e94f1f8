use crate::block::Found;
use crate::owner::Spot;
use crate::turn::Turn;

/// An update that an owner has judged and will accept: where its key stands, what was found there, and its turn.
#[derive(Drop)]
pub struct Decision {
    pub(crate) spot: Spot,
    pub(crate) found: Option<Found>,
    pub(crate) turn: Turn,
}
