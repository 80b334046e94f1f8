//! A node's applier.
ghost use Rattle.std.specs.Prelude.{◌≡◌};
ghost use Rattle.turn_relay.specs.PartState.{ApplierState};

use crate::part::Part;
use std::marker::Model;
use std::sync::Wait;

/// A node's applier, with a part for each owner that has a block, by the owner's number.
///
/// It can't be dropped: `close` ends it.
pub struct Applier {
    /// The node's number.
    pub node: u8,
    /// The parts.
    pub parts: Vec<Part>,
}

impl Model for Applier {
    ghost use Rattle.turn_relay.specs.PartState.{ApplierState};

    ghost Value = { ApplierState };

    ghost view = { λ a. record { node = a.node; parts = a.parts.items } };
}

impl Applier {
    /// Ends its parts. It waits for readers that are inside a `find`. It takes no memory.
    pub fn close<R: Wait>(self, rt: &R) {
        let Applier { node: _, parts } = self;
        close_parts(rt, parts);
    }
}

/// Ends parts, and lets their list go.
pub fn close_parts<R: Wait>(rt: &R, parts: Vec<Part>) {
    let mut parts = parts;
    let count = parts.len();
    'parts: for _ in 0..count {
        if let Some(part) = parts.pop() {
            part.close(rt);
        }
    }
    parts.destroy_empty();
}

/// Ends appliers, and lets their list go.
pub fn close_all<R: Wait>(rt: &R, appliers: Vec<Applier>) {
    let mut appliers = appliers;
    let count = appliers.len();
    'appliers: for _ in 0..count {
        if let Some(applier) = appliers.pop() {
            applier.close(rt);
        }
    }
    appliers.destroy_empty();
}
