//! A storm's cluster: its owners, its nodes and its lanes.

use flow_reader::Flows;
use flow_types::Shape;
use std::marker::Model;
use std::sync::Wait;
use storm_lane::Lane;
use turn_relay::{Applier, Owner, close_all};

/// The workers of a storm, with the flows of its opening. A contract sees them all.
///
/// It can't be dropped, since FIBs' writers can't: `close` ends it.
pub(crate) struct Storm {
    pub(crate) shape: Shape,
    pub(crate) flows: Flows,
    /// An owner for each number that has a block.
    pub(crate) owners: Vec<Owner>,
    /// An applier for each node.
    pub(crate) appliers: Vec<Applier>,
    pub(crate) lanes: Vec<Lane>,
    /// How many threads the nodes' appliers are dealt to.
    pub(crate) threads: usize,
}

impl Model for Storm {
    ghost use Rattle.cluster_storm.specs.Rest.{Stand};

    ghost Value = { Stand };

    ghost view = { λ s. record { size = s.shape; flows = s.flows; owners = s.owners.items; appliers = s.appliers.items; lanes = s.lanes.items } };
}

impl Storm {
    /// Ends it. It waits for readers that are inside a FIB's `find`, and takes no memory.
    pub(crate) fn close<R: Wait>(self, rt: &R) {
        let Storm {
            shape: _,
            flows: _flows,
            owners: _owners,
            appliers,
            lanes: _lanes,
            threads: _,
        } = self;
        close_all(rt, appliers);
    }
}
