//! How a sender is opened.

ghost use Rattle.std.specs.Prelude.{◌≡◌, ◌<◌, [], All, IfOk};
ghost use Rattle.flow_types.specs.Map.{AreDistinct};
ghost use Rattle.flow_types.specs.Size.{IsShape};
ghost use Rattle.group_search.specs.Build.{IsBuild};
ghost use Rattle.group_search.specs.Records.{AreHandled};
ghost use Rattle.flow_types.specs.Key.{IsKeyValue};
ghost use Rattle.turn_log.specs.Sender.{IsSenderOf, changes_in};

use crate::sender::Sender;
use flow_types::{Flow, Shape};
use group_search::BlockImage;
use out_of_memory::OutOfMemory;
use rib_owner::Owner;
use std::alloc::Global;

impl Sender {
    /// The owner of this number, with the flows of its blocks, before its first turn.
    ///
    /// The flows are those with which the cluster was opened: no two of them have one key, and each is handled by one of the
    /// cluster's nodes. The images are those that the build gives for them.
    pub fn open(
        alloc: Global,
        shape: Shape,
        number: u8,
        flows: &[Flow],
        images: &[BlockImage],
    ) -> Result<Sender, OutOfMemory>
        requires node { number < shape.nodes }
        requires distinct { AreDistinct flows.now }
        requires handled { AreHandled shape.nodes flows.now }
        requires built { IsBuild shape flows.now images.now }
        ensures changes { IfOk result (λ sender. changes_in sender ≡ []) }
        ensures stands { IfOk result (λ sender. IsSenderOf shape number flows.now sender) }
    {
        read_shape(shape);
        read_keys(flows);
        let sender = Sender {
            shape,
            number,
            owner: Owner::open(alloc, shape, number, flows, images)?,
            octets: Vec::new(alloc),
            turns: Vec::new(alloc),
        };
        may_cross(&sender);
        Ok(sender)
    }
}

/// It may go to another thread, with all that it has.
fn may_cross<T: Send>(_sender: &T) {}

/// Reads the shape, whose numbers are thereby known to be within their limits.
fn read_shape(shape: Shape)
    ensures { IsShape shape.nodes shape.blocks }
{
    let _ = (shape.nodes(), shape.blocks());
}

/// Reads each key, whose numbers are thereby known to be within their fields.
fn read_keys(flows: &[Flow])
    ensures { All (λ flow. IsKeyValue flow.key) flows.now }
{
    'flows: for flow in flows {
        read_key(*flow);
    }
}

fn read_key(flow: Flow)
    ensures { IsKeyValue flow.key }
{
    let _ = flow;
}
