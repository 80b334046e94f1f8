ghost use Rattle.std.specs.Prelude.{All, IfOk};
ghost use Rattle.flow_types.specs.declared.record.Flow.{Flow};
ghost use Rattle.flow_types.specs.Map.{AreDistinct};
ghost use Rattle.group_search.specs.Owned.{IsOwned};
ghost use Rattle.group_search.specs.Records.{AreHandled};

use crate::keys::draw;
use flow_types::{Flow, FlowKey, Record, Shape};
use group_search::{BlockImage, GroupRecord};
use hash_family::place;
use std::alloc::{AllocError, Global};

/// So many flows with addresses from 0 up, their nodes drawn evenly.
pub fn flows(alloc: Global, shape: Shape, count: u32) -> Result<Vec<Flow>, AllocError>
    ensures distinct { IfOk result (λ made. AreDistinct made.items) }
    ensures handled { IfOk result (λ made. AreHandled shape.nodes made.items) }
{
    let nodes = u64::from(shape.nodes());
    let mut made = Vec::with_capacity(alloc, count as usize)?;
    'flows: for source in 0..count {
        let key = FlowKey {
            source,
            destination: 0,
            source_port: 0,
            destination_port: 443,
            protocol: 6,
        };
        let node = (draw(2, u64::from(source)) % nodes) as u8;
        let info = Record { teid: 0, base: 0 };
        made.push(Flow { key, node, info })?;
    }
    Ok(made)
}

/// The flows whose blocks the first node owns.
pub fn owned(alloc: Global, shape: Shape, flows: &[Flow]) -> Result<Vec<Flow>, AllocError>
    ensures { IfOk result (λ owned. All (λ (flow : Flow). IsOwned shape 0 flow.key) owned.items) }
{
    let mut owned = Vec::new(alloc);
    'flows: for flow in flows {
        if shape.owner(place(shape, flow.key).block) == 0 {
            owned.push(*flow)?;
        }
    }
    Ok(owned)
}

/// How many of the keys a record gives its first node.
pub fn decoded(content: &GroupRecord, nodes: u16, flows: &[Flow]) -> u64 {
    let mut first = 0u64;
    'flows: for flow in flows {
        first = first.wrapping_add(u64::from(content.decode(nodes, flow.key) == Some(0)));
    }
    first
}

/// How many of the flows the images send to their nodes.
pub fn found(shape: Shape, images: &[BlockImage], flows: &[Flow]) -> u64 {
    let mut found = 0u64;
    'flows: for flow in flows {
        if node_of(shape, images, flow.key) == Some(flow.node) {
            found = found.wrapping_add(1);
        }
    }
    found
}

/// The node that the images give a key.
fn node_of(shape: Shape, images: &[BlockImage], key: FlowKey) -> Option<u8> {
    let at = place(shape, key);
    let image = images.get(at.block as usize)?;
    image
        .record(image.choices().group(at.bucket))
        .decode(shape.nodes(), key)
}
