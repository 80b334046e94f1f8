ghost use Rattle.std.specs.Prelude.{◌≡◌};

use flow_types::{Flow, FlowKey, Record};
use std::marker::Model;

/// A flow in 24 octets: its fields stand from the widest to the narrowest.
#[derive(Clone, Copy)]
pub(crate) struct Item {
    source: u32,
    destination: u32,
    teid: u32,
    base: u32,
    source_port: u16,
    destination_port: u16,
    protocol: u8,
    node: u8,
}

impl Model for Item {
    ghost use Rattle.flow_types.specs.declared.record.Flow.{Flow};

    ghost Value = { Flow };

    ghost view = { λ i. record {
      key = record {
        source = i.source;
        destination = i.destination;
        source_port = i.source_port;
        destination_port = i.destination_port;
        protocol = i.protocol;
      };
      node = i.node;
      info = record { teid = i.teid; base = i.base };
    } };

    ghost inverse = { λ flow. record {
      source = flow.key.source;
      destination = flow.key.destination;
      teid = flow.info.teid;
      base = flow.info.base;
      source_port = flow.key.source_port;
      destination_port = flow.key.destination_port;
      protocol = flow.key.protocol;
      node = flow.node;
    } };
}

impl Item {
    /// The item of a flow.
    pub(crate) fn of(flow: Flow) -> Item
        ensures { result ≡ flow }
    {
        let Flow { key, node, info } = flow;
        Item {
            source: key.source,
            destination: key.destination,
            teid: info.teid,
            base: info.base,
            source_port: key.source_port,
            destination_port: key.destination_port,
            protocol: key.protocol,
            node,
        }
    }

    /// The flow of the item.
    pub(crate) fn flow(self) -> Flow
        ensures { result ≡ self }
    {
        Flow {
            key: FlowKey {
                source: self.source,
                destination: self.destination,
                source_port: self.source_port,
                destination_port: self.destination_port,
                protocol: self.protocol,
            },
            node: self.node,
            info: Record {
                teid: self.teid,
                base: self.base,
            },
        }
    }
}
