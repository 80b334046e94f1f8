ghost use Rattle.std.specs.Prelude.{◌≡◌, ◌<◌, ◌≤◌, ◌%◌, ◌↔◌, IsSome, IfSome};
ghost use Rattle.flow_types.specs.Size.{IsShape, AreValueBits, fewest_blocks, fewest_nodes, most_blocks, most_nodes, most_value_bits, owners_in, value_bits};

use std::marker::Model;

/// The least number of nodes of a cluster.
pub const FEWEST_NODES: u16 = 2;
/// The greatest number of nodes of a cluster.
pub const MOST_NODES: u16 = 16;
/// The least number of blocks of a table.
pub const FEWEST_BLOCKS: u16 = 1;
/// The greatest number of blocks of a table.
pub const MOST_BLOCKS: u16 = 256;

/// The greatest number of value bits of a shape.
pub const MOST_VALUE_BITS: u8 = 4;

/// How many nodes a cluster has, and how many blocks its table.
#[derive(Clone, Copy, Debug, PartialEq, Eq, Hash)]
pub struct Shape {
    nodes: u16,
    blocks: u16,
}

impl Model for Shape {
    ghost use Rattle.flow_types.specs.Size.{Size, IsShape};

    ghost Value = { Size };

    ghost view = { λ s. record { nodes = s.nodes; blocks = s.blocks } };

    ghost invariant = { λ s. IsShape s.nodes s.blocks };

    ghost inverse = { λ s. record { nodes = s.nodes; blocks = s.blocks } };
}

impl Shape {
    /// The shape of these numbers of nodes and blocks, or `None` where nodes isn't in 2..=16 or blocks isn't in 1..=256.
    pub fn new(nodes: u16, blocks: u16) -> Option<Shape>
        ensures valid { IsSome result ↔ IsShape nodes blocks }
        ensures value { IfSome result (λ shape. shape ≡ record { nodes = nodes; blocks = blocks }) }
    {
        if (FEWEST_NODES..=MOST_NODES).contains(&nodes)
            && (FEWEST_BLOCKS..=MOST_BLOCKS).contains(&blocks)
        {
            Some(Shape { nodes, blocks })
        } else {
            None
        }
    }

    /// The number of nodes, 2..=16. Nodes are numbered from 0.
    pub fn nodes(&self) -> u16
        ensures value { result ≡ self.now.nodes }
        ensures least { fewest_nodes ≤ result }
        ensures most { result ≤ most_nodes }
    {
        self.nodes
    }

    /// The number of blocks, 1..=256. Blocks are numbered from 0.
    pub fn blocks(&self) -> u16
        ensures value { result ≡ self.now.blocks }
        ensures least { fewest_blocks ≤ result }
        ensures most { result ≤ most_blocks }
    {
        self.blocks
    }

    /// The number of nodes that own blocks, 1..=16: those of the least numbers, as many as both nodes and blocks allow.
    pub fn owners(&self) -> u8
        ensures value { result ≡ owners_in self.now }
        ensures some { 0 < result }
        ensures most { result ≤ most_nodes }
    {
        self.nodes.min(self.blocks) as u8
    }

    /// The number of value bits, 1..=4: the least of at least 1 that tell the nodes apart.
    pub fn value_bits(&self) -> u8
        ensures value { result ≡ value_bits self.now.nodes }
        ensures fewest { AreValueBits self.now.nodes result }
        ensures most { result ≤ most_value_bits }
    {
        match self.nodes {
            0..=2 => 1,
            3..=4 => 2,
            5..=8 => 3,
            _ => MOST_VALUE_BITS,
        }
    }

    /// The node that owns a block: the blocks are dealt to the nodes in turn.
    pub fn owner(&self, block: u16) -> u8
        requires { block < self.now.blocks }
        ensures value { result ≡ block % self.now.nodes }
        ensures below { result < self.now.nodes }
    {
        (block % self.nodes) as u8
    }
}
