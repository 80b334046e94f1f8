/// Where a key stands in the table, whatever the bucket's choice.
#[derive(Clone, Copy, Debug, PartialEq, Eq, Hash)]
pub struct Place {
    /// The block, below the shape's number of blocks.
    pub block: u16,
    /// The bucket in the block.
    pub bucket: u8,
}
