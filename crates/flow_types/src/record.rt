use crate::key::FlowKey;

/// What a flow's handler knows of it: where its packets go on to.
#[derive(Clone, Copy, Debug, PartialEq, Eq, Hash)]
pub struct Record {
    /// The tunnel endpoint identifier (TEID) of the flow's GTP-U tunnel (3GPP TS 29.281, section 5.1).
    pub teid: u32,
    /// The IPv4 address of the base station, its first octet as the greatest.
    pub base: u32,
}

/// One flow of the flow table.
#[derive(Clone, Copy, Debug, PartialEq, Eq, Hash)]
pub struct Flow {
    /// The flow's key.
    pub key: FlowKey,
    /// The flow's handler: the node that holds its record.
    pub node: u8,
    /// The flow's record.
    pub info: Record,
}
