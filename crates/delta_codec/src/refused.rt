use std::error::Error;
use std::fmt;

/// The field of a message that breaks its rule.
#[derive(Clone, Copy, Debug, PartialEq, Eq, Hash)]
pub enum BadField {
    /// The kind is neither that of a table message nor that of a FIB message.
    Kind,
    /// The owner isn't one of the cluster's nodes.
    Owner,
    /// The turn is 0.
    Turn,
    /// The block isn't one of the table's, or isn't the owner's.
    Block,
    /// The group is 64 or more.
    Group,
    /// The body isn't one of the message's kind.
    Body,
    /// The number of rows isn't in 2..=64.
    Count,
    /// A row's key isn't greater than the key of the row before.
    Order,
    /// A row's node isn't one of the cluster's nodes.
    Node,
}

impl fmt::Display for BadField {
    ghost use Rattle.std.specs.Prelude.{Some};
    ghost use Rattle.delta_codec.specs.RefusalTexts.{field_text};

    ghost output = { λ field. Some (field_text field) };

    fn fmt<W: fmt::Write>(&self, f: &mut fmt::Formatter<W>) -> fmt::Result {
        f.write_str(match self {
            BadField::Kind => "kind",
            BadField::Owner => "owner",
            BadField::Turn => "turn",
            BadField::Block => "block",
            BadField::Group => "group",
            BadField::Body => "body",
            BadField::Count => "number of rows",
            BadField::Order => "order of rows",
            BadField::Node => "node",
        })
    }
}

/// Why no message begins the octets.
#[derive(Clone, Copy, Debug, PartialEq, Eq, Hash)]
pub enum DecodeRefused {
    /// The octets end before the message does, and no field that is wholly there breaks its rule.
    Short,
    /// A field that is wholly there breaks its rule.
    Bad {
        /// The place of the first octet of the first such field, counted from 0.
        at: usize,
        /// Which field it is.
        why: BadField,
    },
}

impl fmt::Display for DecodeRefused {
    ghost use Rattle.std.specs.Prelude.{Some};
    ghost use Rattle.delta_codec.specs.RefusalTexts.{refusal_text};

    ghost output = { λ refusal. Some (refusal_text refusal) };

    fn fmt<W: fmt::Write>(&self, f: &mut fmt::Formatter<W>) -> fmt::Result {
        match self {
            DecodeRefused::Short => f.write_str("the octets end before the message does"),
            DecodeRefused::Bad { at, why } => write!(f, "octet {at}: a bad {why}"),
        }
    }
}

impl Error for DecodeRefused {}
