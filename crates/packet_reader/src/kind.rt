ghost use Rattle.std.specs.Prelude.{◌≡◌};
ghost use Rattle.csv_rows.specs.Rows.{fields_of};
ghost use Rattle.packet_reader.specs.Kind.{kind_of, width};

use csv_rows::ByteRecord;
use flow_types::Why;
use row_fields::is_kind;

/// The kinds of rows after `begin`.
#[derive(Clone, Copy, Debug, PartialEq, Eq)]
pub(crate) enum Kind {
    Set,
    Del,
    Packet,
    Carry,
    Sync,
    End,
}

impl Kind {
    /// The kind that a row's first field names.
    #[tactic(auto, unfolding(crate::specs::Kind::kind_of))]
    pub(crate) fn of(row: &ByteRecord) -> Result<Kind, Why>
        ensures { result ≡ kind_of (fields_of row.now) }
    {
        if is_kind(row, b"set") {
            Ok(Kind::Set)
        } else if is_kind(row, b"del") {
            Ok(Kind::Del)
        } else if is_kind(row, b"packet") {
            Ok(Kind::Packet)
        } else if is_kind(row, b"carry") {
            Ok(Kind::Carry)
        } else if is_kind(row, b"sync") {
            Ok(Kind::Sync)
        } else if is_kind(row, b"end") {
            Ok(Kind::End)
        } else {
            Err(Why::Kind)
        }
    }

    /// How many fields a row of this kind has, its name among them.
    pub(crate) fn width(self) -> usize
        ensures { result ≡ width self }
    {
        match self {
            Kind::Set => 9,
            Kind::Del => 6,
            Kind::Packet => 7,
            Kind::Carry => 5,
            Kind::Sync => 1,
            Kind::End => 1,
        }
    }
}
