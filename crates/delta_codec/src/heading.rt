//! What each message begins with: kind, owner, turn, block and group.

ghost use Rattle.std.specs.Prelude.{◌≡◌, ◌<◌, ◌≤◌, ◌%◌, [], ◌∷◌, IfOk, length};
ghost use Rattle.std.specs.Result.{result_err};
ghost use Rattle.block_layout.specs.Limits.{group_count};
ghost use Rattle.delta_codec.specs.Fits.{HeadFits};
ghost use Rattle.delta_codec.specs.Spelling.{Stand, head, two_octets};
ghost use Rattle.delta_codec.specs.Fields.{block_field, field_fault, first_fault, group_field, head_fields, kind_field, byte_at, owner_field, turn_number_field};
ghost use Rattle.delta_codec.specs.Heading.{kind_octet};

use crate::reading::{take_octet, take_two};
use crate::refused::{BadField, DecodeRefused};
use block_layout::GROUPS;
use flow_types::Shape;

/// The first octet of a table message.
pub(crate) const TABLE: u8 = 0x11;
/// The first octet of a FIB message.
pub(crate) const FIB: u8 = 0x12;
/// Where the body stands: how many octets a head has.
pub(crate) const BODY: usize = 7;

/// What a message is for.
#[derive(Clone, Copy)]
pub(crate) enum Kind {
    Table,
    Fib,
}

/// The fields that each message begins with.
#[derive(Clone, Copy)]
pub(crate) struct Head {
    pub(crate) kind: Kind,
    pub(crate) owner: u8,
    pub(crate) turn: u16,
    pub(crate) block: u16,
    pub(crate) group: u8,
}

/// The head that the octets begin with.
pub(crate) fn read_head(shape: Shape, bytes: &[u8]) -> Result<Head, DecodeRefused>
    ensures stands { IfOk result (λ h. Stand bytes.now 0 (head (kind_octet h.kind) h.owner h.turn h.block h.group)) }
    ensures kind { IfOk result (λ h. kind_octet h.kind ≡ byte_at bytes.now 0) }
    ensures fits { IfOk result (λ h. HeadFits shape h.owner h.turn h.block h.group) }
    ensures fault { result_err result ≡ first_fault bytes.now (head_fields shape bytes.now) }
{
    let kind = read_kind(bytes)?;
    let owner = read_owner(shape, bytes)?;
    let turn = read_turn(bytes)?;
    let block = read_block(shape, owner, bytes)?;
    let group = read_group(bytes)?;
    Ok(Head {
        kind,
        owner,
        turn,
        block,
        group,
    })
}

fn read_kind(bytes: &[u8]) -> Result<Kind, DecodeRefused>
    ensures value { IfOk result (λ kind. kind_octet kind ≡ byte_at bytes.now 0) }
    ensures stands { IfOk result (λ kind. Stand bytes.now 0 (kind_octet kind ∷ [])) }
    ensures fault { result_err result ≡ field_fault bytes.now (kind_field bytes.now) }
{
    match take_octet(bytes, 0)? {
        TABLE => Ok(Kind::Table),
        FIB => Ok(Kind::Fib),
        _ => Err(DecodeRefused::Bad {
            at: 0,
            why: BadField::Kind,
        }),
    }
}

fn read_owner(shape: Shape, bytes: &[u8]) -> Result<u8, DecodeRefused>
    requires { 1 ≤ length bytes.now }
    ensures value { IfOk result (λ owner. owner ≡ byte_at bytes.now 1) }
    ensures stands { IfOk result (λ owner. Stand bytes.now 1 (owner ∷ [])) }
    ensures node { IfOk result (λ owner. owner < shape.nodes) }
    ensures fault { result_err result ≡ field_fault bytes.now (owner_field shape bytes.now) }
{
    let owner = take_octet(bytes, 1)?;
    if u16::from(owner) >= shape.nodes() {
        return Err(DecodeRefused::Bad {
            at: 1,
            why: BadField::Owner,
        });
    }
    Ok(owner)
}

fn read_turn(bytes: &[u8]) -> Result<u16, DecodeRefused>
    requires { 2 ≤ length bytes.now }
    ensures stands { IfOk result (λ turn. Stand bytes.now 2 (two_octets turn)) }
    ensures first { IfOk result (λ turn. 1 ≤ turn) }
    ensures fault { result_err result ≡ field_fault bytes.now (turn_number_field bytes.now) }
{
    let turn = take_two(bytes, 2)?;
    if turn == 0 {
        return Err(DecodeRefused::Bad {
            at: 2,
            why: BadField::Turn,
        });
    }
    Ok(turn)
}

fn read_block(shape: Shape, owner: u8, bytes: &[u8]) -> Result<u16, DecodeRefused>
    requires there { 4 ≤ length bytes.now }
    requires owner { owner ≡ byte_at bytes.now 1 }
    ensures stands { IfOk result (λ block. Stand bytes.now 4 (two_octets block)) }
    ensures in_table { IfOk result (λ block. block < shape.blocks) }
    ensures owned { IfOk result (λ block. block % shape.nodes ≡ owner) }
    ensures fault { result_err result ≡ field_fault bytes.now (block_field shape bytes.now) }
{
    let block = take_two(bytes, 4)?;
    if block >= shape.blocks() || shape.owner(block) != owner {
        return Err(DecodeRefused::Bad {
            at: 4,
            why: BadField::Block,
        });
    }
    Ok(block)
}

fn read_group(bytes: &[u8]) -> Result<u8, DecodeRefused>
    requires { 6 ≤ length bytes.now }
    ensures stands { IfOk result (λ group. Stand bytes.now 6 (group ∷ [])) }
    ensures in_block { IfOk result (λ group. group < group_count) }
    ensures fault { result_err result ≡ field_fault bytes.now (group_field bytes.now) }
{
    let group = take_octet(bytes, 6)?;
    if group >= GROUPS {
        return Err(DecodeRefused::Bad {
            at: 6,
            why: BadField::Group,
        });
    }
    Ok(group)
}
