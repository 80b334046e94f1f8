//! What the definitions mean together. Each law is a function that does nothing, whose contract says it.

ghost use Rattle.std.specs.Prelude.{◌≡◌, ◌≢◌, ◌↔◌, ℕ, ◌^◌, ◌<◌, ◌≤◌, List, Contains, IsPermutation, Some, None};
ghost use Rattle.std.specs.Fmt.{decimal};
ghost use Rattle.std.specs.Ordering.{nat_cmp};
ghost use Rattle.flow_types.specs.declared.record.Flow.{Flow};
ghost use Rattle.flow_types.specs.declared.key.FlowKey.{FlowKey};
ghost use Rattle.flow_types.specs.Key.{number, key_of, octets};
ghost use Rattle.flow_types.specs.Size.{IsShape};
ghost use Rattle.flow_types.specs.Map.{AreDistinct, IsSameMap, flow_at, put, without};
ghost use Rattle.flow_types.specs.Text.{number_value, address_value, address_text};

use crate::key::FlowKey;
use crate::shape::Shape;
use std::cmp::Ordering;

/// A text is a number of at most `max` exactly where it is what `{}` prints of that number.
pub fn number_texts()
    ensures { (max n : ℕ) (text : List ℕ) → max < 2 ^ 64 →
        (number_value max text ≡ Some n) ↔ ((n ≤ max) × (text ≡ decimal n)) }
{}

/// An address that was written reads back as itself, and no other text reads as it.
pub fn address_texts()
    ensures { (address : ℕ) (text : List ℕ) → address < 2 ^ 32 →
        (address_value text ≡ Some address) ↔ (text ≡ address_text address) }
{}

/// An address that was read has 32 bits.
pub fn addresses_have_32_bits()
    ensures { (address : ℕ) (text : List ℕ) → address_value text ≡ Some address → address < 2 ^ 32 }
{}

/// A key is the key of its number.
pub fn key_of_its_number(key: FlowKey)
    ensures { key_of (number key) ≡ key }
{}

/// A number of 104 bits is the number of its key.
pub fn number_of_its_key()
    ensures { (n : ℕ) → n < 2 ^ 104 → number (key_of n) ≡ n }
{}

/// Keys that have the same octets are the same.
pub fn octets_tell_keys_apart(key: FlowKey, other: FlowKey)
    ensures { octets key ≡ octets other → key ≡ other }
{}

/// Keys are ordered as their numbers are.
pub fn order_of_keys(key: FlowKey, other: FlowKey) -> Ordering
    ensures { result ≡ nat_cmp (number key) (number other) }
{
    key.cmp(&other)
}

/// The numbers of nodes and of blocks of every shape are in range.
pub fn numbers_of_a_shape(shape: Shape)
    ensures { IsShape shape.nodes shape.blocks }
{}

/// A map with a flow at its key is a map, has this flow there, and at each other key what it had.
pub fn setting_a_key()
    ensures distinct { (new : Flow) (flows : List Flow) → AreDistinct flows → AreDistinct (put new flows) }
    ensures changed { (new : Flow) (flows : List Flow) → flow_at new.key (put new flows) ≡ Some new }
    ensures others { (new : Flow) (flows : List Flow) (key : FlowKey) → number key ≢ number new.key →
        flow_at key (put new flows) ≡ flow_at key flows }
{}

/// A map without a key is a map, has nothing there, and at each other key what it had.
pub fn removing_a_key()
    ensures distinct { (removed : FlowKey) (flows : List Flow) → AreDistinct flows → AreDistinct (without removed flows) }
    ensures changed { (removed : FlowKey) (flows : List Flow) → flow_at removed (without removed flows) ≡ None }
    ensures others { (removed : FlowKey) (flows : List Flow) (key : FlowKey) → number key ≢ number removed →
        flow_at key (without removed flows) ≡ flow_at key flows }
{}

/// A map has a flow at a key exactly where the flow is one of its own and has this key.
pub fn flows_of_maps()
    ensures { (key : FlowKey) (flow : Flow) (flows : List Flow) → AreDistinct flows →
        (flow_at key flows ≡ Some flow) ↔ (Contains flows flow × (number flow.key ≡ number key)) }
{}

/// Two maps have the same at each key exactly where they have the same flows, in some order.
pub fn same_maps()
    ensures { (flows others : List Flow) → AreDistinct flows → AreDistinct others →
        IsSameMap flows others ↔ IsPermutation flows others }
{}
