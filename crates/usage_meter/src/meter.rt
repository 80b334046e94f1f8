ghost use Rattle.std.specs.Prelude.{◌≡◌, ℕ, ◌+◌, ◌-◌, ◌^◌, ◌<◌, ◌≤◌, [], ◌∷◌, ◌++◌, All, IfOk};
ghost use Rattle.usage_meter.specs.Adds.{an_add, octets, usage};
ghost use Rattle.usage_meter.specs.Plays.{reading};

use crate::plays::Words;
use crate::seat::MeterSeat;
use crate::steps::{add_octets, load_total, share, take_in};
use crate::view::Opening;
use atomic_table::Table;
use out_of_memory::OutOfMemory;
use std::alloc::Global;
use std::marker::Brand;

/// A total of octets for each node of a cluster, which any number of threads add to.
///
/// No call waits for another thread, and none but `new` takes memory. Each takes the meter by `&self` and a seat of it,
/// which says who calls.
#[derive(Drop)]
pub struct Meter {
    words: Words,
    ghost wide: { words.shared.table_id.words ≡ words.shared.key.nodes },
    ghost has_a_node: { 0 < words.shared.key.nodes },
    ghost fits: { words.shared.key.ration < 2 ^ 64 },
}

impl Meter {
    ghost use Rattle.usage_meter.specs.Seats.{IsSeatOf, IsWhole, adds_of, nodes_of, opening_ration, ration_of, readings_of};

    /// A meter for 1..=256 nodes, numbered from 0, and the first seat, which has the whole ration.
    ///
    /// The ration is in octets: no more can be added to all totals together, which are 0. Memory is taken for the words,
    /// 8 octets a node.
    pub fn new(alloc: Global, nodes: u16, ration: u64) -> Result<(Meter, MeterSeat), OutOfMemory>
        requires { (1 ≤ nodes) × (nodes ≤ 256) }

        ensures nodes { IfOk result (λ r. nodes_of r.0 ≡ nodes) }
        ensures opening { IfOk result (λ r. opening_ration r.0 ≡ ration) }
        ensures seat { IfOk result (λ r. IsSeatOf r.0 r.1) }
        ensures ration { IfOk result (λ r. ration_of r.1 ≡ ration) }
        ensures no_adds { IfOk result (λ r. adds_of r.1 ≡ []) }
        ensures no_readings { IfOk result (λ r. readings_of r.1 ≡ []) }
    {
        let zeros = vec![in alloc; 0; usize::from(nodes)]?;
        let opening = Opening { nodes, ration };
        let (words, inner) = Table::of_words(alloc, zeros.as_slice(), &opening)?;
        Ok((Meter { words }, MeterSeat { inner }))
    }

    /// A new seat with this ration, in octets, by which the other's falls.
    ///
    /// The ration is at most the other's, which is a seat of this meter. The new one has no adds and no readings.
    pub fn seat(&self, from: &mut MeterSeat, ration: u64) -> MeterSeat
        requires from { IsSeatOf self.now from.old }
        requires enough { ration ≤ ration_of from.old }

        ensures from { IsSeatOf self.now from.new }
        ensures left { ration_of from.new ≡ ration_of from.old - ration }
        ensures adds { adds_of from.new ≡ adds_of from.old }
        ensures readings { readings_of from.new ≡ readings_of from.old }

        ensures seat { IsSeatOf self.now result }
        ensures ration { ration_of result ≡ ration }
        ensures no_adds { adds_of result ≡ [] }
        ensures no_readings { readings_of result ≡ [] }
    {
        MeterSeat {
            inner: share::<Brand>(&self.words.shared, &mut from.inner, ration),
        }
    }

    /// Adds octets to a node's total, by one fetch-and-add, which any number of threads may make at once.
    ///
    /// The seat is one of this meter, with a ration of at least these octets; the node is below the number of nodes.
    pub fn add(&self, seat: &mut MeterSeat, node: u8, octets: u16)
        requires seat { IsSeatOf self.now seat.old }
        requires node { node < nodes_of self.now }
        requires enough { octets ≤ ration_of seat.old }

        ensures seat { IsSeatOf self.now seat.new }
        ensures ration { ration_of seat.new ≡ ration_of seat.old - octets }
        ensures adds { adds_of seat.new ≡ adds_of seat.old ++ an_add node octets ∷ [] }
        ensures readings { readings_of seat.new ≡ readings_of seat.old }
    {
        let word = usize::from(node);
        add_octets(&self.words.shared, &mut seat.inner, word, u64::from(octets));
    }

    /// A seat's ration and adds go to another, whose own adds stay before them. The other's readings are forgotten.
    ///
    /// Both are seats of this meter.
    pub fn gather(&self, keep: &mut MeterSeat, other: MeterSeat)
        requires keep { IsSeatOf self.now keep.old }
        requires other { IsSeatOf self.now other }

        ensures keep { IsSeatOf self.now keep.new }
        ensures ration { ration_of keep.new ≡ ration_of keep.old + ration_of other }
        ensures adds { adds_of keep.new ≡ adds_of keep.old ++ adds_of other }
        ensures readings { readings_of keep.new ≡ readings_of keep.old }
    {
        let MeterSeat { inner } = other;
        take_in(&self.words.shared, &mut keep.inner, inner);
    }

    /// A node's total, in octets, as one load finds it.
    ///
    /// Where the seat is whole, that is exactly what its adds for the node come to. Else other seats may add at once, and
    /// the total is that of one moment of the call. The seat is one of this meter; the node is below the number of nodes.
    #[tactic(auto, using(crate::proofs::Usage::usages))]
    pub fn total(&self, seat: &mut MeterSeat, node: u8) -> u64
        requires seat { IsSeatOf self.now seat.old }
        requires node { node < nodes_of self.now }

        ensures least { usage node (adds_of seat.old) ≤ result }
        ensures most { result ≤ opening_ration self.now }
        ensures whole { IsWhole self.now seat.old → result ≡ usage node (adds_of seat.old) }

        // What is more than the seat's own adds was added by other seats, out of what these were given.
        ensures others { result + (ration_of seat.old + octets (adds_of seat.old)) ≤ opening_ration self.now + usage node (adds_of seat.old) }
        ensures rises { All (λ r. r.node ≡ node → r.total ≤ result) (readings_of seat.old) }

        ensures reading { readings_of seat.new ≡ readings_of seat.old ++ reading node result ∷ [] }
        ensures seat { IsSeatOf self.now seat.new }
        ensures ration { ration_of seat.new ≡ ration_of seat.old }
        ensures adds { adds_of seat.new ≡ adds_of seat.old }
    {
        load_total(&self.words.shared, &mut seat.inner, usize::from(node))
    }
}
