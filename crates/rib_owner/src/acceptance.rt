//! How an owner accepts an update, in two halves: it judges the update and changes nothing, and then it makes the change, for
//! which only memory can be wanting.

ghost use Rattle.std.specs.Prelude.{◌≡◌, ◌≢◌, ℕ, Err, ◌++◌, ◌∷◌, [], List, IfOk, OnErr};
ghost use Rattle.flow_types.specs.declared.key.FlowKey.{FlowKey};
ghost use Rattle.flow_types.specs.declared.record.Flow.{Flow};
ghost use Rattle.group_search.specs.Owned.{IsOwned};
ghost use Rattle.group_history.specs.Acceptance.{updated_key};
ghost use Rattle.group_history.specs.declared.refused.UpdateRefused.TheVariants as refusals;
ghost use Rattle.group_history.specs.declared.update.Update.TheVariants as updates;
ghost use Rattle.rib_owner.specs.Decision.{IsDecided, turn_decided};
ghost use Rattle.rib_owner.specs.Rib.{IsRibOf};
ghost use Rattle.rib_owner.specs.Turn.{AnswersUpdate};

use crate::block::flow_of;
use crate::decision::Decision;
use crate::judging::{check_place, fitting_record};
use crate::owner::Owner;
use crate::turn::{FibPlan, Turn};
use flow_types::MOST_TURNS;
use group_history::{Change, Update, UpdateRefused};
use out_of_memory::OutOfMemory;

impl Owner {
    /// Accepts an update of a key that the owner owns, or refuses it for the first of the causes of `UpdateRefused` that
    /// holds. The node of a key that is set is one of the cluster's.
    pub fn accept(&mut self, update: Update) -> Result<Turn, UpdateRefused>
        requires owns { IsOwned self.old.size self.old.number (updated_key update) }
        ensures answer { (flows : List Flow) → IsRibOf self.old.size flows self.old → AnswersUpdate self.old.size flows self.old.journal.changes update result }
        ensures stands { (flows : List Flow) → IsRibOf self.old.size flows self.old → IsRibOf self.old.size flows self.new }
        ensures journal { IfOk result (λ turn. self.new.journal.changes ≡ self.old.journal.changes ++ turn.change ∷ []) }
        ensures size { self.new.size ≡ self.old.size }
        ensures number { self.new.number ≡ self.old.number }
        ensures removes { (key : FlowKey) (block needed free : ℕ) → update ≡ updates.Del key → result ≢ Err (refusals.RowsFull block needed free) }
        ensures refused { OnErr result (self.new ≡ self.old) }
    {
        let decision = self.judge(update)?;
        let turn = self.commit(decision)?;
        Ok(turn)
    }

    /// Judges an update of a key that the owner owns, as `accept` does, and changes nothing.
    pub fn judge(&mut self, update: Update) -> Result<Decision, UpdateRefused>
        requires owns { IsOwned self.old.size self.old.number (updated_key update) }
        ensures answer { (flows : List Flow) → IsRibOf self.old.size flows self.old → AnswersUpdate self.old.size flows self.old.journal.changes update (turn_decided result) }
        ensures decision { IfOk result (λ decision. IsDecided self.old decision) }
        ensures removes { (key : FlowKey) (block needed free : ℕ) → update ≡ updates.Del key → result ≢ Err (refusals.RowsFull block needed free) }
        ensures same { self.new ≡ self.old }
    {
        let turns = self.journal.len();
        if turns == MOST_TURNS {
            return Err(UpdateRefused::Spent { limit: MOST_TURNS });
        }
        let key = update.key();
        let spot = self.spot(key);
        let change = Change {
            block: spot.block,
            group: spot.group,
            key,
            to: update.wanted(),
        };
        let block = &self.blocks[spot.index];
        let found = block.find(spot.bucket, key);
        let before = flow_of(found);
        check_place(block, spot.block, spot.group, &update, before)?;
        let bits = self.shape.value_bits();
        let content = fitting_record(block, bits, &change, &mut self.room)?;
        let fib = FibPlan::of(&update, before);
        let number = turns + 1;
        let turn = Turn {
            number,
            change,
            content,
            fib,
        };
        Ok(Decision { spot, found, turn })
    }

    /// Makes the change of an update that the owner has judged since its last turn. It asks for memory first, and fails only
    /// for want of it, with nothing changed.
    pub fn commit(&mut self, decision: Decision) -> Result<Turn, OutOfMemory>
        requires decision { IsDecided self.old decision }
        ensures turn { IfOk result (λ turn. turn ≡ decision.turn) }
        ensures stands { (flows : List Flow) → IsRibOf self.old.size flows self.old → IsRibOf self.old.size flows self.new }
        ensures journal { IfOk result (λ turn. self.new.journal.changes ≡ self.old.journal.changes ++ turn.change ∷ []) }
        ensures size { self.new.size ≡ self.old.size }
        ensures number { self.new.number ≡ self.old.number }
        ensures refused { OnErr result (self.new ≡ self.old) }
    {
        let Decision { spot, found, turn } = decision;
        let block = &mut self.blocks[spot.index];
        block.reserve()?;
        self.journal.reserve()?;
        block.change(spot.bucket, found, &turn.change, turn.content.rows());
        self.journal.push(turn.change);
        Ok(turn)
    }
}
