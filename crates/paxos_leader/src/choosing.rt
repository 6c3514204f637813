// What is proposed, and where.
ghost use Rattle.std.specs.Prelude.{◌≡◌, ◌||◌, ◌==◌, not, is_some, slice_get, Some, None, option_map, if◌then◌else◌, IfOk, OnErr, OnOk};
ghost use Rattle.gr_ids.specs.declared.memory.Memory.{Memory};
ghost use Rattle.slot_values.specs.Log.{majority};
ghost use Rattle.node_rules.specs.Known.{config_by};
ghost use Rattle.node_rules.specs.Leader.{best, first_offer, free_slot, has_promise, may_propose, noop, proposal_at, proposing, reported_above};
ghost use Rattle.node_rules.specs.Learner.{is_decided};
ghost use Rattle.node_rules.specs.Proposing.{decided_above};
ghost use Rattle.paxos_leader.specs.Choosing.{forced, with_choice};
ghost use Rattle.paxos_leader.specs.Parts.{standing};

use crate::leader::{Leader, Proposed};
use crate::promise::{best_vote, is_promised, is_reported_above};
use gr_ids::{Inc, Memory, ValueId};
use paxos_votes::Learner;
use slot_values::{Turns, Value, What};
use std::alloc::Global;

/// The last slot that is ever proposed.
const LAST_SLOT: u64 = 1 << 42;

impl Leader {
    /// The least of the slots that the horizon allows that is neither decided nor proposed. Logarithmic in the slots kept
    /// for each slot that is passed.
    pub(crate) fn free_slot(&self, learner: &Learner, horizon: u16) -> Option<u64>
        ensures { result ≡ free_slot (is_decided learner.now) self.now horizon learner.now.next }
    {
        let mut slot = learner.least_undecided();
        for passed in 0..horizon {
            if self.is_free(learner, slot) {
                return Some(slot);
            }
            slot += 1;
        }
        None
    }

    fn is_free(&self, learner: &Learner, slot: u64) -> bool
        ensures { result ≡ not (is_decided learner.now slot || is_some (proposal_at self.now slot)) }
    {
        !learner.is_decided(slot) && !self.proposals.contains_key(&slot)
    }

    /// The slot's configuration, where a value may be proposed there: it is known, the slot isn't past the last one, and a
    /// majority promised. The first ballot, of round 1, needs no promises. Linear in the configuration times the promises.
    pub(crate) fn open_config<'a>(&self, turns: &'a Turns, slot: u64) -> Option<&'a [Inc]>
        ensures { option_map (λ c. c.now) result ≡ (if may_propose (Some (standing turns.now)) self.now slot then config_by (Some (standing turns.now)) slot else None) }
    {
        let Some(config) = turns.config(slot) else {
            return None;
        };
        if slot > LAST_SLOT {
            return None;
        }
        if self.is_promised_by(config) {
            Some(config)
        } else {
            None
        }
    }

    fn is_promised_by(&self, config: &[Inc]) -> bool
        ensures { result ≡ ((self.now.ballot.round == 1) || majority config.now (has_promise self.now.promises)) }
    {
        self.ballot.round == 1 || is_promised(&self.promises, config)
    }

    /// The value that the votes reported force, or a gap below something later. Linear in the votes reported and the bytes.
    pub(crate) fn forced_value(
        &self,
        alloc: Global,
        learner: &Learner,
        config: &[Inc],
        slot: u64,
    ) -> Result<Option<Value>, Memory>
        ensures { IfOk result (λ value. value ≡ forced (reported_above self.now.promises slot || decided_above learner.now slot) self.now.ballot (best config.now self.now.promises slot)) }
    {
        if let Some(vote) = best_vote(config, &self.promises, slot) {
            return Ok(Some(vote.value.try_copy(alloc)?));
        }
        if is_reported_above(&self.promises, slot) || learner.is_decided_above(slot) {
            return Ok(Some(noop(self.ballot.inc)));
        }
        Ok(None)
    }

    /// The value is proposed in the slot, and nobody has accepted it. Logarithmic in the proposals.
    pub(crate) fn put_proposal(
        &mut self,
        alloc: Global,
        slot: u64,
        value: Value,
    ) -> Result<(), Memory>
        ensures ok { OnOk result (self.new ≡ proposing self.old (record { slot = slot; value = value; offers = self.old.offers })) }
        ensures err { OnErr result (self.new ≡ self.old) }
    {
        let accepted = Vec::new(alloc);
        self.proposals.insert(slot, Proposed { value, accepted })?;
        Ok(())
    }

    /// The first offer is proposed in the slot, and leaves the offers. Linear in the offers and in the value's bytes.
    pub(crate) fn propose_offer(&mut self, alloc: Global, slot: u64) -> Result<Option<u64>, Memory>
        ensures slot { IfOk result (λ slot_taken. slot_taken ≡ option_map (λ c. c.slot) (first_offer slot self.old.offers)) }
        ensures ok { OnOk result (self.new ≡ with_choice self.old (first_offer slot self.old.offers)) }
        ensures err { OnErr result (self.new ≡ self.old) }
    {
        let Some(value) = self.first_offered(alloc)? else {
            return Ok(None);
        };
        self.put_proposal(alloc, slot, value)?;
        self.offers.shift_remove_index(0);
        Ok(Some(slot))
    }

    // A copy of the first offer.
    fn first_offered(&self, alloc: Global) -> Result<Option<Value>, Memory>
        ensures { IfOk result (λ value. value ≡ slice_get self.now.offers 0) }
    {
        match self.offers.first() {
            Some((id, what)) => Ok(Some(Value {
                id: *id,
                what: what.try_copy(alloc)?,
            })),
            None => Ok(None),
        }
    }
}

fn noop(me: Inc) -> Value
    ensures { result ≡ noop me }
{
    Value {
        id: ValueId {
            origin: me,
            number: 0,
        },
        what: What::Noop,
    }
}
