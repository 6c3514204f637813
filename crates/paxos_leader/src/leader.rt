// The leader.
ghost use Rattle.std.specs.Prelude.{◌≡◌, [], not, option_map, Some, IfOk, OnErr, OnOk};
ghost use Rattle.gr_ids.specs.declared.memory.Memory.{Memory};
ghost use Rattle.node_rules.specs.Leader.{forget_proposals, keep_promise, new_leader, proposal_at, refuses_offer, take_offer};
ghost use Rattle.node_rules.specs.Learner.{is_decided};
ghost use Rattle.slot_values.specs.Log.{last_of};
ghost use Rattle.paxos_leader.specs.Choosing.{next_choice, with_choice};
ghost use Rattle.paxos_leader.specs.Counting.{counted, decides};
ghost use Rattle.paxos_leader.specs.Parts.{standing};

use crate::counting::{has_majority, has_offer, is_proposed};
use crate::incs::put_inc;
use crate::promise::{Promise, has_promise};
use gr_ids::{Ballot, Inc, Memory, Sequence, ValueId};
use indexmap::IndexMap;
use paxos_votes::{Learner, forget_below};
use slot_values::{Turns, Value, Vote, What};
use std::alloc::Global;
use std::collections::BTreeMap;
use std::marker::Model;

/// A value proposed, and who accepted it, ascending.
#[derive(Debug, Drop)]
pub struct Proposed {
    pub value: Value,
    pub accepted: Vec<Inc>,
}

/// A leader of Multi-Paxos (Lamport, "Paxos Made Simple", sections 2.2 and 3). The promises and the offers stand in order
/// of arrival.
#[derive(Drop)]
pub struct Leader {
    pub(crate) ballot: Ballot,
    pub(crate) promises: Vec<Promise>,
    pub(crate) proposals: BTreeMap<u64, Proposed>,
    pub(crate) offers: IndexMap<ValueId, What>,
}

impl Model for Leader {
    ghost use Rattle.std.specs.Prelude.{map};
    ghost use Rattle.node_rules.specs.Leader.{Leader as Leading};
    ghost use Rattle.paxos_leader.specs.Parts.{offer_of, promised_of, proposal_of};

    ghost Value = { Leading };

    ghost view = { λ l. record {
      ballot = l.ballot;
      promises = map promised_of l.promises.items;
      proposals = map proposal_of l.proposals.entries;
      offers = map offer_of l.offers.entries;
    } };
}

impl Leader {
    /// The leader at the first ballot, of round 1, which needs no promises.
    pub fn first(alloc: Global, me: Inc) -> Leader
        ensures { result ≡ new_leader (record { round = 1; inc = me }) [] }
    {
        Leader::campaign(alloc, Ballot { round: 1, inc: me })
    }

    /// A leader at a new ballot, to whom nobody has promised.
    pub fn campaign(alloc: Global, ballot: Ballot) -> Leader
        ensures { result ≡ new_leader ballot [] }
    {
        Leader {
            ballot,
            promises: Vec::new(alloc),
            proposals: BTreeMap::new(alloc),
            offers: IndexMap::new(alloc),
        }
    }

    /// The leader's ballot. Takes constant time.
    pub fn ballot(&self) -> Ballot
        ensures { result ≡ self.now.ballot }
    {
        self.ballot
    }

    /// A promise of the leader's ballot is kept, once for each sender. Linear in the promises.
    pub fn promise(&mut self, inc: Inc, votes: Sequence<Vote>) -> Result<(), Memory>
        ensures ok { OnOk result (self.new ≡ keep_promise self.old inc votes) }
        ensures err { OnErr result (self.new ≡ self.old) }
    {
        if has_promise(&self.promises, inc) {
            return Ok(());
        }
        self.promises.push(Promise { inc, votes })?;
        Ok(())
    }

    /// An offer goes last. False, and nothing is done, exactly where its identity is there, or is that of a proposal in an
    /// undecided slot, or its number isn't above the origin's last kept number. Linear in the proposals kept.
    pub fn offer(&mut self, value: Value, learner: &Learner, turns: &Turns) -> Result<bool, Memory>
        ensures answer { IfOk result (λ taken. taken ≡ not (refuses_offer (is_decided learner.now) (last_of turns.now.turns.reading) self.old value)) }
        ensures ok { OnOk result (self.new ≡ take_offer (is_decided learner.now) (last_of turns.now.turns.reading) self.old value) }
        ensures err { OnErr result (self.new ≡ self.old) }
    {
        if has_offer(&self.offers, value.id) || is_proposed(&self.proposals, learner, value.id) {
            return Ok(false);
        }
        if value.id.number <= turns.last(value.id.origin) {
            return Ok(false);
        }
        self.offers.insert(value.id, value.what)?;
        Ok(true)
    }

    /// Proposes a value in the least slot that is neither decided nor proposed, among those that the horizon allows, and
    /// tells the slot. None exactly where there is none such, or where its configuration isn't known or no majority of it
    /// promised, or where no value is there to be proposed. The value is that of the highest vote reported; else a Noop below
    /// something later; else the first offer, which leaves. Linear in the promises with their votes, in the offers, and in
    /// the value's bytes.
    pub fn propose(
        &mut self,
        alloc: Global,
        learner: &Learner,
        turns: &Turns,
        horizon: u16,
    ) -> Result<Option<u64>, Memory>
        ensures slot { IfOk result (λ slot. slot ≡ option_map (λ c. c.slot) (next_choice self.old learner.now turns.now horizon)) }
        ensures ok { OnOk result (self.new ≡ with_choice self.old (next_choice self.old learner.now turns.now horizon)) }
        ensures err { OnErr result (self.new ≡ self.old) }
    {
        let Some(slot) = self.free_slot(learner, horizon) else {
            return Ok(None);
        };
        let Some(config) = self.open_config(turns, slot) else {
            return Ok(None);
        };
        match self.forced_value(alloc, learner, config, slot)? {
            Some(value) => {
                self.put_proposal(alloc, slot, value)?;
                Ok(Some(slot))
            }
            None => self.propose_offer(alloc, slot),
        }
    }

    /// The value proposed in the slot at this ballot. None exactly where the slot wasn't proposed, or was forgotten.
    /// Logarithmic in the proposals kept.
    pub fn proposal(&self, slot: u64) -> Option<&Value>
        ensures { option_map (λ v. v.now) result ≡ option_map (λ p. p.value) (proposal_at self.now slot) }
    {
        match self.proposals.get(&slot) {
            Some(proposed) => Some(&proposed.value),
            None => None,
        }
    }

    /// The sender accepted the slot at this ballot: it counts where the slot was proposed and isn't decided. True exactly
    /// where then a majority of the slot's configuration accepted it. Logarithmic in the proposals kept.
    pub fn accepted(
        &mut self,
        inc: Inc,
        slot: u64,
        learner: &Learner,
        turns: &Turns,
    ) -> Result<bool, Memory>
        ensures answer { IfOk result (λ settled. settled ≡ decides (is_decided learner.now) (Some (standing turns.now)) inc (proposal_at self.old slot)) }
        ensures ok { OnOk result (self.new ≡ counted (is_decided learner.now) inc self.old (proposal_at self.old slot)) }
        ensures err { OnErr result (self.new ≡ self.old) }
    {
        if learner.is_decided(slot) {
            return Ok(false);
        }
        let Some(proposed) = self.proposals.get_mut(&slot) else {
            return Ok(false);
        };
        put_inc(&mut proposed.accepted, inc)?;
        Ok(has_majority(&proposed.accepted, turns, slot))
    }

    /// Forgets the proposals of slots below `below`. Logarithmic in the proposals kept for each one; takes no memory.
    pub fn forget(&mut self, below: u64)
        ensures { self.new ≡ forget_proposals below self.old }
    {
        forget_below(&mut self.proposals, below);
    }
}
