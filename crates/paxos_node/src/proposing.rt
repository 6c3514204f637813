// Proposing: offers, the row Promise and own values.
ghost use Rattle.std.specs.Prelude.{◌≡◌, ◌≤◌, ◌++◌, ◌^◌, drop, false, length, map, IfOk, OnOk};
ghost use Rattle.gr_ids.specs.declared.memory.Memory.{Memory};
ghost use Rattle.node_rules.specs.Names.{Offer};
ghost use Rattle.node_rules.specs.Node.{quiet};
ghost use Rattle.node_rules.specs.Proposing.{hear_offer, hear_promise, offers, offers_out, own_value, propose_all, propose_one};
ghost use Rattle.paxos_node.specs.Left.{casts};

use crate::leading::{choose, keep_promise, leads_at, offer, own_vote};
use crate::node::Node;
use crate::sending::{Notice, tell_others};
use crate::turns::ruling;
use gr_ids::{Ballot, Inc, Memory, Sequence};
use paxos_forms::{Message, Wire, copied};
use slot_values::{Value, Vote};
use std::alloc::Global;
use std::slice;

impl Node {
    /// One proposal by the proposing rule; false where there is none to make, and then nothing is done.
    pub(crate) fn propose_one(
        &mut self,
        alloc: Global,
        sent: &mut Vec<Message>,
    ) -> Result<bool, Memory>
        ensures more { IfOk result (λ more. more ≡ false → propose_one self.old ≡ quiet self.old) }
        ensures node { OnOk result (self.new ≡ (propose_one self.old).node) }
        ensures sent { OnOk result (sent.new.items ≡ sent.old.items ++ (propose_one self.old).sent) }
    {
        let chosen = choose(
            alloc,
            &mut self.leader,
            &self.learner,
            &self.turns,
            self.horizon,
        )?;
        let Some(slot) = chosen else {
            return Ok(false);
        };
        let Some(vote) = own_vote(alloc, &self.leader, slot)? else {
            return Ok(false);
        };
        self.cast(alloc, sent, vote)?;
        Ok(true)
    }

    // The leader votes for its proposal itself, tells it to the others in the slot's configuration, and counts its own vote.
    fn cast(&mut self, alloc: Global, sent: &mut Vec<Message>, vote: Vote) -> Result<(), Memory>
        requires { vote.slot ≤ 2 ^ 42 }
        ensures node { OnOk result (self.new ≡ (casts self.old vote).node) }
        ensures sent { OnOk result (sent.new.items ≡ sent.old.items ++ (casts self.old vote).sent) }
    {
        let Vote {
            slot,
            ballot,
            value,
        } = vote;
        let me = self.me;
        let config = ruling(&self.turns, slot);
        let notice = Notice::Accept(ballot, slot, &value);
        tell_others(alloc, sent, me, config, &notice)?;
        self.acceptor.vote(Vote {
            slot,
            ballot,
            value,
        })?;
        self.hear_accepted(alloc, sent, me, ballot, slot)
    }

    /// Proposes while there is something to propose, up to the horizon.
    pub(crate) fn propose_all(
        &mut self,
        alloc: Global,
        sent: &mut Vec<Message>,
    ) -> Result<(), Memory>
        ensures node { OnOk result (self.new ≡ (propose_all self.old).node) }
        ensures sent { OnOk result (sent.new.items ≡ sent.old.items ++ (propose_all self.old).sent) }
    {
        let horizon = self.horizon;
        for proposed in 0..horizon {
            if !self.propose_one(alloc, sent)? {
                return Ok(());
            }
        }
        Ok(())
    }

    /// Promise of the ballot, with the sender's votes: the leader at the ballot keeps it, and proposes.
    #[tactic(auto, unfolding(node_rules::specs::Proposing::hear_promise))]
    pub(crate) fn hear_promise(
        &mut self,
        alloc: Global,
        sent: &mut Vec<Message>,
        from: Inc,
        ballot: Ballot,
        votes: &Sequence<Vote>,
    ) -> Result<(), Memory>
        ensures node { OnOk result (self.new ≡ (hear_promise from ballot votes.now self.old).node) }
        ensures sent { OnOk result (sent.new.items ≡ sent.old.items ++ (hear_promise from ballot votes.now self.old).sent) }
    {
        if !leads_at(&self.leader, ballot) {
            return Ok(());
        }
        keep_promise(&mut self.leader, from, copied(alloc, votes.as_slice())?)?;
        self.propose_all(alloc, sent)
    }

    /// Offer of the value: a leader takes it, and proposes. A value with no number yet is a joiner's Add, and the member's.
    #[tactic(auto, unfolding(node_rules::specs::Proposing::hear_offer))]
    pub(crate) fn hear_offer(
        &mut self,
        alloc: Global,
        sent: &mut Vec<Message>,
        value: &Value,
    ) -> Result<(), Memory>
        ensures node { OnOk result (self.new ≡ (hear_offer value.now self.old).node) }
        ensures sent { OnOk result (sent.new.items ≡ sent.old.items ++ (hear_offer value.now self.old).sent) }
    {
        if value.id.number == 0 {
            return Ok(());
        }
        let values = slice::from_ref(value);
        if !offer(alloc, &mut self.leader, &self.learner, &self.turns, values)? {
            return Ok(());
        }
        self.propose_all(alloc, sent)
    }

    /// A new own value, which is offered.
    #[tactic(auto, unfolding(node_rules::specs::Proposing::own_value))]
    pub(crate) fn own_value(
        &mut self,
        alloc: Global,
        sent: &mut Vec<Message>,
        value: &Value,
    ) -> Result<(), Memory>
        ensures node { OnOk result (self.new ≡ (own_value value.now self.old).node) }
        ensures sent { OnOk result (sent.new.items ≡ sent.old.items ++ (own_value value.now self.old).sent) }
    {
        let first = self.own.len();
        self.own.push(value.try_copy(alloc)?)?;
        self.offer_own(alloc, sent, first)
    }

    /// The own values from this index on are offers of the leader here, which proposes, or go to the believed leader.
    pub(crate) fn offer_own(
        &mut self,
        alloc: Global,
        sent: &mut Vec<Message>,
        first: usize,
    ) -> Result<(), Memory>
        requires { first ≤ length self.old.own }
        ensures node { OnOk result (self.new ≡ (offers (drop first self.old.own) self.old self.old.leader).node) }
        ensures sent { OnOk result (sent.new.items ≡ sent.old.items ++ (offers (drop first self.old.own) self.old self.old.leader).sent) }
    {
        let values = &self.own[first..];
        if !offer(alloc, &mut self.leader, &self.learner, &self.turns, values)? {
            return self.send_offers(alloc, sent, first);
        }
        self.propose_all(alloc, sent)
    }

    // Offers of the own values from this index on to the believed leader, where that is another.
    fn send_offers(
        &self,
        alloc: Global,
        sent: &mut Vec<Message>,
        first: usize,
    ) -> Result<(), Memory>
        requires { first ≤ length self.now.own }
        ensures { OnOk result (sent.new.items ≡ sent.old.items ++ offers_out self.now (drop first self.now.own)) }
    {
        let promise = self.acceptor.promised();
        if promise.round == 0 || promise.inc == self.me {
            return Ok(());
        }
        send_each(alloc, sent, self.me, promise.inc, &self.own[first..])
    }
}

fn send_each(
    alloc: Global,
    sent: &mut Vec<Message>,
    me: Inc,
    to: Inc,
    values: &[Value],
) -> Result<(), Memory>
    ensures { OnOk result (sent.new.items ≡ sent.old.items ++ map (λ v. record { from = me; to = to; wire = Offer v }) values.now) }
{
    for value in values {
        sent.push(Message {
            from: me,
            to,
            wire: Wire::Offer(value.try_copy(alloc)?),
        })?;
    }
    Ok(())
}
