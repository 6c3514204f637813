// The rows Prepare and Accept: a node promises and votes.
ghost use Rattle.std.specs.Prelude.{◌≡◌, ◌++◌, OnOk};
ghost use Rattle.gr_ids.specs.declared.memory.Memory.{Memory};
ghost use Rattle.node_rules.specs.Voting.{gone_to, hear_accept, hear_prepare};

use crate::leading::stop_below;
use crate::node::Node;
use crate::turns::{is_member, was_member};
use gr_ids::{Ballot, Inc, Memory};
use paxos_forms::{Message, Wire};
use slot_values::Value;
use std::alloc::Global;

impl Node {
    /// Prepare of the ballot from a slot on: a promise, with the own votes in these slots.
    #[tactic(auto, unfolding(node_rules::specs::Voting::hear_prepare))]
    pub(crate) fn hear_prepare(
        &mut self,
        alloc: Global,
        sent: &mut Vec<Message>,
        from: Inc,
        ballot: Ballot,
        slot: u64,
    ) -> Result<(), Memory>
        ensures node { OnOk result (self.new ≡ (hear_prepare from ballot slot self.old).node) }
        ensures sent { OnOk result (sent.new.items ≡ sent.old.items ++ (hear_prepare from ballot slot self.old).sent) }
    {
        if slot < self.acceptor.kept_from() {
            return self.send_gone(alloc, sent, from);
        }
        let Some(votes) = self.acceptor.prepare(alloc, ballot, slot)? else {
            return Ok(());
        };
        stop_below(&mut self.leader, ballot);
        sent.push(Message {
            from: self.me,
            to: from,
            wire: Wire::Promise(ballot, slot, votes),
        })?;
        Ok(())
    }

    /// Accept of the value in a slot at the ballot: a promise, and a vote.
    #[tactic(auto, unfolding(node_rules::specs::Voting::hear_accept))]
    pub(crate) fn hear_accept(
        &mut self,
        alloc: Global,
        sent: &mut Vec<Message>,
        from: Inc,
        ballot: Ballot,
        slot: u64,
        value: &Value,
    ) -> Result<(), Memory>
        ensures node { OnOk result (self.new ≡ (hear_accept from ballot slot value.now self.old).node) }
        ensures sent { OnOk result (sent.new.items ≡ sent.old.items ++ (hear_accept from ballot slot value.now self.old).sent) }
    {
        if slot < self.acceptor.kept_from() {
            return self.send_gone(alloc, sent, from);
        }
        if !self.acceptor.accept(alloc, ballot, slot, value)? {
            return Ok(());
        }
        stop_below(&mut self.leader, ballot);
        sent.push(Message {
            from: self.me,
            to: from,
            wire: Wire::Accepted(ballot, slot),
        })?;
        Ok(())
    }

    /// Gone, to a sender that was a member and isn't, by the entries taken.
    pub(crate) fn send_gone(
        &self,
        alloc: Global,
        sent: &mut Vec<Message>,
        to: Inc,
    ) -> Result<(), Memory>
        ensures { OnOk result (sent.new.items ≡ sent.old.items ++ gone_to self.now to) }
    {
        if is_member(&self.turns, to) || !was_member(alloc, &self.turns, to)? {
            return Ok(());
        }
        sent.push(Message {
            from: self.me,
            to,
            wire: Wire::Gone,
        })?;
        Ok(())
    }
}
