// The rows Learn, Accepted and Alive: how decided values spread.
ghost use Rattle.std.specs.Prelude.{◌≡◌, ◌≤◌, ◌++◌, ◌^◌, map, OnOk};
ghost use Rattle.gr_ids.specs.declared.memory.Memory.{Memory};
ghost use Rattle.node_rules.specs.Learning.{hear_accepted, hear_alive, hear_learn, learns, learns_from, settles};
ghost use Rattle.paxos_node.specs.Notices.{learn_of};

use crate::leading::{count, leads_at, own_vote};
use crate::node::Node;
use crate::sending::{Notice, tell_others};
use crate::told::raise;
use crate::turns::{is_member, reached};
use gr_ids::{Ballot, Inc, Memory};
use paxos_forms::{Message, Wire};
use paxos_votes::KnownSlot;
use slot_values::Value;
use std::alloc::Global;

impl Node {
    /// Learn of the value in a slot. Logarithmic in the slots kept, and linear in the value's bytes.
    #[tactic(auto, unfolding(node_rules::specs::Learning::hear_learn))]
    pub(crate) fn hear_learn(
        &mut self,
        alloc: Global,
        slot: u64,
        value: &Value,
    ) -> Result<(), Memory>
        requires { slot ≤ 2 ^ 42 }
        ensures { OnOk result (self.new ≡ (hear_learn slot value.now self.old).node) }
    {
        self.learn(slot, value.try_copy(alloc)?)
    }

    // The slot is decided here, unless it was.
    fn learn(&mut self, slot: u64, value: Value) -> Result<(), Memory>
        requires { slot ≤ 2 ^ 42 }
        ensures { OnOk result (self.new ≡ learns self.old slot value) }
    {
        self.learner.learn(slot, value)?;
        Ok(())
    }

    /// Accepted of a slot at the ballot: it counts, where the node leads at the ballot; a majority decides the slot.
    #[tactic(auto, unfolding(node_rules::specs::Learning::hear_accepted))]
    pub(crate) fn hear_accepted(
        &mut self,
        alloc: Global,
        sent: &mut Vec<Message>,
        from: Inc,
        ballot: Ballot,
        slot: u64,
    ) -> Result<(), Memory>
        requires { slot ≤ 2 ^ 42 }
        ensures node { OnOk result (self.new ≡ (hear_accepted from ballot slot self.old).node) }
        ensures sent { OnOk result (sent.new.items ≡ sent.old.items ++ (hear_accepted from ballot slot self.old).sent) }
    {
        if !leads_at(&self.leader, ballot) {
            return Ok(());
        }
        if !count(&mut self.leader, &self.learner, &self.turns, from, slot)? {
            return Ok(());
        }
        let Some(vote) = own_vote(alloc, &self.leader, slot)? else {
            return Ok(());
        };
        self.settle(alloc, sent, slot, vote.value)
    }

    // The slot is decided, and the others in its configuration and the other members are told.
    fn settle(
        &mut self,
        alloc: Global,
        sent: &mut Vec<Message>,
        slot: u64,
        value: Value,
    ) -> Result<(), Memory>
        requires { slot ≤ 2 ^ 42 }
        ensures node { OnOk result (self.new ≡ (settles self.old slot value).node) }
        ensures sent { OnOk result (sent.new.items ≡ sent.old.items ++ (settles self.old slot value).sent) }
    {
        let incs = reached(alloc, &self.turns, slot)?;
        tell_others(alloc, sent, self.me, &incs, &Notice::Learn(slot, &value))?;
        self.learn(slot, value)
    }

    /// Alive: the sender has decided all slots below this one. It is told at most ten that it lacks.
    #[tactic(auto, unfolding(node_rules::specs::Learning::hear_alive))]
    pub(crate) fn hear_alive(
        &mut self,
        alloc: Global,
        sent: &mut Vec<Message>,
        from: Inc,
        next: u64,
    ) -> Result<(), Memory>
        ensures node { OnOk result (self.new ≡ (hear_alive from next self.old).node) }
        ensures sent { OnOk result (sent.new.items ≡ sent.old.items ++ (hear_alive from next self.old).sent) }
    {
        if !is_member(&self.turns, from) {
            return self.send_gone(alloc, sent, from);
        }
        self.send_known(alloc, sent, from, next)?;
        raise(&mut self.told, from, next);
        Ok(())
    }

    // Learn of the ten slots from this one on, as far as they are decided and kept.
    fn send_known(
        &self,
        alloc: Global,
        sent: &mut Vec<Message>,
        to: Inc,
        from: u64,
    ) -> Result<(), Memory>
        ensures { OnOk result (sent.new.items ≡ sent.old.items ++ learns_from self.now to from) }
    {
        let known = self.learner.known_from(alloc, from)?;
        send_learns(sent, self.me, to, known)
    }
}

fn send_learns(
    sent: &mut Vec<Message>,
    me: Inc,
    to: Inc,
    known: Vec<KnownSlot>,
) -> Result<(), Memory>
    ensures { OnOk result (sent.new.items ≡ sent.old.items ++ map (learn_of me to) known.items) }
{
    for one in known {
        sent.push(Message {
            from: me,
            to,
            wire: Wire::Learn(one.slot, one.value),
        })?;
    }
    Ok(())
}
