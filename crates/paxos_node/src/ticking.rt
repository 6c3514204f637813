// A tick: what was lost is sent again.
ghost use Rattle.std.specs.Prelude.{◌≡◌, ◌≤◌, ◌+◌, ◌++◌, flat_map, OnOk, Some};
ghost use Rattle.gr_ids.specs.declared.memory.Memory.{Memory};
ghost use Rattle.node_rules.specs.Ticks.{accepts_again, lead_tick, prepares_again, tick};
ghost use Rattle.paxos_node.specs.Notices.{accepts_to};

use crate::node::Node;
use crate::sending::{Notice, tell_others};
use crate::turns::members_in;
use gr_ids::{Ballot, Inc, Memory};
use paxos_forms::Message;
use paxos_leader::{Leader, Unaccepted};
use slot_values::Turns;
use std::alloc::Global;

impl Node {
    /// Alive to every other member; own values that aren't kept are offered again; a leader sends again what isn't answered.
    #[tactic(auto, unfolding(node_rules::specs::Ticks::tick))]
    pub(crate) fn tick(&mut self, alloc: Global, sent: &mut Vec<Message>) -> Result<(), Memory>
        ensures node { OnOk result (self.new ≡ (tick self.old).node) }
        ensures sent { OnOk result (sent.new.items ≡ sent.old.items ++ (tick self.old).sent) }
    {
        let alive = Notice::Alive(self.learner.least_undecided());
        tell_others(alloc, sent, self.me, members_in(&self.turns), &alive)?;
        self.offer_own(alloc, sent, 0)?;
        self.send_again(alloc, sent)
    }

    // A leader's Prepare and Accepts go again to those who haven't answered.
    fn send_again(&self, alloc: Global, sent: &mut Vec<Message>) -> Result<(), Memory>
        ensures { OnOk result (sent.new.items ≡ sent.old.items ++ lead_tick self.now self.now.leader) }
    {
        let Some(leader) = &self.leader else {
            return Ok(());
        };
        let Some(turns) = &self.turns else {
            return Ok(());
        };
        self.prepare_again(alloc, sent, leader, turns)?;
        self.accept_again(alloc, sent, leader, turns)
    }

    // The first ballot, of round 1, wants no promises.
    fn prepare_again(
        &self,
        alloc: Global,
        sent: &mut Vec<Message>,
        leader: &Leader,
        turns: &Turns,
    ) -> Result<(), Memory>
        requires turns { Some turns.now.turns ≡ self.now.turns }
        requires kept { turns.now.low ≤ turns.now.turns.base + 1 }
        ensures { OnOk result (sent.new.items ≡ sent.old.items ++ prepares_again self.now leader.now) }
    {
        let ballot = leader.ballot();
        if ballot.round == 1 {
            return Ok(());
        }
        let next = self.learner.least_undecided();
        let incs = leader.unpromised(alloc, &self.learner, turns, self.horizon)?;
        let notice = Notice::Prepare(ballot, next);
        tell_others(alloc, sent, self.me, &incs, &notice)
    }

    fn accept_again(
        &self,
        alloc: Global,
        sent: &mut Vec<Message>,
        leader: &Leader,
        turns: &Turns,
    ) -> Result<(), Memory>
        requires turns { Some turns.now.turns ≡ self.now.turns }
        requires kept { turns.now.low ≤ turns.now.turns.base + 1 }
        ensures { OnOk result (sent.new.items ≡ sent.old.items ++ flat_map (accepts_again self.now leader.now) leader.now.proposals) }
    {
        let missing = leader.unaccepted(alloc, &self.learner, turns)?;
        send_accepts(alloc, sent, self.me, leader.ballot(), &missing)
    }
}

fn send_accepts(
    alloc: Global,
    sent: &mut Vec<Message>,
    me: Inc,
    ballot: Ballot,
    missing: &[Unaccepted],
) -> Result<(), Memory>
    ensures { OnOk result (sent.new.items ≡ sent.old.items ++ flat_map (accepts_to me ballot) missing.now) }
{
    for one in missing {
        let notice = Notice::Accept(ballot, one.slot, &one.value);
        tell_others(alloc, sent, me, one.incs.as_slice(), &notice)?;
    }
    Ok(())
}
