// A campaign: a node is to lead.
ghost use Rattle.std.specs.Prelude.{◌≡◌, ◌++◌, IfOk, OnOk};
ghost use Rattle.gr_ids.specs.declared.memory.Memory.{Memory};
ghost use Rattle.node_rules.specs.Proposing.{audience, campaign, reach};

use crate::node::Node;
use crate::sending::{Notice, tell_others};
use crate::turns::{members_in, ruling};
use gr_ids::{Ballot, Inc, Memory};
use paxos_forms::Message;
use paxos_leader::{Leader, put_incs};
use std::alloc::Global;

impl Node {
    /// A campaign at a ballot above the promise, which becomes the promise. At the greatest round nothing is done.
    #[tactic(auto, unfolding(node_rules::specs::Proposing::campaign))]
    pub(crate) fn campaign(&mut self, alloc: Global, sent: &mut Vec<Message>) -> Result<(), Memory>
        ensures node { OnOk result (self.new ≡ (campaign self.old).node) }
        ensures sent { OnOk result (sent.new.items ≡ sent.old.items ++ (campaign self.old).sent) }
    {
        let promise = self.acceptor.promised();
        if promise.round == u32::MAX {
            return Ok(());
        }
        if self.turns.is_none() {
            return Ok(());
        }
        let ballot = Ballot {
            round: promise.round + 1,
            inc: self.me,
        };
        let next = self.learner.least_undecided();
        let mut leader = Leader::campaign(alloc, ballot);
        leader.promise(self.me, self.acceptor.votes_from(alloc, next)?)?;
        let audience = self.audience(alloc)?;
        let notice = Notice::Prepare(ballot, next);
        tell_others(alloc, sent, self.me, &audience, &notice)?;
        self.acceptor.promise(ballot);
        self.leader = Some(leader);
        Ok(())
    }

    // The members, and those in a configuration of the slots that the horizon allows, ascending.
    fn audience(&self, alloc: Global) -> Result<Vec<Inc>, Memory>
        ensures { IfOk result (λ incs. incs.items ≡ audience self.now) }
    {
        let mut incs = self.reach(alloc)?;
        put_incs(&mut incs, members_in(&self.turns))?;
        Ok(incs)
    }

    fn reach(&self, alloc: Global) -> Result<Vec<Inc>, Memory>
        ensures { IfOk result (λ incs. incs.items ≡ reach self.now self.now.horizon self.now.learner.next) }
    {
        let next = self.learner.least_undecided();
        let mut incs = Vec::new(alloc);
        for passed in 0..self.horizon {
            let slot = next + (self.horizon - 1 - passed) as u64;
            put_incs(&mut incs, ruling(&self.turns, slot))?;
        }
        Ok(incs)
    }
}
