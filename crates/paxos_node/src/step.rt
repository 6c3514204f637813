// A whole step of a node.
ghost use Rattle.std.specs.Prelude.{◌≡◌, ◌++◌, ◌≤◌, IfOk, OnOk, length};
ghost use Rattle.gr_ids.specs.declared.memory.Memory.{Memory};
ghost use Rattle.slot_values.specs.Spelling.{last_u32};
ghost use Rattle.node_rules.specs.Step.{hear, node_step, row};
ghost use Rattle.paxos_node.specs.Events.{IsInRange, MayHappen};

use crate::node::Node;
use gr_ids::{Inc, Memory};
use node_rules::PaxosEvent;
use paxos_forms::{Message, Wire};
use std::alloc::Global;

// As many votes as a promise can report: 2^32 - 1.
const MOST_VOTES: usize = 4_294_967_295;

impl Node {
    /// Does the row of the event, and then forgets the slots that every member is known to have; answers the messages that
    /// are sent. A message has the ranges of its form. Where memory is refused, some of the row may be done, and nothing is
    /// sent: the caller stops the member. It is also refused where more votes are kept than a promise can report, 2^32 - 1.
    /// The cost is that of the row: at most linear in the members, the horizon, the proposals and own values that wait, and
    /// the bytes that are sent.
    #[tactic(auto, unfolding(node_rules::specs::Step::node_step))]
    pub fn step(&mut self, alloc: Global, event: &PaxosEvent) -> Result<Vec<Message>, Memory>
        requires { MayHappen event.now }
        ensures node { OnOk result (self.new ≡ (node_step event.now self.old).node) }
        ensures sent { IfOk result (λ sent. sent.items ≡ (node_step event.now self.old).sent) }
        ensures votes { OnOk result (length self.old.acceptor.votes ≤ last_u32) }
    {
        if self.acceptor.kept_votes() > MOST_VOTES {
            return Err(Memory);
        }
        let mut sent = Vec::new(alloc);
        self.row(alloc, &mut sent, event)?;
        self.forget_told();
        Ok(sent)
    }

    fn row(
        &mut self,
        alloc: Global,
        sent: &mut Vec<Message>,
        event: &PaxosEvent,
    ) -> Result<(), Memory>
        requires { MayHappen event.now }
        ensures node { OnOk result (self.new ≡ (row event.now self.old).node) }
        ensures sent { OnOk result (sent.new.items ≡ sent.old.items ++ (row event.now self.old).sent) }
    {
        match event {
            PaxosEvent::Heard(message) => self.hear(alloc, sent, message.from, &message.wire),
            PaxosEvent::Own(value) => self.own_value(alloc, sent, value),
            PaxosEvent::Campaign => self.campaign(alloc, sent),
            PaxosEvent::Tick => self.tick(alloc, sent),
            PaxosEvent::Propose => self.propose_all(alloc, sent),
        }
    }

    // Ask, Give and Gone are the member's alone.
    #[tactic(auto, unfolding(node_rules::specs::Step::hear))]
    fn hear(
        &mut self,
        alloc: Global,
        sent: &mut Vec<Message>,
        from: Inc,
        wire: &Wire,
    ) -> Result<(), Memory>
        requires { IsInRange wire.now }
        ensures node { OnOk result (self.new ≡ (hear from wire.now self.old).node) }
        ensures sent { OnOk result (sent.new.items ≡ sent.old.items ++ (hear from wire.now self.old).sent) }
    {
        match wire {
            Wire::Prepare(ballot, slot) => self.hear_prepare(alloc, sent, from, *ballot, *slot),
            Wire::Promise(ballot, _, votes) => {
                self.hear_promise(alloc, sent, from, *ballot, votes)
            }
            Wire::Accept(ballot, slot, value) => {
                self.hear_accept(alloc, sent, from, *ballot, *slot, value)
            }
            Wire::Accepted(ballot, slot) => self.hear_accepted(alloc, sent, from, *ballot, *slot),
            Wire::Learn(slot, value) => self.hear_learn(alloc, *slot, value),
            Wire::Offer(value) => self.hear_offer(alloc, sent, value),
            Wire::Welcome(welcome) => self.hear_welcome(alloc, welcome),
            Wire::Alive(slot) => self.hear_alive(alloc, sent, from, *slot),
            Wire::Ask(_) | Wire::Give(_) | Wire::Gone => Ok(()),
        }
    }
}
