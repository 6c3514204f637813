// The node of a member, and the messages that it sends itself.
ghost use Rattle.std.specs.Prelude.{◌≡◌, ◌++◌, false, IfOk, OnOk};
ghost use Rattle.gr_ids.specs.declared.memory.Memory.{Memory};
ghost use Rattle.paxos_forms.specs.declared.message.Message.{Message as AnyMessage};
ghost use Rattle.paxos_forms.specs.Messages.{IsMessage};
ghost use Rattle.paxos_node.specs.Events.{MayHappen};
ghost use Rattle.paxos_ranges.specs.Ranges.{IsGiven};
ghost use Rattle.group_rules.specs.Events.{Life};
ghost use Rattle.group_rules.specs.Member.{Member, at_node as at_node_of, send as sends};
ghost use Rattle.node_rules.specs.Node.{message};
ghost use Rattle.member_moment.specs.Doing.{Does, DoesIf};
ghost use Rattle.member_ranges.specs.Hearing.{is_welcome};
ghost use Rattle.member_moment.specs.Standing.{RestFor};

use crate::moment::Moment;
use gr_ids::{Inc, Memory};
use member_ranges::members_stay_in_range;
use node_rules::PaxosEvent;
use paxos_forms::{Message, Wire};

impl Moment {
    /// An event of its node, other than a Welcome. Its cost is the node's.
    pub fn at_node(&mut self, event: &PaxosEvent) -> Result<(), Memory>
        requires may { MayHappen event.now }
        requires other { is_welcome event.now ≡ false }
        ensures rest { OnOk result ((base : Life) (a : Member) → IsGiven event.now → RestFor base a self.old → RestFor base (at_node_of event.now a) self.new) }
        ensures others { OnOk result (self.new ≡ record self.old { node = self.new.node; sent = self.new.sent }) }
        ensures does { OnOk result (IsGiven event.now → Does (at_node_of event.now) self.old self.new) }
    {
        members_stay_in_range();
        let sent = self.node.step(self.alloc, event)?;
        send_all(&mut self.sent, sent)
    }

    /// A message of its own, which its form spells.
    pub fn send(&mut self, to: Inc, wire: Wire) -> Result<(), Memory>
        ensures { OnOk result (DoesIf (λ a. IsMessage (message a.node to wire)) (sends to wire) self.old self.new) }
    {
        members_stay_in_range();
        let from = self.node.me();
        self.sent.push(Message { from, to, wire })?;
        Ok(())
    }
}

pub(crate) fn send_all(to: &mut Vec<Message>, more: Vec<Message>) -> Result<(), Memory>
    ensures { OnOk result (to.new.items ≡ to.old.items ++ more.items) }
{
    for message in more {
        to.push(message)?;
    }
    Ok(())
}
