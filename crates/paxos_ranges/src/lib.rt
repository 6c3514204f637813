//! A node of the ordering within the ranges that the forms of messages have: what it sends can be spelt.
#![tactic(auto)]

ghost use Rattle.std.specs.Prelude.{◌<◌, ◌≤◌, length};
ghost use Rattle.gr_ids.specs.declared.names.Inc.{Inc};
ghost use Rattle.name_forms.specs.Incs.{IsInc};
ghost use Rattle.slot_values.specs.Log.{Group};
ghost use Rattle.slot_values.specs.Spelling.{last_u32};
ghost use Rattle.paxos_forms.specs.Messages.{IsMessage, IsHeld};
ghost use Rattle.paxos_forms.specs.declared.message.Message.{Message};
ghost use Rattle.node_rules.specs.declared.event.PaxosEvent.{PaxosEvent};
ghost use Rattle.node_rules.specs.Lists.{In};
ghost use Rattle.node_rules.specs.Node.{Node, founder, joiner};
ghost use Rattle.node_rules.specs.Step.{node_step};
ghost use Rattle.node_rules.specs.Taking.{take};
ghost use Rattle.paxos_ranges.specs.Ranges.{AreIncs, IsGiven, IsInRange};

/// A node that begins in range stays there, whatever happens to it in range: each message that it hears is one that its form spells, and so is each own
/// value. Then each message that it sends is one that its form spells, where the node keeps no more votes than a promise can count.
pub fn nodes_stay_in_range()
    ensures founder { (g : Group) (i : Inc) → IsInc i → 0 < length g.founders → AreIncs g.founders → IsInRange (founder g i) }
    ensures joiner { (g : Group) (i : Inc) → IsInc i → IsInRange (joiner g i) }
    ensures step { (e : PaxosEvent) (n : Node) → IsGiven e → IsInRange n → IsInRange (node_step e n).node }
    ensures sent { (e : PaxosEvent) (n : Node) → IsGiven e → IsInRange n → length n.acceptor.votes ≤ last_u32
        → (m : Message) → In m (node_step e n).sent → IsMessage m × IsHeld m.wire }
    ensures take { (n : Node) → IsInRange n → IsInRange (take n).node }
{}
