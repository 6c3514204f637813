// Messages that come.
ghost use Rattle.std.specs.Prelude.{◌≡◌, OnOk, false};
ghost use Rattle.gr_ids.specs.declared.memory.Memory.{Memory};
ghost use Rattle.slot_values.specs.Spelling.{IsWhat};
ghost use Rattle.paxos_forms.specs.Messages.{IsMessage};
ghost use Rattle.paxos_forms.specs.declared.message.Wire.TheVariants.{Gone, Offer, Welcome as Greet};
ghost use Rattle.node_rules.specs.declared.event.PaxosEvent.TheVariants.{Heard};
ghost use Rattle.group_rules.specs.Member.{at_node as at_node_of};
ghost use Rattle.group_rules.specs.Steps.{hear_add as hears_add};
ghost use Rattle.member_ranges.specs.Hearing.{is_welcome};
ghost use Rattle.member_moment.specs.Doing.{Does};
ghost use Rattle.member_core.specs.Hearing.{asks_a_vote, hear as hears, hear_checked as hears_checked, hear_fallen as hears_fallen, message_of};

use crate::recovery::check_ask;
use gr_ids::{Inc, Memory};
use group_rules::Cause;
use member_moment::Moment;
use node_rules::PaxosEvent;
use paxos_forms::{Message, Welcome, Wire};
use slot_values::{Value, What};

/// A message comes, whose coming is counted already, to a member that isn't in ERROR. Its cost is that of what it says.
pub(crate) fn hear(moment: &mut Moment, message: Message) -> Result<(), Memory>
    requires { IsMessage message }
    ensures { OnOk result (Does (hears message) moment.old moment.new) }
{
    let Message { from, to, wire } = message;
    match wire {
        Wire::Ask(ask) => moment.hear_ask(from, &ask),
        Wire::Give(give) => moment.hear_give(from, give),
        Wire::Offer(value) => hear_offer(moment, from, to, value),
        Wire::Welcome(welcome) => hear_welcome(moment, from, to, welcome),
        Wire::Gone => hear_gone(moment, from, to),
        wire => hear_else(moment, Message { from, to, wire }),
    }
}

/// A message comes to a member in ERROR: it still promises and votes.
pub(crate) fn hear_in_error(moment: &mut Moment, message: Message) -> Result<(), Memory>
    requires { IsMessage message }
    ensures { OnOk result (Does (hears_fallen message) moment.old moment.new) }
{
    if !asks_vote(&message.wire) {
        return Ok(());
    }
    moment.heard(message.from);
    hear_at_node(moment, message)
}

fn asks_vote(wire: &Wire) -> bool
    ensures { result ≡ asks_a_vote wire.now }
{
    match wire {
        Wire::Prepare(_, _) => true,
        Wire::Accept(_, _, _) => true,
        _ => false,
    }
}

// An Add without a number is made an own value.
fn hear_offer(moment: &mut Moment, from: Inc, to: Inc, value: Value) -> Result<(), Memory>
    requires { IsMessage (message_of from to (Offer value)) }
    ensures { OnOk result (Does (hears (message_of from to (Offer value))) moment.old moment.new) }
{
    if value.id.number == 0 {
        return hear_add(moment, value.what);
    }
    let wire = Wire::Offer(value);
    hear_at_node(moment, Message { from, to, wire })
}

fn hear_add(moment: &mut Moment, what: What) -> Result<(), Memory>
    requires { IsWhat 0 what }
    ensures { OnOk result (Does (hears_add what) moment.old moment.new) }
{
    let What::Add(joiner) = what else {
        return Ok(());
    };
    if !moment.is_up() {
        return Ok(());
    }
    moment.own_change(What::Add(joiner))
}

fn hear_welcome(moment: &mut Moment, from: Inc, to: Inc, welcome: Welcome) -> Result<(), Memory>
    requires { IsMessage (message_of from to (Greet welcome)) }
    ensures { OnOk result (Does (hears (message_of from to (Greet welcome))) moment.old moment.new) }
{
    let wire = Wire::Welcome(welcome);
    let event = PaxosEvent::Heard(Message { from, to, wire });
    moment.hear_welcome(&event)
}

// It is no member any more.
fn hear_gone(moment: &mut Moment, from: Inc, to: Inc) -> Result<(), Memory>
    requires { IsMessage (message_of from to Gone) }
    ensures { OnOk result (Does (hears (message_of from to Gone)) moment.old moment.new) }
{
    let wire = Wire::Gone;
    hear_at_node(moment, Message { from, to, wire })?;
    moment.fall(Cause::Gone)
}

fn hear_else(moment: &mut Moment, message: Message) -> Result<(), Memory>
    requires fits { IsMessage message }
    requires other { is_welcome (Heard message) ≡ false }
    ensures { OnOk result (Does (hears_checked message) moment.old moment.new) }
{
    hear_at_node(moment, message)?;
    check_ask(moment)
}

fn hear_at_node(moment: &mut Moment, message: Message) -> Result<(), Memory>
    requires fits { IsMessage message }
    requires other { is_welcome (Heard message) ≡ false }
    ensures { OnOk result (Does (at_node_of (Heard message)) moment.old moment.new) }
{
    moment.at_node(&PaxosEvent::Heard(message))
}
