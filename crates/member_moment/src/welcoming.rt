// A Welcome that comes.
ghost use Rattle.std.specs.Prelude.{◌≡◌, ◌≤◌, OnOk};
ghost use Rattle.std.specs.Option.{option_map};
ghost use Rattle.gr_ids.specs.declared.memory.Memory.{Memory};
ghost use Rattle.slot_values.specs.Slots.{last_slot};
ghost use Rattle.paxos_node.specs.Events.{MayHappen};
ghost use Rattle.paxos_ranges.specs.Ranges.{IsGiven};
ghost use Rattle.group_rules.specs.Life.{is_offline as is_offline_state};
ghost use Rattle.member_moment.specs.Doing.{Does};
ghost use Rattle.member_moment.specs.Joining.{IsEntered, greets_of, welcome_in as welcome_of};

use crate::moment::Moment;
use crate::ordering::send_all;
use gr_ids::{MemberState, Memory};
use group_rules::{Cause, Mark};
use node_rules::PaxosEvent;
use paxos_forms::{Welcome, Wire};

impl Moment {
    /// A Welcome comes, to the node and then to the member. Its cost is the node's, and linear in the members and the executed set.
    pub fn hear_welcome(&mut self, event: &PaxosEvent) -> Result<(), Memory>
        requires { MayHappen event.now }
        ensures { OnOk result (IsGiven event.now → Does (greets_of event.now) self.old self.new) }
    {
        let Some(welcome) = welcome_in(event) else {
            return self.at_node(event);
        };
        let is_offline = is_offline(self.state());
        let sent = self.node.step(self.alloc, event)?;
        send_all(&mut self.sent, sent)?;
        if !is_offline {
            return Ok(());
        }
        if !self.node.has_log() {
            return Ok(());
        }
        self.enter(welcome)
    }

    // It is welcomed, which the node knows already.
    fn enter(&mut self, welcome: &Welcome) -> Result<(), Memory>
        requires { welcome.now.place ≤ last_slot }
        ensures { OnOk result (IsEntered welcome.now self.old self.new) }
    {
        if welcome.number > welcome.place.0 + 1 {
            return Ok(());
        }
        if self.parts.list().taken() > welcome.place {
            return Ok(());
        }
        let executed = self.tables.tables().executed.try_copy(self.alloc)?;
        self.joining.enter(executed, welcome.place);
        self.parts
            .enter(self.alloc, self.me.inc, self.limits, welcome)?;
        self.tables.entered(welcome.mode, welcome.primary);
        self.tables.stated(MemberState::Recovering);
        self.marks
            .push(Mark::State(MemberState::Recovering, Cause::Welcomed))?;
        Ok(())
    }
}

fn is_offline(state: MemberState) -> bool
    ensures { result ≡ is_offline_state state }
{
    state == MemberState::Offline
}

// The Welcome that comes.
fn welcome_in(event: &PaxosEvent) -> Option<&Welcome>
    ensures { option_map (λ w. w.now) result ≡ welcome_of event.now }
{
    match event {
        PaxosEvent::Heard(message) => match &message.wire {
            Wire::Welcome(welcome) => Some(welcome),
            _ => None,
        },
        _ => None,
    }
}
