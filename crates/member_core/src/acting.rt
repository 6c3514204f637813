// The action of a step.
ghost use Rattle.std.specs.Prelude.{None, OnOk, Some};
ghost use Rattle.gr_ids.specs.declared.memory.Memory.{Memory};
ghost use Rattle.paxos_forms.specs.Messages.{IsMessage};
ghost use Rattle.group_rules.specs.Events.{Calls, Hears, Operates, Ticks, Works};
ghost use Rattle.group_rules.specs.Steps.{act as acts, act_in_error as acts_in_error};
ghost use Rattle.member_moment.specs.Calling.{IsRequest};
ghost use Rattle.member_moment.specs.Doing.{Does, DoesIf};
ghost use Rattle.member_core.specs.Acting.{come as comes};
ghost use Rattle.member_core.specs.Operating.{IsOperator};
ghost use Rattle.member_core.specs.Points.{IsWell};
ghost use Rattle.member_core.specs.Standing.{IsEvent, event_of};

use crate::event::Event;
use crate::hearing::{hear, hear_in_error};
use crate::operating::operate;
use crate::ticking::tick;
use apply_queue::WorkDone;
use gr_ids::{Memory, Pos, SessionId};
use group_rules::{Operator, Reply, Request};
use member_moment::{Moment, some_events_come_untold};
use paxos_forms::Message;

/// What the event asks is done. Its cost is that of the event.
pub(crate) fn act(moment: &mut Moment, event: Event) -> Result<(), Memory>
    requires { IsEvent event }
    ensures { OnOk result (Does (acts (event_of event)) moment.old moment.new) }
{
    if moment.is_in_error() {
        return act_in_error(moment, event);
    }
    act_alive(moment, event)
}

fn act_alive(moment: &mut Moment, event: Event) -> Result<(), Memory>
    requires { IsEvent event }
    ensures { OnOk result (DoesIf IsWell (comes (event_of event)) moment.old moment.new) }
{
    match event {
        Event::Message(message) => take_message(moment, message),
        Event::Tick => take_tick(moment),
        Event::Done(done) => take_done(moment, done),
        Event::Undone(place) => take_undone(moment, place),
        Event::Session(session, request) => take_call(moment, session, request),
        Event::Operate(operator) => take_operator(moment, operator),
    }
}

fn take_message(moment: &mut Moment, message: Message) -> Result<(), Memory>
    requires { IsMessage message }
    ensures { OnOk result (Does (comes (Hears message)) moment.old moment.new) }
{
    moment.heard(message.from);
    hear(moment, message)
}

fn take_tick(moment: &mut Moment) -> Result<(), Memory>
    ensures { OnOk result (DoesIf IsWell (comes Ticks) moment.old moment.new) }
{
    moment.ticked()?;
    tick(moment)
}

fn take_done(moment: &mut Moment, done: WorkDone) -> Result<(), Memory>
    ensures { OnOk result (Does (comes (Works done.place (Some done.body))) moment.old moment.new) }
{
    some_events_come_untold();
    moment.work(done)
}

// A worker hands back a place that isn't queued.
fn take_undone(moment: &mut Moment, place: Pos) -> Result<(), Memory>
    ensures { OnOk result (Does (comes (Works place None)) moment.old moment.new) }
{
    some_events_come_untold();
    moment.reply(Reply::NotQueued(place))
}

fn take_call(moment: &mut Moment, session: SessionId, request: Request) -> Result<(), Memory>
    requires { IsRequest request }
    ensures { OnOk result (Does (comes (Calls session request)) moment.old moment.new) }
{
    some_events_come_untold();
    moment.call(session, request)
}

fn take_operator(moment: &mut Moment, operator: Operator) -> Result<(), Memory>
    requires { IsOperator operator }
    ensures { OnOk result (Does (comes (Operates operator)) moment.old moment.new) }
{
    some_events_come_untold();
    operate(moment, operator)
}

// In ERROR it still promises and votes, answers its sessions, and hears its operators.
fn act_in_error(moment: &mut Moment, event: Event) -> Result<(), Memory>
    requires { IsEvent event }
    ensures { OnOk result (Does (acts_in_error (event_of event)) moment.old moment.new) }
{
    match event {
        Event::Message(message) => hear_in_error(moment, message),
        Event::Tick => Ok(()),
        Event::Done(done) => moment.reply(Reply::NotQueued(done.place)),
        Event::Undone(place) => moment.reply(Reply::NotQueued(place)),
        Event::Session(session, request) => take_call(moment, session, request),
        Event::Operate(operator) => take_operator(moment, operator),
    }
}
