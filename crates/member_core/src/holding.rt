// A begin that is still held at the end of its step.
ghost use Rattle.std.specs.Prelude.{◌≡◌, OnOk, Some};
ghost use Rattle.gr_ids.specs.declared.memory.Memory.{Memory};
ghost use Rattle.group_rules.specs.Events.{Calls, Life};
ghost use Rattle.group_rules.specs.Member.{Member};
ghost use Rattle.group_rules.specs.declared.requests.Request.{Request};
ghost use Rattle.member_moment.specs.Doing.{Does};
ghost use Rattle.member_moment.specs.Standing.{Stands};
ghost use Rattle.member_core.specs.Acting.{caller_of, hold_by};
ghost use Rattle.member_core.specs.Standing.{event_of};

use crate::event::Event;
use gr_ids::{Memory, SessionId};
use group_rules::Answer;
use member_moment::Moment;

/// The session that calls, unless its begin is held already.
pub(crate) fn caller(moment: &Moment, event: &Event) -> Option<SessionId>
    ensures { (base : Life) (a : Member) → Stands base a moment.now → result ≡ caller_of (event_of event.now) a }
{
    match event {
        Event::Session(session, _) => unless_held(moment, *session),
        _ => None,
    }
}

fn unless_held(moment: &Moment, session: SessionId) -> Option<SessionId>
    ensures { (base : Life) (a : Member) (r : Request) → Stands base a moment.now → result ≡ caller_of (Calls session r) a }
{
    if moment.is_held(session) {
        return None;
    }
    Some(session)
}

/// The caller is told if its begin is held now.
pub(crate) fn tell_held(moment: &mut Moment, caller: Option<SessionId>) -> Result<(), Memory>
    ensures { OnOk result (Does (hold_by caller) moment.old moment.new) }
{
    match caller {
        None => Ok(()),
        Some(session) => tell_if_held(moment, session),
    }
}

fn tell_if_held(moment: &mut Moment, session: SessionId) -> Result<(), Memory>
    ensures { OnOk result (Does (hold_by (Some session)) moment.old moment.new) }
{
    if !moment.is_held(session) {
        return Ok(());
    }
    moment.answer(session, Answer::Held)
}
