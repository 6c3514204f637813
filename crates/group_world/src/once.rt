// A transaction of one statement.
ghost use Rattle.std.specs.Prelude.{◌≡◌, ◌≤◌, drop, length, IfErr, OnOk};
ghost use Rattle.std.specs.List.{list_any};
ghost use Rattle.group_rules.specs.Script.{Play, does, once_end, event as event_at, phase_of, request_of as request_for};
ghost use Rattle.group_rules.specs.Events.{Calls};
ghost use Rattle.group_rules.specs.Sessions.{is_active};
ghost use Rattle.group_rules.specs.World.{member_at};
ghost use Rattle.group_rules.specs.declared.steps.Step.TheVariants.{Once};
ghost use Rattle.script_text.specs.Ranges.{IsChange, IsRequest};
ghost use Rattle.group_world.specs.Changes.{said_changed};
ghost use Rattle.group_world.specs.Standing.{Along, Ends, Goes};

use crate::stage::Stage;
use gr_ids::{Level, SessionId};
use group_rules::{Answer, Mark, Request, Said};
use key_items::{Change, ChangeKind};
use member_core::Event;
use plain_steps::steps_are_plain;
use world_wire::WireFault;

impl Stage {
    /// A transaction of this one change; where its begin has to wait, or the change is refused, nothing of it is left.
    pub(crate) fn once(
        &mut self,
        server: u8,
        session: SessionId,
        change: Change,
    ) -> Result<(), WireFault>
        requires { IsChange change }
        ensures stands { OnOk result (Goes (does (Once server session change)) self.old self.new) }
        ensures full { IfErr result (Ends (does (Once server session change)) self.old) }
    {
        self.session(server, session, Request::Begin(Level::Eventual, 1))?;
        if !self.is_active(server, session) {
            return Ok(());
        }
        self.change(server, session, request_of(change))
    }

    // Its statement, and its end.
    fn change(
        &mut self,
        server: u8,
        session: SessionId,
        statement: Request,
    ) -> Result<(), WireFault>
        requires { IsRequest statement }
        ensures stands { OnOk result (Goes (λ y. once_end server session (event_at server (Calls session statement) y)) self.old self.new) }
        ensures full { IfErr result (Ends (λ y. once_end server session (event_at server (Calls session statement) y)) self.old) }
    {
        steps_are_plain();
        let before = self.said.len();
        self.session(server, session, statement)?;
        if has_changed(&self.said, before) {
            self.session(server, session, Request::Commit)
        } else {
            self.session(server, session, Request::Rollback)
        }
    }

    fn is_active(&self, server: u8, session: SessionId) -> bool
        ensures { (y : Play) → Along y self.now → result ≡ is_active (phase_of (member_at y.world server) session) }
    {
        match self.sites.member(server) {
            None => false,
            Some(member) => member.is_active(session),
        }
    }
}

fn request_of(change: Change) -> Request
    ensures { result ≡ request_for change.item change.what }
{
    let Change { item, what } = change;
    match what {
        ChangeKind::Insert(value) => Request::Insert(item, value),
        ChangeKind::Update(value) => Request::Update(item, value),
        ChangeKind::Delete => Request::Delete(item),
    }
}

// Whether a statement was answered Changed behind the first so many.
fn has_changed(said: &[Said], before: usize) -> bool
    ensures { before ≤ length said.now → result ≡ list_any said_changed (drop before said.now) }
{
    if said.len() < before {
        return false;
    }
    let (_, since) = said.split_at(before);
    any_changed(since)
}

fn any_changed(said: &[Said]) -> bool
    ensures { result ≡ list_any said_changed said.now }
{
    said.iter().any(|one| is_changed(one))
}

fn is_changed(said: &Said) -> bool
    ensures { result ≡ said_changed said.now }
{
    matches!(said, Said::Marked(_, Mark::Answered(_, Answer::Changed)))
}
