// Begins.
ghost use Rattle.std.specs.Prelude.{◌≡◌, ◌≤◌, OnOk, false};
ghost use Rattle.gr_ids.specs.declared.memory.Memory.{Memory};
ghost use Rattle.txn_forms.specs.declared.body.Body.TheVariants.{Sync};
ghost use Rattle.group_rules.specs.Calls.{call as calls, send_sync};
ghost use Rattle.group_rules.specs.Events.{Called, Life};
ghost use Rattle.group_rules.specs.Life.{state as state_of};
ghost use Rattle.group_rules.specs.Member.{Member, own_body, push};
ghost use Rattle.group_rules.specs.Sessions.{is_holding, phase};
ghost use Rattle.group_rules.specs.declared.requests.Request.TheVariants.{Begin};
ghost use Rattle.member_moment.specs.Doing.{Does};
ghost use Rattle.member_moment.specs.Standing.{RestFor};

use crate::calling::is_last;
use crate::moment::Moment;
use gr_ids::{Level, MemberState, Memory, SessionId};
use group_rules::Answer;
use slot_values::What;
use txn_forms::{Body, encode};

impl Moment {
    // It is answered, or held.
    pub(crate) fn open(
        &mut self,
        session: SessionId,
        level: Level,
        limit: u32,
    ) -> Result<(), Memory>
        requires { 1 ≤ limit }
        ensures { OnOk result (Does (calls session (Begin level limit)) self.old self.new) }
    {
        let state = self.state();
        match self.tables.begin(session, level, limit)? {
            Answer::Held => self.hold(session, level, limit, state),
            answer => {
                let ends = is_last(&answer);
                self.answer_call(session, answer, ends)
            }
        }
    }

    // The begin is held, which the tables know already, and its Sync is sent; `state` is the member's.
    fn hold(
        &mut self,
        session: SessionId,
        level: Level,
        limit: u32,
        state: MemberState,
    ) -> Result<(), Memory>
        requires { 1 ≤ limit }
        ensures rest { OnOk result ((base : Life) (a : Member) → state ≡ state_of a.life → is_holding (phase a.life session) ≡ false
            → RestFor base a self.old → RestFor base (send_sync level (push (Called session level limit) a)) self.new) }
        ensures tables { OnOk result (self.new.tables ≡ self.old.tables) }
    {
        let (last, online) = (self.own.made(), self.own.online());
        let conditions = self
            .parts
            .conditions(self.alloc, self.me.inc, level, state, last, online)?;
        let syncs = conditions.sync.is_some();
        self.parts.hold(session, conditions, limit)?;
        if syncs {
            return self.sync();
        }
        Ok(())
    }

    fn sync(&mut self) -> Result<(), Memory>
        ensures rest { OnOk result ((base : Life) (a : Member) → RestFor base a self.old → RestFor base (own_body Sync a) self.new) }
        ensures tables { OnOk result (self.new.tables ≡ self.old.tables) }
    {
        let bytes = encode(self.alloc, &Body::Sync)?;
        self.own(What::Body(bytes), None, false)
    }
}
