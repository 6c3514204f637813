// Begins.
ghost use Rattle.std.specs.Prelude.{◌≡◌, IfOk, OnErr, OnOk, None, true};
ghost use Rattle.gr_ids.specs.declared.memory.Memory.{Memory};
ghost use Rattle.group_rules.specs.declared.answers.Answer.TheVariants.{Begun as BegunWith, HoldTimeout as TimedOut};
ghost use Rattle.group_rules.specs.Calls.{wants_online as wants_online_at};
ghost use Rattle.group_rules.specs.Holds.{is_after as is_after_at};
ghost use Rattle.local_sessions.specs.declared.commit_step.CommitStep.TheVariants.{Said as Says};
ghost use Rattle.local_sessions.specs.Standing.{begins, changed_at, is_held, session_in, without};
ghost use Rattle.local_sessions.specs.Replies.{Does, begin as begin_reply, begin_free};

use crate::changes::Changes;
use crate::listing::{drop_session, put_session, set_begun, stage_at};
use crate::session::{Session, Stage};
use crate::sessions::Sessions;
use crate::tables::Tables;
use gr_ids::{Level, MemberState, Memory, Pos, SessionId};
use group_rules::Answer;
use gtid_sets::GtidSet;

impl Sessions {
    /// Begins a transaction: the answer is Held, and the begin is held until `begun` or `timed_out`, or a refusal. `_limit` is for
    /// whoever counts the ticks of the hold.
    pub fn begin(
        &mut self,
        at: &mut Tables,
        session: SessionId,
        level: Level,
        _limit: u32,
    ) -> Result<Answer, Memory>
        ensures answer { IfOk result (λ a. (begin_reply at.old level (session_in self.old session)).answer ≡ Says a) }
        ensures done { OnOk result (Does (begin_reply at.old level (session_in self.old session)).deed session self.old self.new at.old at.new) }
        ensures err { OnErr result ((self.new ≡ self.old) × (at.new ≡ at.old)) }
    {
        match stage_at(&self.list, session) {
            None => self.hold(at, session, level),
            Some(Stage::Active) => Ok(Answer::Busy),
            Some(stage) => Ok(self.bar_at(at, session, stage)),
        }
    }

    /// The begin, which is held, is done: the transaction reads what is executed now. `sync` is the place of its Sync.
    pub fn begun(
        &mut self,
        at: &Tables,
        session: SessionId,
        sync: Option<Pos>,
    ) -> Result<Answer, Memory>
        requires { is_held (session_in self.old session) ≡ true }
        ensures answer { IfOk result (λ a. a ≡ BegunWith at.now.executed sync) }
        ensures sessions { OnOk result (self.new ≡ changed_at session (begins at.now.executed) self.old) }
        ensures err { OnErr result (self.new ≡ self.old) }
    {
        let alloc = *self.list.allocator();
        let told = at.executed.try_copy(alloc)?;
        let set = at.executed.try_copy(alloc)?;
        set_begun(&mut self.list, session, set);
        Ok(Answer::Begun(told, sync))
    }

    /// Whether the session's begin is held.
    pub fn is_held(&self, session: SessionId) -> bool
        ensures { result ≡ is_held (session_in self.now session) }
    {
        match stage_at(&self.list, session) {
            Some(Stage::Holding) => true,
            _ => false,
        }
    }

    /// The begin, which is held, has waited for its limit of ticks, and ends; takes no memory.
    pub fn timed_out(&mut self, session: SessionId, limit: u32) -> Answer
        requires { is_held (session_in self.old session) ≡ true }
        ensures answer { result ≡ TimedOut limit }
        ensures sessions { self.new ≡ without session self.old }
    {
        drop_session(&mut self.list, session);
        Answer::HoldTimeout(limit)
    }

    // A begin of a session without a transaction.
    fn hold(&mut self, at: &mut Tables, session: SessionId, level: Level) -> Result<Answer, Memory>
        requires { session_in self.old session ≡ None }
        ensures answer { IfOk result (λ a. (begin_free at.old level).answer ≡ Says a) }
        ensures done { OnOk result (Does (begin_free at.old level).deed session self.old self.new at.old at.new) }
        ensures err { OnErr result ((self.new ≡ self.old) × (at.new ≡ at.old)) }
    {
        if wants_online(level) && at.state != MemberState::Online {
            return Ok(Answer::NotOnline(at.state));
        }
        let alloc = *self.list.allocator();
        let held = Session {
            session,
            after: is_after(level),
            state: at.state,
            stage: Stage::Holding,
            set: GtidSet::new(alloc),
            changes: Changes::new(alloc),
        };
        put_session(&mut self.list, held)?;
        Ok(Answer::Held)
    }
}

// The levels that want their member ONLINE.
fn wants_online(level: Level) -> bool
    ensures { result ≡ wants_online_at level }
{
    match level {
        Level::Before | Level::After | Level::BeforeAndAfter => true,
        Level::Eventual | Level::BeforeOnPrimaryFailover => false,
    }
}

// The levels whose commit waits for the other members.
fn is_after(level: Level) -> bool
    ensures { result ≡ is_after_at level }
{
    match level {
        Level::After | Level::BeforeAndAfter => true,
        Level::Eventual | Level::BeforeOnPrimaryFailover | Level::Before => false,
    }
}
