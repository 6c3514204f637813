// Begins that are held.
ghost use Rattle.std.specs.Prelude.{◌≡◌, IfOk, OnErr, OnOk, true};
ghost use Rattle.gr_ids.specs.declared.memory.Memory.{Memory};
ghost use Rattle.group_rules.specs.declared.answers.Answer.TheVariants.{Begun as BegunWith, HoldTimeout as TimedOut};
ghost use Rattle.group_rules.specs.Events.{Begun};
ghost use Rattle.group_rules.specs.Life.{executed};
ghost use Rattle.group_rules.specs.Member.{Member, last_answer, push};
ghost use Rattle.group_rules.specs.Sessions.{is_holding, phase};
ghost use Rattle.local_sessions.specs.Standing.{is_held as is_held_in, session_in};
ghost use Rattle.member_tables.specs.Standing.{TablesFor};

use crate::tables::MemberTables;
use gr_ids::{Memory, Pos, SessionId};
use group_rules::Answer;

impl MemberTables {
    /// Whether the session's begin is held. Linear in the sessions; takes no memory.
    pub fn is_held(&self, session: SessionId) -> bool
        ensures stage { result ≡ is_held_in (session_in self.now.sessions session) }
        ensures holding { (a : Member) → TablesFor a self.now → result ≡ is_holding (phase a.life session) }
    {
        self.sessions.is_held(session)
    }

    /// The begin, which is held, is done: its transaction reads what is executed now. `sync` is the place of its Sync. Linear in the
    /// executed runs and the sessions.
    pub fn begun(&mut self, session: SessionId, sync: Option<Pos>) -> Result<Answer, Memory>
        requires { is_held_in (session_in self.old.sessions session) ≡ true }
        ensures answer { IfOk result (λ x. (a : Member) → TablesFor a self.old → x ≡ BegunWith (executed a.life) sync) }
        ensures begun { OnOk result ((a : Member) → TablesFor a self.old → TablesFor (push (Begun session (executed a.life) sync) a) self.new) }
        ensures err { OnErr result (self.new ≡ self.old) }
    {
        self.sessions.begun(&self.tables, session, sync)
    }

    /// The begin, which is held, has waited for its limit of ticks, and ends. Linear in the sessions; takes no memory.
    pub fn timed_out(&mut self, session: SessionId, limit: u32) -> Answer
        requires { is_held_in (session_in self.old.sessions session) ≡ true }
        ensures answer { result ≡ TimedOut limit }
        ensures ended { (a : Member) → TablesFor a self.old → TablesFor (last_answer session (TimedOut limit) a) self.new }
    {
        self.sessions.timed_out(session, limit)
    }
}
