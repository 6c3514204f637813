// What comes before a call's own checks.
ghost use Rattle.std.specs.Prelude.{◌≡◌, IfNone, Some};
ghost use Rattle.std.specs.Option.{option_map};
ghost use Rattle.local_sessions.specs.declared.commit_step.CommitStep.TheVariants.{Said as Says};
ghost use Rattle.local_sessions.specs.Standing.{Active as IsActive, session_in};
ghost use Rattle.local_sessions.specs.Replies.{Does, Ends, bar, bar_at as bar_of, deed_of};

use crate::listing::{drop_session, stage_at};
use crate::session::Stage;
use crate::sessions::Sessions;
use crate::tables::Tables;
use gr_ids::SessionId;
use group_rules::Answer;

impl Sessions {
    // What a call is answered whose session has no active transaction; None where it has one. A transaction that was killed or left ends.
    pub(crate) fn barred(&mut self, at: &mut Tables, session: SessionId) -> Option<Answer>
        ensures answer { option_map (λ r. r.answer) (bar (session_in self.old session)) ≡ option_map Says result }
        ensures done { Does (deed_of (bar (session_in self.old session))) session self.old self.new at.old at.new }
        ensures none { IfNone result ((self.new ≡ self.old) × (at.new ≡ at.old)) }
    {
        match stage_at(&self.list, session) {
            None => Some(Answer::NoTransaction),
            Some(Stage::Active) => None,
            Some(stage) => Some(self.bar_at(at, session, stage)),
        }
    }

    // The same of a stage that isn't active.
    pub(crate) fn bar_at(&mut self, at: &mut Tables, session: SessionId, stage: Stage) -> Answer
        requires { stage ≡ IsActive → ⊥ }
        ensures answer { option_map (λ r. r.answer) (bar_of stage) ≡ Some (Says result) }
        ensures done { Does (deed_of (bar_of stage)) session self.old self.new at.old at.new }
    {
        match stage {
            Stage::Killed(gtid) => {
                self.end(at, session);
                Answer::Killed(gtid)
            }
            Stage::Left => {
                self.end(at, session);
                Answer::MemberLeft
            }
            _ => Answer::Busy,
        }
    }

    // The session has no transaction any more, and holds no key.
    pub(crate) fn end(&mut self, at: &mut Tables, session: SessionId)
        ensures { Does Ends session self.old self.new at.old at.new }
    {
        drop_session(&mut self.list, session);
        at.locks.free(session);
    }
}
