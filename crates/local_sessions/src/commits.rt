// Commits and rollbacks.
ghost use Rattle.std.specs.Prelude.{◌≡◌, IfOk, OnErr, OnOk, true};
ghost use Rattle.gr_ids.specs.declared.memory.Memory.{Memory};
ghost use Rattle.group_rules.specs.declared.answers.Answer.TheVariants.{Sent as SentAs};
ghost use Rattle.local_sessions.specs.declared.commit_step.CommitStep.TheVariants.{Said as Says};
ghost use Rattle.local_sessions.specs.Committing.{IsSpeltIn};
ghost use Rattle.local_sessions.specs.Standing.{Asking as IsAsking, at_stage, changed_at, is_asked, session_in};
ghost use Rattle.local_sessions.specs.Replies.{Does, commit as commit_reply, rollback as rollback_reply};

use crate::commit_step::CommitStep;
use crate::committing::{CommitCheck, body_of, checked};
use crate::listing::{ask, session_of, set_stage};
use crate::session::Stage;
use crate::sessions::Sessions;
use crate::tables::Tables;
use gr_ids::{Memory, SessionId, ValueId};
use group_rules::Answer;

impl Sessions {
    /// Commits the transaction: ends it at once, or asks its commit and hands out its body, which is to be sent. For each change,
    /// logarithmic in the items; linear in the bytes of the body.
    pub fn commit(&mut self, at: &mut Tables, session: SessionId) -> Result<CommitStep, Memory>
        ensures answer { IfOk result (λ step. (commit_reply at.old (session_in self.old session)).answer ≡ step) }
        ensures spelt { IfOk result (λ step. IsSpeltIn at.old (session_in self.old session) step) }
        ensures done { OnOk result (Does (commit_reply at.old (session_in self.old session)).deed session self.old self.new at.old at.new) }
        ensures err { OnErr result ((self.new ≡ self.old) × (at.new ≡ at.old)) }
    {
        if let Some(answer) = self.barred(at, session) {
            return Ok(CommitStep::Said(answer));
        }
        let Some(x) = session_of(&self.list, session) else {
            unreachable!();
        };
        let alloc = *self.list.allocator();
        match checked(alloc, at, x)? {
            CommitCheck::Ends(answer) => {
                self.end(at, session);
                Ok(CommitStep::Said(answer))
            }
            CommitCheck::Fits(items) => {
                let body = body_of(alloc, at, x, items)?;
                ask(&mut self.list, alloc, session);
                Ok(CommitStep::Ready(body))
            }
        }
    }

    /// The body, which was handed out, is sent as this value; takes no memory.
    pub fn sent(&mut self, session: SessionId, id: ValueId) -> Answer
        requires { is_asked (session_in self.old session) ≡ true }
        ensures answer { result ≡ SentAs id }
        ensures sessions { self.new ≡ changed_at session (at_stage (IsAsking id)) self.old }
    {
        set_stage(&mut self.list, session, Stage::Asking(id));
        Answer::Sent(id)
    }

    /// Rolls the transaction back.
    pub fn rollback(&mut self, at: &mut Tables, session: SessionId) -> Result<Answer, Memory>
        ensures answer { IfOk result (λ a. (rollback_reply (session_in self.old session)).answer ≡ Says a) }
        ensures done { OnOk result (Does (rollback_reply (session_in self.old session)).deed session self.old self.new at.old at.new) }
        ensures err { OnErr result ((self.new ≡ self.old) × (at.new ≡ at.old)) }
    {
        if let Some(answer) = self.barred(at, session) {
            return Ok(answer);
        }
        self.end(at, session);
        Ok(Answer::RolledBack)
    }
}
