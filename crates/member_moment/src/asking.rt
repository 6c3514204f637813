// Commits.
ghost use Rattle.std.specs.Prelude.{◌≡◌, ◌≤◌, OnOk, Some, false, length, true};
ghost use Rattle.std.specs.List.{AllByRecursion};
ghost use Rattle.gr_ids.specs.declared.memory.Memory.{Memory};
ghost use Rattle.txn_forms.specs.Bodies.{IsPart};
ghost use Rattle.txn_forms.specs.Parts.{most_bytes};
ghost use Rattle.txn_forms.specs.declared.body.Body.TheVariants.{Txn as Writes};
ghost use Rattle.txn_forms.specs.declared.body.Txn.{Txn};
ghost use Rattle.group_rules.specs.Calls.{call as calls, own_part, send_txn as sends_txn};
ghost use Rattle.group_rules.specs.Events.{Life};
ghost use Rattle.group_rules.specs.Member.{Member, for_each};
ghost use Rattle.group_rules.specs.Sessions.{is_holding, phase};
ghost use Rattle.group_rules.specs.declared.requests.Request.TheVariants.{Commit};
ghost use Rattle.local_sessions.specs.Standing.{is_asked, session_in};
ghost use Rattle.local_sessions.specs.Telling.{ends_commit as ends_commit_by};
ghost use Rattle.member_tables.specs.Calling.{OnceSent};
ghost use Rattle.member_tables.specs.Standing.{TablesFor};
ghost use Rattle.member_truth.specs.Ranged.{IsSpelt};
ghost use Rattle.member_moment.specs.Calling.{sends_body};
ghost use Rattle.member_moment.specs.Doing.{Does};
ghost use Rattle.member_moment.specs.Standing.{RestFor};

use crate::moment::Moment;
use gr_ids::{Blob, Memory, SessionId, ValueId};
use group_rules::{Answer, Mark};
use local_sessions::CommitStep;
use member_messages::cut_body;
use slot_values::What;
use txn_forms::{Body, Part, encode};

// A body of more bytes is sent in parts.
const WHOLE_BYTES: usize = 65_536;

impl Moment {
    // It is answered at once, or the transaction is sent.
    pub(crate) fn commit(&mut self, session: SessionId) -> Result<(), Memory>
        ensures { OnOk result (Does (calls session Commit) self.old self.new) }
    {
        match self.tables.commit_call(session)? {
            CommitStep::Said(answer) => {
                let ends = ends_commit(&answer);
                self.answer_call(session, answer, ends)
            }
            CommitStep::Ready(body) => self.send_txn(session, body),
        }
    }

    // The transaction is sent, and its session is told as which value.
    fn send_txn(&mut self, session: SessionId, body: Blob) -> Result<(), Memory>
        requires filled { 1 ≤ length body }
        requires bounded { length body ≤ most_bytes }
        requires asked { is_asked (session_in self.old.tables.sessions session) ≡ true }
        ensures { OnOk result ((base : Life) (a : Member) (t : Txn) → IsSpelt (Some (Writes t)) → is_holding (phase a.life session) ≡ false
            → RestFor base a self.old → OnceSent session body a self.old.tables
            → RestFor base (sends_txn session t body a) self.new × TablesFor (calls session Commit a) self.new.tables) }
    {
        self.send_body(body)?;
        let id = ValueId {
            origin: self.me.inc,
            number: self.own.made(),
        };
        let answer = self.tables.sent(session, id);
        self.marks.push(Mark::Answered(session, answer))?;
        Ok(())
    }

    // The own value that brings a body, or one for each of its parts.
    fn send_body(&mut self, body: Blob) -> Result<(), Memory>
        requires filled { 1 ≤ length body }
        requires bounded { length body ≤ most_bytes }
        ensures rest { OnOk result ((base : Life) (a : Member) (t : Txn) → IsSpelt (Some (Writes t)) → RestFor base a self.old
            → RestFor base (sends_body t body a) self.new) }
        ensures others { OnOk result (self.new ≡ record self.old { node = self.new.node; parts = self.new.parts; own = self.new.own; sent = self.new.sent }) }
    {
        if body.len() <= WHOLE_BYTES {
            return self.own(What::Body(body), None, false);
        }
        let parts = cut_body(self.alloc, body.as_slice())?;
        self.send_parts(parts)
    }

    fn send_parts(&mut self, parts: Vec<Part>) -> Result<(), Memory>
        requires { AllByRecursion IsPart parts.items }
        ensures rest { OnOk result ((base : Life) (a : Member) (t : Txn) → IsSpelt (Some (Writes t)) → RestFor base a self.old
            → RestFor base (for_each (own_part t) parts.items a) self.new) }
        ensures others { OnOk result (self.new ≡ record self.old { node = self.new.node; parts = self.new.parts; own = self.new.own; sent = self.new.sent }) }
    {
        for part in parts {
            self.send_part(part)?;
        }
        Ok(())
    }

    fn send_part(&mut self, part: Part) -> Result<(), Memory>
        requires { IsPart part }
        ensures rest { OnOk result ((base : Life) (a : Member) (t : Txn) → IsSpelt (Some (Writes t)) → RestFor base a self.old
            → RestFor base (own_part t part a) self.new) }
        ensures others { OnOk result (self.new ≡ record self.old { node = self.new.node; parts = self.new.parts; own = self.new.own; sent = self.new.sent }) }
    {
        let bytes = encode(self.alloc, &Body::Part(part))?;
        self.own(What::Body(bytes), None, false)
    }
}

fn ends_commit(answer: &Answer) -> bool
    ensures { result ≡ ends_commit_by answer.now }
{
    match answer {
        Answer::Busy | Answer::NoTransaction => false,
        _ => true,
    }
}
