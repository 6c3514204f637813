// Session calls.
ghost use Rattle.std.specs.Prelude.{◌≡◌, OnOk};
ghost use Rattle.gr_ids.specs.declared.memory.Memory.{Memory};
ghost use Rattle.key_items.specs.Spelling.{IsItem};
ghost use Rattle.group_rules.specs.Calls.{call as calls};
ghost use Rattle.group_rules.specs.Events.{Life};
ghost use Rattle.group_rules.specs.Member.{Member};
ghost use Rattle.group_rules.specs.declared.requests.Request.TheVariants.{Delete, Get, Insert, Rollback, Update};
ghost use Rattle.local_sessions.specs.declared.commit_step.CommitStep.TheVariants.{Said};
ghost use Rattle.local_sessions.specs.Acting.{done_by};
ghost use Rattle.local_sessions.specs.Replies.{Deed};
ghost use Rattle.group_rules.specs.declared.requests.Request.{Request as AnyRequest};
ghost use Rattle.local_sessions.specs.Telling.{Fits, is_last as is_last_of};
ghost use Rattle.member_moment.specs.Calling.{IsRequest};
ghost use Rattle.member_moment.specs.Doing.{Does};
ghost use Rattle.member_moment.specs.Standing.{RestFor};

use crate::moment::Moment;
use gr_ids::{Blob, Memory, SessionId};
use group_rules::{Answer, Mark, Request};
use key_items::Item;
use local_sessions::Answered;

impl Moment {
    /// A session call: it is answered, or its begin is held, or its commit is asked. Its cost is that of the tables; a commit is linear in the
    /// bytes of its body, and a begin in what waits to be committed, times the queue.
    pub fn call(&mut self, session: SessionId, request: Request) -> Result<(), Memory>
        requires { IsRequest request }
        ensures { OnOk result (Does (calls session request) self.old self.new) }
    {
        match request {
            Request::Begin(level, limit) => self.open(session, level, limit),
            Request::Get(item) => self.get(session, item),
            Request::Insert(item, row) => self.insert(session, item, row),
            Request::Update(item, row) => self.update(session, item, row),
            Request::Delete(item) => self.delete(session, item),
            Request::Commit => self.commit(session),
            Request::Rollback => self.roll_back(session),
        }
    }

    fn get(&mut self, session: SessionId, item: Item) -> Result<(), Memory>
        ensures { OnOk result (Does (calls session (Get item)) self.old self.new) }
    {
        let answer = self.tables.get(session, item)?;
        let ends = is_last(&answer);
        self.answer_call(session, answer, ends)
    }

    fn insert(&mut self, session: SessionId, item: Item, row: Blob) -> Result<(), Memory>
        requires { IsItem item }
        ensures { OnOk result (Does (calls session (Insert item row)) self.old self.new) }
    {
        let answer = self.tables.insert(session, item, row)?;
        let ends = is_last(&answer);
        self.answer_call(session, answer, ends)
    }

    fn update(&mut self, session: SessionId, item: Item, row: Blob) -> Result<(), Memory>
        requires { IsItem item }
        ensures { OnOk result (Does (calls session (Update item row)) self.old self.new) }
    {
        let answer = self.tables.update(session, item, row)?;
        let ends = is_last(&answer);
        self.answer_call(session, answer, ends)
    }

    fn delete(&mut self, session: SessionId, item: Item) -> Result<(), Memory>
        requires { IsItem item }
        ensures { OnOk result (Does (calls session (Delete item)) self.old self.new) }
    {
        let answer = self.tables.delete(session, item)?;
        let ends = is_last(&answer);
        self.answer_call(session, answer, ends)
    }

    fn roll_back(&mut self, session: SessionId) -> Result<(), Memory>
        ensures { OnOk result (Does (calls session Rollback) self.old self.new) }
    {
        let answer = self.tables.rollback(session)?;
        let ends = is_last(&answer);
        self.answer_call(session, answer, ends)
    }

    // What a call is answered, which the tables know already; `ends` where it ends the session's transaction.
    pub(crate) fn answer_call(
        &mut self,
        session: SessionId,
        answer: Answer,
        ends: bool,
    ) -> Result<(), Memory>
        ensures rest { OnOk result ((base : Life) (a : Member) (r : AnyRequest) (d : Deed) → Fits ends answer d → RestFor base a self.old
            → RestFor base (done_by session r (Said answer) d a) self.new) }
        ensures tables { OnOk result (self.new.tables ≡ self.old.tables) }
    {
        if ends {
            return self.tell(Answered { session, answer });
        }
        self.marks.push(Mark::Answered(session, answer))?;
        Ok(())
    }
}

// Whether it ends the transaction, at any call but a commit.
pub(crate) fn is_last(answer: &Answer) -> bool
    ensures { result ≡ is_last_of answer.now }
{
    match answer {
        Answer::Killed(_) | Answer::MemberLeft | Answer::RolledBack => true,
        _ => false,
    }
}
