// Session calls.
ghost use Rattle.std.specs.Prelude.{◌≡◌, IfOk, List, OnErr, OnOk, true, ℕ};
ghost use Rattle.gr_ids.specs.declared.memory.Memory.{Memory};
ghost use Rattle.key_items.specs.Spelling.{IsItem};
ghost use Rattle.group_rules.specs.declared.answers.Answer.TheVariants.{Sent as SentAs};
ghost use Rattle.group_rules.specs.declared.requests.Request.TheVariants.{Begin, Commit, Delete, Get, Insert, Rollback, Update};
ghost use Rattle.group_rules.specs.Calls.{call};
ghost use Rattle.group_rules.specs.Member.{Member};
ghost use Rattle.local_sessions.specs.declared.commit_step.CommitStep.TheVariants.{Said as Says};
ghost use Rattle.local_sessions.specs.Acting.{reply_to, sent_as};
ghost use Rattle.local_sessions.specs.Standing.{is_asked, session_in};
ghost use Rattle.member_tables.specs.Calling.{AsksIfReady, CommitsTo, IsSendable, IsSized, OnceSent};
ghost use Rattle.member_tables.specs.Standing.{TablesFor};

use crate::tables::MemberTables;
use gr_ids::{Blob, Level, Memory, SessionId, ValueId};
use group_rules::Answer;
use key_items::Item;
use local_sessions::CommitStep;

/// What a call is answered is the answer of the first check that holds, in their order (`tables_stand_for_their_member` says that it is
/// the one of the rules of the group); then the tables stand for the member as the rules leave it. After want of memory all is unchanged.
impl MemberTables {
    /// Begins a transaction: the answer is Held, and the begin is held until `begun` or `timed_out`, or a refusal. Where it is Held and the level has a Sync, the
    /// rules send one. Linear in the sessions.
    pub fn begin(&mut self, session: SessionId, level: Level, limit: u32) -> Result<Answer, Memory>
        ensures answer { IfOk result (λ w. (reply_to self.old.tables (session_in self.old.sessions session) (Begin level limit)).answer ≡ Says w) }
        ensures called { OnOk result ((a : Member) → TablesFor a self.old → TablesFor (call session (Begin level limit) a) self.new) }
        ensures err { OnErr result (self.new ≡ self.old) }
    {
        self.sessions.begin(&mut self.tables, session, level, limit)
    }

    /// The row as the transaction sees it: its own last write, else what it reads. Linear in its changes, the sessions and the row.
    pub fn get(&mut self, session: SessionId, item: Item) -> Result<Answer, Memory>
        ensures answer { IfOk result (λ w. (reply_to self.old.tables (session_in self.old.sessions session) (Get item)).answer ≡ Says w) }
        ensures called { OnOk result ((a : Member) → TablesFor a self.old → TablesFor (call session (Get item) a) self.new) }
        ensures err { OnErr result (self.new ≡ self.old) }
    {
        self.sessions.get(&mut self.tables, session, item)
    }

    /// Inserts a row, which must be absent now. For each change of the transaction, logarithmic in the items; linear in the sessions.
    pub fn insert(&mut self, session: SessionId, item: Item, value: Blob) -> Result<Answer, Memory>
        requires { IsItem item }
        ensures answer { IfOk result (λ w. (reply_to self.old.tables (session_in self.old.sessions session) (Insert item value)).answer ≡ Says w) }
        ensures called { OnOk result ((a : Member) → TablesFor a self.old → TablesFor (call session (Insert item value) a) self.new) }
        ensures err { OnErr result (self.new ≡ self.old) }
    {
        self.sessions.insert(&mut self.tables, session, item, value)
    }

    /// Updates a row, which must be present now. For each change of the transaction, logarithmic in the items; linear in the sessions.
    pub fn update(&mut self, session: SessionId, item: Item, value: Blob) -> Result<Answer, Memory>
        requires { IsItem item }
        ensures answer { IfOk result (λ w. (reply_to self.old.tables (session_in self.old.sessions session) (Update item value)).answer ≡ Says w) }
        ensures called { OnOk result ((a : Member) → TablesFor a self.old → TablesFor (call session (Update item value) a) self.new) }
        ensures err { OnErr result (self.new ≡ self.old) }
    {
        self.sessions.update(&mut self.tables, session, item, value)
    }

    /// Deletes a row, which must be present now. For each change of the transaction, logarithmic in the items; linear in the sessions.
    pub fn delete(&mut self, session: SessionId, item: Item) -> Result<Answer, Memory>
        requires { IsItem item }
        ensures answer { IfOk result (λ w. (reply_to self.old.tables (session_in self.old.sessions session) (Delete item)).answer ≡ Says w) }
        ensures called { OnOk result ((a : Member) → TablesFor a self.old → TablesFor (call session (Delete item) a) self.new) }
        ensures err { OnErr result (self.new ≡ self.old) }
    {
        self.sessions.delete(&mut self.tables, session, item)
    }

    /// Rolls the transaction back. Linear in the sessions.
    pub fn rollback(&mut self, session: SessionId) -> Result<Answer, Memory>
        ensures answer { IfOk result (λ w. (reply_to self.old.tables (session_in self.old.sessions session) Rollback).answer ≡ Says w) }
        ensures called { OnOk result ((a : Member) → TablesFor a self.old → TablesFor (call session Rollback a) self.new) }
        ensures err { OnErr result (self.new ≡ self.old) }
    {
        self.sessions.rollback(&mut self.tables, session)
    }

    /// Commits the transaction: ends it at once, or asks its commit and hands out its body, which is to be sent, and then told by `sent`.
    /// For each change, logarithmic in the items; linear in the sessions and in the bytes of the body.
    pub fn commit_call(&mut self, session: SessionId) -> Result<CommitStep, Memory>
        ensures answer { IfOk result (λ step. (reply_to self.old.tables (session_in self.old.sessions session) Commit).answer ≡ step) }
        ensures called { IfOk result (λ step. (a : Member) → TablesFor a self.old → CommitsTo step session a self.new) }
        ensures asked { IfOk result (λ step. AsksIfReady step session self.new) }
        ensures sized { IfOk result IsSized }
        ensures spelt { IfOk result (λ step. (a : Member) → TablesFor a self.old → IsSendable step session a) }
        ensures err { OnErr result (self.new ≡ self.old) }
    {
        self.sessions.commit(&mut self.tables, session)
    }

    /// The body, which was handed out, is sent as this value. Linear in the sessions; takes no memory.
    pub fn sent(&mut self, session: SessionId, id: ValueId) -> Answer
        requires { is_asked (session_in self.old.sessions session) ≡ true }
        ensures answer { result ≡ SentAs id }
        ensures called { (a : Member) (b : List ℕ) → id ≡ sent_as b a → OnceSent session b a self.old → TablesFor (call session Commit a) self.new }
    {
        self.sessions.sent(session, id)
    }
}
