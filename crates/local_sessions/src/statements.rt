// Gets, inserts, updates and deletes.
ghost use Rattle.std.specs.Prelude.{◌≡◌, IfOk, OnErr, OnOk};
ghost use Rattle.key_items.specs.Spelling.{IsItem};
ghost use Rattle.key_items.specs.declared.change.ChangeKind.TheVariants.{Delete as Deletes, Insert as Inserts, Update as Updates};
ghost use Rattle.gr_ids.specs.declared.memory.Memory.{Memory};
ghost use Rattle.local_sessions.specs.declared.commit_step.CommitStep.TheVariants.{Said as Says};
ghost use Rattle.local_sessions.specs.Standing.{session_in};
ghost use Rattle.local_sessions.specs.Replies.{Does, get as get_reply, statement};

use crate::listing::session_of;
use crate::reading::row_seen;
use crate::sessions::Sessions;
use crate::tables::Tables;
use crate::writing::{make, refusal};
use gr_ids::{Blob, Memory, SessionId};
use group_rules::Answer;
use key_items::{Change, ChangeKind, Item};

impl Sessions {
    /// The row as the transaction sees it: its own last write, else what it reads. Linear in its changes and in the row.
    pub fn get(&mut self, at: &mut Tables, session: SessionId, item: Item) -> Result<Answer, Memory>
        ensures answer { IfOk result (λ a. (get_reply at.old item (session_in self.old session)).answer ≡ Says a) }
        ensures done { OnOk result (Does (get_reply at.old item (session_in self.old session)).deed session self.old self.new at.old at.new) }
        ensures err { OnErr result ((self.new ≡ self.old) × (at.new ≡ at.old)) }
    {
        if let Some(answer) = self.barred(at, session) {
            return Ok(answer);
        }
        let Some(x) = session_of(&self.list, session) else {
            unreachable!();
        };
        let row = row_seen(*self.list.allocator(), x, &at.store, &item)?;
        Ok(Answer::Got(row))
    }

    /// Inserts a row, which must be absent now. For each change of the transaction, logarithmic in the items.
    pub fn insert(
        &mut self,
        at: &mut Tables,
        session: SessionId,
        item: Item,
        value: Blob,
    ) -> Result<Answer, Memory>
        requires { IsItem item }
        ensures answer { IfOk result (λ a. (statement at.old (record { item = item; what = Inserts value }) (session_in self.old session)).answer ≡ Says a) }
        ensures done { OnOk result (Does (statement at.old (record { item = item; what = Inserts value }) (session_in self.old session)).deed session self.old self.new at.old at.new) }
        ensures err { OnErr result ((self.new ≡ self.old) × (at.new ≡ at.old)) }
    {
        let what = ChangeKind::Insert(value);
        self.write(at, session, Change { item, what })
    }

    /// Updates a row, which must be present now. For each change of the transaction, logarithmic in the items.
    pub fn update(
        &mut self,
        at: &mut Tables,
        session: SessionId,
        item: Item,
        value: Blob,
    ) -> Result<Answer, Memory>
        requires { IsItem item }
        ensures answer { IfOk result (λ a. (statement at.old (record { item = item; what = Updates value }) (session_in self.old session)).answer ≡ Says a) }
        ensures done { OnOk result (Does (statement at.old (record { item = item; what = Updates value }) (session_in self.old session)).deed session self.old self.new at.old at.new) }
        ensures err { OnErr result ((self.new ≡ self.old) × (at.new ≡ at.old)) }
    {
        let what = ChangeKind::Update(value);
        self.write(at, session, Change { item, what })
    }

    /// Deletes a row, which must be present now. For each change of the transaction, logarithmic in the items.
    pub fn delete(
        &mut self,
        at: &mut Tables,
        session: SessionId,
        item: Item,
    ) -> Result<Answer, Memory>
        requires { IsItem item }
        ensures answer { IfOk result (λ a. (statement at.old (record { item = item; what = Deletes }) (session_in self.old session)).answer ≡ Says a) }
        ensures done { OnOk result (Does (statement at.old (record { item = item; what = Deletes }) (session_in self.old session)).deed session self.old self.new at.old at.new) }
        ensures err { OnErr result ((self.new ≡ self.old) × (at.new ≡ at.old)) }
    {
        let what = ChangeKind::Delete;
        self.write(at, session, Change { item, what })
    }

    // An insert, update or delete.
    fn write(
        &mut self,
        at: &mut Tables,
        session: SessionId,
        change: Change,
    ) -> Result<Answer, Memory>
        requires { IsItem change.item }
        ensures answer { IfOk result (λ a. (statement at.old change (session_in self.old session)).answer ≡ Says a) }
        ensures done { OnOk result (Does (statement at.old change (session_in self.old session)).deed session self.old self.new at.old at.new) }
        ensures err { OnErr result ((self.new ≡ self.old) × (at.new ≡ at.old)) }
    {
        if let Some(answer) = self.barred(at, session) {
            return Ok(answer);
        }
        let Some(x) = session_of(&self.list, session) else {
            unreachable!();
        };
        if let Some(answer) = refusal(at, x, &change) {
            return Ok(answer);
        }
        make(&mut self.list, &mut at.locks, session, change)?;
        Ok(Answer::Changed)
    }
}
