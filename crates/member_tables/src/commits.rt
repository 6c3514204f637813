// Commits, and transactions that are refused as conflicts.
ghost use Rattle.std.specs.Prelude.{◌≡◌, IfOk, OnErr, OnOk, option_to_list, true};
ghost use Rattle.std.specs.Option.{option_map};
ghost use Rattle.gr_ids.specs.declared.memory.Memory.{Memory};
ghost use Rattle.gtid_sets.specs.Canonical.{IsNumber};
ghost use Rattle.group_rules.specs.Events.{Cert, Committed};
ghost use Rattle.group_rules.specs.Member.{Member, push};
ghost use Rattle.group_rules.specs.Points.{answer_own};
ghost use Rattle.group_rules.specs.Taking.{on_conflict};
ghost use Rattle.local_sessions.specs.Acting.{tell, told_to};
ghost use Rattle.local_sessions.specs.Others.{answer_of, answered, asking};
ghost use Rattle.local_sessions.specs.Standing.{ascend};
ghost use Rattle.member_tables.specs.Committing.{IsAsBefore, IsNext, IsOf, Settles};
ghost use Rattle.member_tables.specs.Standing.{TablesFor};

use crate::tables::MemberTables;
use gr_ids::{Gtid, Memory, Pos, Sequence, ValueId};
use group_rules::Outcome;
use key_items::Change;
use local_sessions::{Answered, Tables};

impl MemberTables {
    /// Commits a transaction, whose changes are those of this place; `own` is its value where it is an own one, and the session that waits
    /// for it is answered. After want of memory the rows, the executed set, the locks and the sessions are as they were. For each change
    /// logarithmic in the items; linear in the executed runs, the done places and the sessions.
    pub fn commit(
        &mut self,
        place: Pos,
        gtid: Gtid,
        own: Option<ValueId>,
        changes: Sequence<Change>,
    ) -> Result<Option<Answered>, Memory>
        requires { IsNumber gtid.number }
        ensures answer { IfOk result (λ o. (a : Member) (c : Cert) → IsNext a.life c → IsOf a.me.inc c place gtid own changes → TablesFor a self.old
            → answer_own c (push (Committed c.gtid) a) ≡ tell (option_to_list o) (push (Committed c.gtid) a)) }
        ensures committed { OnOk result ((a : Member) (c : Cert) → IsNext a.life c → IsOf a.me.inc c place gtid own changes → TablesFor a self.old
            → TablesFor (answer_own c (push (Committed c.gtid) a)) self.new) }
        ensures err { OnErr result ((self.new.sessions ≡ self.old.sessions) × IsAsBefore self.old.tables self.new.tables) }
    {
        settle(&mut self.tables, place, gtid, changes)?;
        match own {
            None => Ok(None),
            Some(id) => Ok(self.decided(id, Outcome::Committed(gtid))),
        }
    }

    /// The own transaction of this value conflicts with the one of this GTID: the session that waits for it is answered, and holds no key any
    /// more. Linear in the sessions; takes no memory.
    pub fn conflict(&mut self, id: ValueId, gtid: Gtid) -> Option<Answered>
        ensures answer { (a : Member) → TablesFor a self.old → on_conflict id gtid a ≡ tell (option_to_list result) a }
        ensures conflicted { (a : Member) → TablesFor a self.old → TablesFor (on_conflict id gtid a) self.new }
    {
        self.decided(id, Outcome::Conflict(gtid))
    }

    // The value is decided so: the session that waits for it is answered, and ends.
    fn decided(&mut self, id: ValueId, outcome: Outcome) -> Option<Answered>
        ensures answer { result ≡ option_map (answered (answer_of outcome)) (asking self.old.sessions id) }
        ensures told { (a : Member) → TablesFor a self.old → TablesFor (told_to (asking self.old.sessions id) (answer_of outcome) a) self.new }
        ensures order { ascend self.old.sessions ≡ true }
    {
        self.sessions.decided(&mut self.tables, id, outcome)
    }
}

// The transaction's changes are the newest, its GTID is executed, and its place holds nothing any more.
fn settle(at: &mut Tables, place: Pos, gtid: Gtid, changes: Sequence<Change>) -> Result<(), Memory>
    requires { IsNumber gtid.number }
    ensures ok { OnOk result (Settles place gtid changes at.old at.new) }
    ensures err { OnErr result (IsAsBefore at.old at.new) }
{
    at.store.room(changes.as_slice())?;
    at.executed.add(gtid)?;
    at.store.apply(changes, gtid);
    at.locks.free_place(place);
    Ok(())
}
