// Commits.
ghost use Rattle.std.specs.Prelude.{◌≡◌, OnOk, true};
ghost use Rattle.gr_ids.specs.declared.memory.Memory.{Memory};
ghost use Rattle.gr_ids.specs.declared.names.Inc.{Inc as AnyInc};
ghost use Rattle.gtid_sets.specs.Canonical.{IsNumber};
ghost use Rattle.group_rules.specs.Events.{Cert, Committed, Life};
ghost use Rattle.group_rules.specs.Member.{Member, push};
ghost use Rattle.group_rules.specs.Points.{answer_own, commit_one as commits};
ghost use Rattle.member_backlog.specs.Standing.{uncommitted_of};
ghost use Rattle.member_parts.specs.Committing.{IsPending};
ghost use Rattle.member_tables.specs.Committing.{own_id};
ghost use Rattle.member_moment.specs.Committing.{Commits, IsCommitOf};
ghost use Rattle.member_moment.specs.Doing.{IsKept};
ghost use Rattle.member_moment.specs.Standing.{Stands};

use crate::moment::Moment;
use apply_queue::WorkDone;
use gr_ids::{Inc, Memory, ValueId};
use group_rules::Mark;
use member_backlog::Uncommitted;
use paxos_forms::Given;

// The greatest number of a GTID, 2^63 - 2.
const LAST_NUMBER: u64 = 9_223_372_036_854_775_806;

impl Moment {
    /// A transaction that waits is committed, if it may be. Linear in those that wait and in the sessions, besides what its changes take.
    pub fn commit_one(&mut self, one: &Uncommitted) -> Result<(), Memory>
        ensures { OnOk result ((base : Life) (a : Member) (c : Cert) → IsPending a.life c one.now → IsKept (commits c a) → Stands base a self.old
            → Stands base (commits c a) self.new) }
    {
        if !self.parts.may_commit(self.me.inc, one) {
            return Ok(());
        }
        if !is_number(one.gtid.number) {
            return Ok(());
        }
        match self.parts.commit(self.me.inc, one) {
            Some(done) => self.commit_done(one, done),
            None => Ok(()),
        }
    }

    // It is committed, and its session is answered where it is an own one.
    fn commit_done(&mut self, one: &Uncommitted, done: WorkDone) -> Result<(), Memory>
        requires { IsNumber one.now.gtid.number }
        ensures { OnOk result ((base : Life) (a : Member) (c : Cert) → IsCommitOf c one.now done → Commits base a c self.old
            → Stands base (answer_own c (push (Committed c.gtid) a)) self.new) }
    {
        let WorkDone {
            place: _,
            body,
            changes,
            items: _,
        } = done;
        self.marks.push(Mark::Committed(one.gtid))?;
        self.committed.push(Given {
            place: one.place,
            origin: one.id.origin,
            gtid: one.gtid,
            body,
        })?;
        let own = own_value(self.me.inc, one);
        match self.tables.commit(one.place, one.gtid, own, changes)? {
            Some(told) => self.tell(told),
            None => Ok(()),
        }
    }
}

fn is_number(number: u64) -> bool
    ensures in_range { result ≡ true → IsNumber number }
    ensures all { IsNumber number → result ≡ true }
{
    1 <= number && number <= LAST_NUMBER
}

fn own_value(me: Inc, one: &Uncommitted) -> Option<ValueId>
    ensures { (c : Cert) → one.now ≡ uncommitted_of c → result ≡ own_id me c }
{
    if one.id.origin == me {
        Some(one.id)
    } else {
        None
    }
}
