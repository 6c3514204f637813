// Places that are done.
ghost use Rattle.std.specs.Prelude.{◌≡◌, OnErr, OnOk, Some, false, reverse, true};
ghost use Rattle.gr_ids.specs.declared.memory.Memory.{Memory};
ghost use Rattle.group_rules.specs.Events.{Cert, Done};
ghost use Rattle.group_rules.specs.Life.{certs};
ghost use Rattle.group_rules.specs.Member.{Member, push};
ghost use Rattle.group_rules.specs.Queue.{at_place, is_done, queue};
ghost use Rattle.local_sessions.specs.Following.{rise};
ghost use Rattle.member_tables.specs.Standing.{TablesFor};

use crate::tables::MemberTables;
use gr_ids::{Gtid, Memory, Pos};
use key_items::WriteSet;

impl MemberTables {
    /// A queued place becomes done, and takes over the keys of its transaction: an active session that held one is rolled back.
    /// Logarithmic in the locks for each key, and linear in the done places and the sessions.
    pub fn done(&mut self, place: Pos, gtid: Gtid, items: &WriteSet) -> Result<(), Memory>
        ensures done { OnOk result ((a : Member) (c : Cert) → at_place (queue a.life a.me.inc) place ≡ Some c → is_done a.life place ≡ false
            → rise (reverse (certs a.life)) ≡ true → gtid ≡ c.gtid → items.now ≡ c.txn.items → TablesFor a self.old
            → TablesFor (push (Done place) a) self.new) }
        ensures err { OnErr result (self.new ≡ self.old) }
    {
        self.sessions
            .done_takes(place, gtid, items, &mut self.tables.locks)
    }
}
