// ERROR.
ghost use Rattle.std.specs.Prelude.{◌≡◌, IfOk, OnErr, OnOk};
ghost use Rattle.gr_ids.specs.declared.memory.Memory.{Memory};
ghost use Rattle.gr_ids.specs.declared.levels.MemberState.TheVariants.{Error as InError};
ghost use Rattle.key_items.specs.declared.item.Item.{Item};
ghost use Rattle.group_rules.specs.declared.marks.Cause.{Cause as AnyCause};
ghost use Rattle.group_rules.specs.Events.{Is};
ghost use Rattle.group_rules.specs.Member.{Member, fall, push};
ghost use Rattle.row_locks.specs.Locking.{session_at};
ghost use Rattle.local_sessions.specs.Acting.{TakenOf, tell};
ghost use Rattle.local_sessions.specs.Others.{without_told};
ghost use Rattle.member_tables.specs.Standing.{TablesFor};

use crate::tables::MemberTables;
use gr_ids::{MemberState, Memory, Sequence};
use local_sessions::{Answered, TakenOwn};
use row_locks::Locks;

impl MemberTables {
    /// The member takes ERROR, for any cause: held begins end, and so do transactions whose commit is asked, each with its answer, ascending by
    /// session; active ones wait for their next call, and no place is queued any more. `taken` are the own transactions that were taken
    /// positive and aren't committed. Linear in the sessions times these, in the locks of those that end and in the done places.
    pub fn fall(&mut self, taken: &[TakenOwn]) -> Result<Sequence<Answered>, Memory>
        ensures answers { IfOk result (λ out. (a : Member) (c : AnyCause) → TakenOf taken.now a.life → TablesFor a self.old
            → fall c a ≡ tell out (push (Is InError c) a)) }
        ensures fallen { OnOk result ((a : Member) (c : AnyCause) → TakenOf taken.now a.life → TablesFor a self.old → TablesFor (fall c a) self.new) }
        ensures err { OnErr result (self.new ≡ self.old) }
    {
        let answers = self.sessions.member_left(taken)?;
        free_told(&mut self.tables.locks, answers.as_slice());
        self.tables.locks.free_places();
        self.tables.state = MemberState::Error;
        Ok(answers)
    }
}

// Those that are told hold no key any more.
fn free_told(locks: &mut Locks, told: &[Answered])
    ensures keys { (j : Item) → session_at locks.new.keys j ≡ without_told told.now (session_at locks.old.keys j) }
    ensures places { locks.new.places ≡ locks.old.places }
{
    for answered in told {
        locks.free(answered.session);
    }
}
