// What becomes of transactions besides the calls of their sessions.
ghost use Rattle.std.specs.Prelude.{◌≡◌, IfNone, IfOk, IfSome, OnErr, OnOk, filter, map, true};
ghost use Rattle.std.specs.Option.{option_map};
ghost use Rattle.gr_ids.specs.declared.memory.Memory.{Memory};
ghost use Rattle.key_items.specs.declared.item.Item.{Item as AnyItem};
ghost use Rattle.row_locks.specs.Locking.{holders_of, session_at, taken_over, with_place};
ghost use Rattle.local_sessions.specs.Standing.{ascend as is_ascending};
ghost use Rattle.local_sessions.specs.Replies.{Does, Ends};
ghost use Rattle.local_sessions.specs.Others.{answer_of, answered, answers_ascend, answers_left, asking, killed_by, sessions_left, unless_killed};

use crate::leaving::{answers_of, keep_remaining, leave_each};
use crate::losing::{free_losers, kill_losers};
use crate::session::{Session, Stage};
use crate::sessions::Sessions;
use crate::tables::Tables;
use crate::told::{Answered, TakenOwn};
use gr_ids::{Gtid, Memory, Pos, Sequence, SessionId, ValueId};
use group_rules::{Answer, Outcome};
use key_items::WriteSet;
use row_locks::Locks;

impl Sessions {
    /// The transaction that was sent as this value has ended so: its session gets this answer and holds no key any more. None exactly
    /// where no session waits for the value. Takes no memory.
    pub fn decided(&mut self, at: &mut Tables, id: ValueId, outcome: Outcome) -> Option<Answered>
        ensures answer { result ≡ option_map (answered (answer_of outcome)) (asking self.old id) }
        ensures none { IfNone result ((self.new ≡ self.old) × (at.new ≡ at.old)) }
        ensures some { IfSome result (λ a. Does Ends a.session self.old self.new at.old at.new) }
        ensures order { is_ascending self.old ≡ true }
    {
        let session = session_asking(&self.list, id)?;
        self.end(at, session);
        let answer = answer_to(outcome);
        Some(Answered { session, answer })
    }

    /// The transaction with this GTID is done at its place, and takes over its keys: an active session that held one is rolled back and
    /// loses all its keys, and one whose commit is asked loses those. Logarithmic in the locks for each key.
    pub fn done_takes(
        &mut self,
        place: Pos,
        gtid: Gtid,
        items: &WriteSet,
        locks: &mut Locks,
    ) -> Result<(), Memory>
        ensures sessions { OnOk result (self.new ≡ map (killed_by gtid (holders_of locks.old.keys items.now)) self.old) }
        ensures keys { OnOk result ((j : AnyItem) → session_at locks.new.keys j ≡ unless_killed self.old (holders_of locks.old.keys items.now) (taken_over items.now (session_at locks.old.keys) j)) }
        ensures places { OnOk result (locks.new.places ≡ with_place locks.old.places (record { place = place; gtid = gtid; items = items.now })) }
        ensures err { OnErr result ((self.new ≡ self.old) × (locks.new ≡ locks.old)) }
    {
        let losers = locks.take_over(items, place, gtid)?;
        free_losers(locks, &self.list, losers.as_slice());
        kill_losers(&mut self.list, losers.as_slice(), gtid);
        Ok(())
    }

    /// The member takes ERROR: held begins end, and so do transactions whose commit is asked, each with its answer, ascending by session;
    /// active ones wait for their next call. `taken` are the own transactions that were taken positive and aren't committed. Whoever
    /// holds the locks frees those of the sessions that are answered.
    pub fn member_left(&mut self, taken: &[TakenOwn]) -> Result<Sequence<Answered>, Memory>
        ensures answers { IfOk result (λ out. out ≡ answers_left taken.now self.old) }
        ensures ascend { IfOk result (λ out. answers_ascend out ≡ true) }
        ensures sessions { OnOk result (self.new ≡ sessions_left self.old) }
        ensures order { is_ascending self.old ≡ true }
        ensures err { OnErr result (self.new ≡ self.old) }
    {
        let answers = answers_of(*self.list.allocator(), &self.list, taken)?;
        keep_remaining(&mut self.list);
        leave_each(&mut self.list);
        Ok(Sequence::from_vec(answers))
    }
}

// The session that waits for this value.
fn session_asking(list: &[Session], id: ValueId) -> Option<SessionId>
    ensures { result ≡ option_map (λ x. x.session) (asking list.now id) }
{
    match list.iter().find(|x| x.stage == Stage::Asking(id)) {
        Some(x) => Some(x.session),
        None => None,
    }
}

fn answer_to(outcome: Outcome) -> Answer
    ensures { result ≡ answer_of outcome }
{
    match outcome {
        Outcome::Committed(gtid) => Answer::Committed(gtid),
        Outcome::Conflict(gtid) => Answer::Conflict(gtid),
    }
}
