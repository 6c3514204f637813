// Workers' results.
ghost use Rattle.std.specs.Prelude.{◌≡◌, OnOk, Some, false};
ghost use Rattle.gr_ids.specs.declared.memory.Memory.{Memory};
ghost use Rattle.group_rules.specs.Events.{Replied};
ghost use Rattle.group_rules.specs.Member.{Member, push};
ghost use Rattle.group_rules.specs.Steps.{work as works};
ghost use Rattle.apply_queue.specs.Following.{with_result};
ghost use Rattle.member_moment.specs.Doing.{Does};
ghost use Rattle.member_moment.specs.Saying.{asks_a_donor};

use crate::moment::Moment;
use apply_queue::{QueueFault, WorkDone};
use gr_ids::{Memory, Pos};
use group_rules::{Mark, Reply};

impl Moment {
    /// A worker's result: its place is done, or why it isn't. Linear in the places before it, the locks of its keys and the sessions.
    pub fn work(&mut self, done: WorkDone) -> Result<(), Memory>
        ensures { OnOk result (Does (works done.place (Some done.body)) self.old self.new) }
    {
        let place = done.place;
        match self.parts.accepts(&done) {
            Ok(gtid) => {
                self.tables.done(place, gtid, &done.items)?;
                self.marks.push(Mark::Done(place))?;
                let _ = self.parts.done(done);
                Ok(())
            }
            Err(fault) => self.reply(refused(place, fault)),
        }
    }
}

fn refused(place: Pos, fault: QueueFault) -> Reply
    ensures told { (a : Member) → with_result place (Some fault) a ≡ push (Replied result) a }
    ensures plain { asks_a_donor result ≡ false }
{
    match fault {
        QueueFault::NotQueued { pos: _ } => Reply::NotQueued(place),
        QueueFault::AlreadyDone { pos: _ } => Reply::AlreadyDone(place),
    }
}
