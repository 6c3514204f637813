// Transactions and holds that end without a call: conflicts, time-outs, ERROR.
ghost use Rattle.std.specs.Prelude.{◌≡◌, IfOk, OnOk, map, true};
ghost use Rattle.gr_ids.specs.declared.memory.Memory.{Memory};
ghost use Rattle.group_rules.specs.declared.answers.Answer.TheVariants.{HoldTimeout as TimedOut};
ghost use Rattle.group_rules.specs.Events.{Life};
ghost use Rattle.group_rules.specs.Member.{Member, fall as falls, for_each, last_answer};
ghost use Rattle.group_rules.specs.Sessions.{is_holding, phase, sessions};
ghost use Rattle.group_rules.specs.Steps.{time_out};
ghost use Rattle.group_rules.specs.Taking.{on_conflict};
ghost use Rattle.local_sessions.specs.Acting.{tell as tells};
ghost use Rattle.member_moment.specs.Aside.{ButParts};
ghost use Rattle.member_moment.specs.Doing.{Does};
ghost use Rattle.member_moment.specs.Ending.{taken_of};
ghost use Rattle.member_moment.specs.Standing.{RestFor};

use crate::moment::Moment;
use gr_ids::{Gtid, MemberState, Memory, Sequence, SessionId, ValueId};
use group_rules::{Answer, Cause, Mark};
use local_sessions::{Answered, TakenOwn};
use member_backlog::Uncommitted;
use std::alloc::Global;

impl Moment {
    /// The own transaction of this value conflicts with the one of this GTID. Linear in the sessions.
    pub fn conflict(&mut self, id: ValueId, gtid: Gtid) -> Result<(), Memory>
        ensures { OnOk result (Does (on_conflict id gtid) self.old self.new) }
    {
        match self.tables.conflict(id, gtid) {
            Some(told) => self.tell(told),
            None => Ok(()),
        }
    }

    /// Each hold that has reached its limit ends. Linear in the holds times the sessions.
    pub fn time_out_all(&mut self) -> Result<(), Memory>
        ensures { OnOk result (Does (λ a. for_each time_out (sessions a.life) a) self.old self.new) }
    {
        while let Some((session, limit)) = self.parts.timed_out() {
            self.timed_out(session, limit)?;
        }
        Ok(())
    }

    // The hold of this session, which is over, ends. The parts know it already.
    fn timed_out(&mut self, session: SessionId, limit: u32) -> Result<(), Memory>
        ensures ended { OnOk result ((base : Life) (a : Member) → is_holding (phase a.life session) ≡ true → ButParts base a self.old
            → ButParts base (last_answer session (TimedOut limit) a) self.new) }
        ensures parts { OnOk result (self.new.parts ≡ self.old.parts) }
    {
        if !self.tables.is_held(session) {
            return Ok(());
        }
        let answer = self.tables.timed_out(session, limit);
        self.marks.push(Mark::Answered(session, answer))?;
        Ok(())
    }

    /// The member takes ERROR, and its sessions are answered. Linear in the sessions times what waits to be committed.
    pub fn fall(&mut self, cause: Cause) -> Result<(), Memory>
        ensures { OnOk result (Does (falls cause) self.old self.new) }
    {
        let taken = taken_own(self.alloc, self.parts.backlog().waiting())?;
        let answers = self.tables.fall(&taken)?;
        self.marks.push(Mark::State(MemberState::Error, cause))?;
        self.parts.fail(self.alloc);
        self.tell_all(answers)
    }

    // Transactions and holds end, each with its last answer; the tables know it already.
    fn tell_all(&mut self, answers: Sequence<Answered>) -> Result<(), Memory>
        ensures rest { OnOk result ((base : Life) (a : Member) → RestFor base a self.old → RestFor base (tells answers a) self.new) }
        ensures tables { OnOk result (self.new.tables ≡ self.old.tables) }
    {
        for told in answers.into_vec() {
            self.tell(told)?;
        }
        Ok(())
    }
}

fn taken_own(alloc: Global, waiting: &[Uncommitted]) -> Result<Vec<TakenOwn>, Memory>
    ensures { IfOk result (λ v. v.items ≡ map taken_of waiting.now) }
{
    Ok(
        waiting
            .iter()
            .map(|one| TakenOwn {
                id: one.id,
                gtid: one.gtid,
            })
            .collect(alloc)?,
    )
}
