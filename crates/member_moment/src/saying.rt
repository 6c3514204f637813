// What is said and changes nothing: answers, replies, skipped slots, Gives that come.
ghost use Rattle.std.specs.Prelude.{◌≡◌, OnOk, false};
ghost use Rattle.gr_ids.specs.declared.memory.Memory.{Memory};
ghost use Rattle.slot_values.specs.declared.value.Value.{Value};
ghost use Rattle.group_rules.specs.Events.{Gave, Life, Replied, Skips};
ghost use Rattle.group_rules.specs.Member.{Member, answer as answered, last_answer, push};
ghost use Rattle.member_moment.specs.Doing.{Does};
ghost use Rattle.member_moment.specs.Saying.{asks_a_donor};
ghost use Rattle.member_moment.specs.Standing.{RestFor};

use crate::moment::Moment;
use gr_ids::{Memory, Pos, SessionId, ValueId};
use group_rules::{Answer, Mark, Reply};
use local_sessions::Answered;

impl Moment {
    /// A session call is answered.
    pub fn answer(&mut self, session: SessionId, answer: Answer) -> Result<(), Memory>
        ensures { OnOk result (Does (answered session answer) self.old self.new) }
    {
        self.marks.push(Mark::Answered(session, answer))?;
        Ok(())
    }

    /// An operator's action or a worker's result is answered, other than by the asking of a donor.
    pub fn reply(&mut self, reply: Reply) -> Result<(), Memory>
        requires { asks_a_donor reply ≡ false }
        ensures { OnOk result (Does (push (Replied reply)) self.old self.new) }
    {
        self.marks.push(Mark::Replied(reply))?;
        Ok(())
    }

    /// The value of a slot isn't kept.
    pub fn skip(&mut self, slot: u64, id: ValueId) -> Result<(), Memory>
        ensures { OnOk result ((v : Value) → v.id ≡ id → Does (push (Skips slot v)) self.old self.new) }
    {
        self.marks.push(Mark::Skipped(slot, id))?;
        Ok(())
    }

    /// A donor's Give for this place came, with so many transactions.
    pub fn gave(&mut self, place: Pos, count: u64) -> Result<(), Memory>
        ensures others { OnOk result (self.new ≡ record self.old { marks = self.new.marks }) }
        ensures does { OnOk result (Does (push (Gave place count)) self.old self.new) }
    {
        self.marks.push(Mark::Given(place, count))?;
        Ok(())
    }

    // A transaction or a hold ends with its last answer; the tables know it already.
    pub(crate) fn tell(&mut self, told: Answered) -> Result<(), Memory>
        ensures rest { OnOk result ((base : Life) (a : Member) → RestFor base a self.old → RestFor base (last_answer told.session told.answer a) self.new) }
        ensures tables { OnOk result (self.new.tables ≡ self.old.tables) }
    {
        self.marks.push(Mark::Answered(told.session, told.answer))?;
        self.parts.end_hold(told.session);
        Ok(())
    }
}
