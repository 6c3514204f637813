// Begins that are held no more.
ghost use Rattle.std.specs.Prelude.{◌≡◌, OnOk, true};
ghost use Rattle.gr_ids.specs.declared.memory.Memory.{Memory};
ghost use Rattle.group_rules.specs.Events.{Life};
ghost use Rattle.group_rules.specs.Member.{Member};
ghost use Rattle.group_rules.specs.Points.{begin_all as begins_all};
ghost use Rattle.group_rules.specs.Sessions.{is_holding, phase};
ghost use Rattle.member_moment.specs.Aside.{ButParts};
ghost use Rattle.member_moment.specs.Beginning.{begins_now};
ghost use Rattle.member_moment.specs.Doing.{Does};

use crate::moment::Moment;
use consistency_waits::Released;
use gr_ids::Memory;
use group_rules::Mark;

impl Moment {
    /// Each held begin whose conditions hold begins. Linear in the holds times what is pending, and in the runs of the executed set for each.
    pub fn begin_all(&mut self) -> Result<(), Memory>
        ensures { OnOk result (Does begins_all self.old self.new) }
    {
        let released = self.parts.release(self.alloc)?;
        for one in released.as_slice() {
            self.begun(one)?;
        }
        Ok(())
    }

    // A held begin is done. The parts know it already.
    fn begun(&mut self, released: &Released) -> Result<(), Memory>
        ensures begun { OnOk result ((base : Life) (a : Member) → is_holding (phase a.life released.now.session) ≡ true → ButParts base a self.old
            → ButParts base (begins_now released.now a) self.new) }
        ensures parts { OnOk result (self.new.parts ≡ self.old.parts) }
    {
        if !self.tables.is_held(released.session) {
            return Ok(());
        }
        let answer = self.tables.begun(released.session, released.sync)?;
        self.marks.push(Mark::Answered(released.session, answer))?;
        Ok(())
    }
}
