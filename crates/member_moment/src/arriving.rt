// Events that come.
ghost use Rattle.std.specs.Prelude.{◌≡◌, ◌<◌, ◌^◌, OnOk, true};
ghost use Rattle.gr_ids.specs.declared.memory.Memory.{Memory};
ghost use Rattle.paxos_forms.specs.declared.message.Message.{Message};
ghost use Rattle.group_rules.specs.Events.{Came, Event, Hears, Life, Ticks};
ghost use Rattle.group_rules.specs.Member.{Member, push};
ghost use Rattle.member_moment.specs.declared.moment.Moment.{Moment as AnyMoment};
ghost use Rattle.member_moment.specs.Arriving.{is_untold};
ghost use Rattle.member_moment.specs.Doing.{Does};
ghost use Rattle.member_moment.specs.Standing.{Stands};

use crate::moment::Moment;
use gr_ids::{Inc, Memory};

// The ticks of a member, fewer than its events.
const MOST_TICKS: u64 = 1_125_899_906_842_624;

impl Moment {
    /// A message came from this incarnation.
    pub fn heard(&mut self, from: Inc)
        ensures { (m : Message) → m.from ≡ from → Does (push (Came (Hears m))) self.old self.new }
    {
        self.parts.heard(from);
    }

    /// One tick passes. Refused as want of memory from 2^50 on.
    pub fn ticked(&mut self) -> Result<(), Memory>
        ensures { OnOk result (Does (push (Came Ticks)) self.old self.new) }
    {
        if self.own.ticks() >= MOST_TICKS {
            return Err(Memory);
        }
        self.own.tick();
        self.parts.tick();
        Ok(())
    }
}

/// A worker's result, a call and an operator's action change nothing by coming.
pub fn some_events_come_untold()
    ensures { (base : Life) (a : Member) (e : Event) (x : AnyMoment) → is_untold e ≡ true → Stands base a x → Stands base (push (Came e) a) x }
{}
