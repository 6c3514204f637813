// What a member sends by its ticks.
ghost use Rattle.std.specs.Prelude.{◌≡◌, ◌==◌, ◌%◌, ◌&&◌, OnOk};
ghost use Rattle.gr_ids.specs.declared.memory.Memory.{Memory};
ghost use Rattle.paxos_forms.specs.declared.message.Wire.TheVariants.{Offer};
ghost use Rattle.group_rules.specs.Events.{Life};
ghost use Rattle.group_rules.specs.Life.{is_up, state as state_of, ticks};
ghost use Rattle.group_rules.specs.Member.{Member, send as sends};
ghost use Rattle.group_rules.specs.Steps.{add_of};
ghost use Rattle.member_moment.specs.Doing.{Does};
ghost use Rattle.member_moment.specs.Standing.{Stands};

use crate::moment::Moment;
use gr_ids::{Memory, ValueId};
use member_ranges::what_members_send_is_spelt;
use paxos_forms::Wire;
use slot_values::{Value, What};

impl Moment {
    /// A joiner sends its Add, without a number, to its contact.
    pub fn offer_add(&mut self) -> Result<(), Memory>
        ensures { OnOk result (Does (λ a. sends a.contact (Offer (add_of a.me)) a) self.old self.new) }
    {
        what_members_send_is_spelt();
        let id = ValueId {
            origin: self.me.inc,
            number: 0,
        };
        let what = What::Add(self.me);
        self.send(self.contact, Wire::Offer(Value { id, what }))
    }

    /// Whether it tells what it has executed: at each 60th tick, while it is ONLINE.
    pub fn is_telling(&self) -> bool
        ensures { (base : Life) (a : Member) → Stands base a self.now → result ≡ (((ticks a.life % 60) == 0) && is_up (state_of a.life)) }
    {
        let is_due = self.own.ticks() % 60 == 0;
        is_due && self.is_up()
    }
}
