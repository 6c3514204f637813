// What a joiner that asks is given.
ghost use Rattle.std.specs.Prelude.{◌≡◌, IfErr, IfOk, Some};
ghost use Rattle.gr_ids.specs.declared.names.Inc.{Inc as Member};
ghost use Rattle.group_rules.specs.Events.{Life, Setup};
ghost use Rattle.group_rules.specs.Life.{entry_at};
ghost use Rattle.member_parts.specs.Giving.{IsNotGiven, given_to};
ghost use Rattle.member_parts.specs.Standing.{StandsFor};

use crate::parts::MemberParts;
use donor_recovery::GiveFault;
use paxos_forms::{Ask, Give};
use std::alloc::Global;

impl MemberParts {
    /// What the joiner is given that asks for this place and has this set. Refused exactly where no Add with effect was taken there. Linear
    /// in what is certified and in what is given.
    pub fn give(&self, alloc: Global, ask: &Ask) -> Result<Give, GiveFault>
        ensures given { IfOk result (λ g. (s : Setup) (me : Member) (l : Life) → StandsFor s me l self.now
            → given_to s l ask.now.executed (entry_at l ask.now.place) ≡ Some g) }
        ensures fault { IfErr result (λ e. (s : Setup) (me : Member) (l : Life) → StandsFor s me l self.now
            → IsNotGiven (given_to s l ask.now.executed (entry_at l ask.now.place)) e) }
    {
        self.donor.give(alloc, ask)
    }
}
