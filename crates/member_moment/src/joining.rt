// How a joiner asks for what it lacks.
ghost use Rattle.std.specs.Prelude.{◌≡◌, OnOk, is_some, nat_le, true};
ghost use Rattle.name_forms.specs.Incs.{IsInc};
ghost use Rattle.group_rules.specs.Events.{AskFails, Life};
ghost use Rattle.group_rules.specs.Member.{Member, push};
ghost use Rattle.group_rules.specs.Recovery.{failures, is_ask_due as is_due, pending_ask as pending};
ghost use Rattle.member_moment.specs.Doing.{Does, DoesIf};
ghost use Rattle.member_moment.specs.Joining.{asks_of};
ghost use Rattle.member_moment.specs.Standing.{Stands};

use crate::moment::Moment;
use donor_recovery::{AskFault, RecoveryFault};
use gr_ids::{Inc, Memory};
use group_rules::{Mark, Reply};
use paxos_forms::Wire;

impl Moment {
    /// Whether a donor may be asked.
    pub fn is_ask_due(&self) -> bool
        ensures { (base : Life) (a : Member) → Stands base a self.now → result ≡ is_due a }
    {
        self.joining.is_ask_due(self.state())
    }

    /// The donor that is asked.
    pub fn pending_ask(&self) -> Option<Inc>
        ensures { (base : Life) (a : Member) → Stands base a self.now → result ≡ pending a.life }
    {
        self.joining.pending()
    }

    /// A donor is asked, where an ask is due: that is replied, and the ask is sent, unless it is this incarnation itself. Linear in the runs
    /// of the executed set.
    pub fn ask(&mut self, donor: Inc) -> Result<(), Memory>
        requires { IsInc donor }
        ensures { OnOk result (DoesIf (λ a. is_due a ≡ true) (asks_of donor) self.old self.new) }
    {
        let ask = match self.joining.ask(self.alloc, donor) {
            Ok(ask) => ask,
            Err(AskFault::NoAskDue) => return Ok(()),
            Err(AskFault::Memory) => return Err(Memory),
        };
        self.marks.push(Mark::Replied(Reply::Asked(donor)))?;
        if donor == self.me.inc {
            return Ok(());
        }
        self.send(donor, Wire::Ask(ask))
    }

    /// The pending ask fails. Answers whether it was the last one that may. Takes no memory.
    pub fn ask_fails(&mut self) -> bool
        ensures last { (base : Life) (a : Member) → is_some (pending a.life) ≡ true → Stands base a self.old → result ≡ nat_le 10 (failures (push AskFails a).life) }
        ensures failed { DoesIf (λ a. is_some (pending a.life) ≡ true) (push AskFails) self.old self.new }
    {
        match self.joining.failed() {
            Err(RecoveryFault::NoDonor { tries: _ }) => true,
            _ => false,
        }
    }
}
