// The world of a script.
ghost use Rattle.std.specs.Prelude.{◌≡◌, ◌+◌, ◌^◌, ◌≤◌, true, Err, None, Some, IfErr, IfOk, OnOk};
ghost use Rattle.group_rules.specs.Script.{Play, apply, new_play};
ghost use Rattle.report_text.specs.Reporting.{report_of};
ghost use Rattle.report_text.specs.declared.fault.WorldFault.{WorldFault as Fault};
ghost use Rattle.report_text.specs.declared.fault.WorldFault.TheVariants.{Spent};
ghost use Rattle.script_text.specs.Ranges.{IsStep};
ghost use Rattle.group_world.specs.Standing.{IsFault, IsSaid, IsWorld, fault_as, fault_of, is_last, is_refusal, is_spent, steps_of};

use crate::stage::Stage;
use gr_ids::{Memory, Sequence};
use group_rules::{Said, Step};
use report_text::{WorldFault, WorldReport};
use std::alloc::Global;
use world_wire::WireFault;

/// More steps than a script has lines.
const MOST_STEPS: u64 = 1 << 24;

/// The servers of a script, their members, and the messages sent.
#[derive(Drop)]
pub struct World {
    stage: Stage,
    steps: u64,
    // What every further step is answered.
    fault: Option<WireFault>,
}

impl World {
    /// The world before any step; takes no memory.
    pub fn new(alloc: Global) -> World
        ensures world { IsWorld new_play result }
        ensures steps { steps_of result ≡ 0 }
    {
        World {
            stage: Stage::new(alloc),
            steps: 0,
            fault: None,
        }
    }

    /// Does a step of a script, and tells what it says. A step that is refused changes nothing. Where a member's step would bring the messages sent above their
    /// limits, and after want of memory, the world is closed: every further step is answered the same. So is every step after 2^24 of them.
    pub fn apply(&mut self, step: Step) -> Result<Sequence<Said>, WorldFault>
        requires { IsStep step }
        ensures said { IfOk result (λ said. (y : Play) → IsWorld y self.old → IsSaid said (apply step y)) }
        ensures stands { OnOk result ((y : Play) → IsWorld y self.old → IsWorld (apply step y) self.new) }
        ensures fault { IfErr result (λ e. (y : Play) → IsWorld y self.old → IsFault e (apply step y)) }
        ensures refused { IfErr result (λ e. is_refusal e ≡ true → (y : Play) → IsWorld y self.old → IsWorld (apply step y) self.new) }
        ensures spent { IfErr result (λ e. is_spent e ≡ true → 2 ^ 24 ≤ steps_of self.old) }
        ensures steps { steps_of self.new ≤ steps_of self.old + 1 }
        ensures closes { IfErr result (λ e. is_last e ≡ true → fault_of self.new ≡ Some e) }
        ensures closed { (e : Fault) → fault_of self.old ≡ Some e → (result ≡ Err e) × (fault_of self.new ≡ Some e) }
        ensures too_many { fault_of self.old ≡ None → 2 ^ 24 ≤ steps_of self.old → result ≡ Err (Spent (steps_of self.old)) }
    {
        if let Some(fault) = self.fault {
            return Err(world_fault(fault));
        }
        if self.steps >= MOST_STEPS {
            return Err(WorldFault::Spent { steps: self.steps });
        }
        self.steps += 1;
        if let Some(fault) = self.stage.refusal(&step) {
            return Err(fault);
        }
        if let Err(fault) = self.stage.does(step) {
            self.fault = Some(fault);
            return Err(world_fault(fault));
        }
        Ok(Sequence::from_vec(self.stage.take_said()))
    }

    /// What a report tells of the world after so many lines of a script.
    pub fn report(&self, alloc: Global, lines: u64) -> Result<WorldReport, Memory>
        ensures { IfOk result (λ r. (y : Play) → IsWorld y self.now → r ≡ report_of lines y) }
    {
        Ok(WorldReport {
            lines,
            members: self.stage.sites.reports(alloc)?,
            messages: self.stage.wire.sent(),
        })
    }
}

fn world_fault(fault: WireFault) -> WorldFault
    ensures { result ≡ fault_as fault }
{
    match fault {
        WireFault::Full { messages, bytes } => WorldFault::WireFull { messages, bytes },
        WireFault::Memory => WorldFault::Memory,
    }
}
