// A script as far as it was played.
ghost use Rattle.std.specs.Prelude.{◌≡◌, ◌+◌, ◌^◌, ◌<◌, ◌≤◌, IfOk};
ghost use Rattle.script_text.specs.Ranges.{IsStep};
ghost use Rattle.script_run.specs.Play.{State, report_line, start, step_or_bad};
ghost use Rattle.script_run.specs.Standing.{SaidBy, Stands, steps_done};

use crate::line_text::{LineText, fault_says, refuses, says};
use crate::placing::Placing;
use gr_ids::{Blob, Memory};
use group_rules::Step;
use group_world::{World, plays_are_legal};
use report_text::{report, step_text};
use std::alloc::Global;

/// The world of a script, and which lines stood.
#[derive(Drop)]
pub struct Player {
    world: World,
    placing: Placing,
}

impl Player {
    /// Before the first line.
    pub fn new(alloc: Global) -> Self
        ensures stands { Stands result start }
        ensures steps { steps_done result ≡ 0 }
    {
        plays_are_legal();
        Player {
            world: World::new(alloc),
            placing: Placing::new(),
        }
    }

    /// Does the step of the line with this number. A misplaced line is bad. After want of memory nothing more can be done.
    pub fn apply(&mut self, alloc: Global, number: u64, step: Step) -> Result<LineText, Memory>
        requires range { IsStep step }
        requires room { steps_done self.old < 2 ^ 24 }
        ensures said { (s : State) → Stands self.old s → IfOk result (λ said. SaidBy said self.new (step_or_bad number step s)) }
        ensures steps { steps_done self.new ≤ steps_done self.old + 1 }
    {
        plays_are_legal();
        if self.placing.is_misplaced(&step) {
            return refuses(alloc, number);
        }
        self.placing = self.placing.with_line(&step);
        match self.world.apply(step) {
            Ok(said) => Ok(says(step_text(alloc, number, said.as_slice())?)),
            Err(fault) => fault_says(alloc, number, fault),
        }
    }

    /// The line of the report after so many lines.
    pub fn report(&self, alloc: Global, lines: u64) -> Result<Blob, Memory>
        ensures { (s : State) → Stands self.now s → IfOk result (λ text. text ≡ report_line lines s.play) }
    {
        let world = self.world.report(alloc, lines)?;
        let mut text = report(alloc, &world)?;
        text.append(b"\n")?;
        Ok(text)
    }
}
