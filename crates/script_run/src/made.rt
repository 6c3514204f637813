// How a script that is made comes along.
ghost use Rattle.std.specs.Prelude.{◌≡◌, ◌+◌, ◌^◌, ◌<◌, ◌≤◌, ◌++◌, ℕ, [], List, IfErr, IfOk, IfSome, OnOk};
ghost use Rattle.group_rules.specs.Script.{Play, new_play};
ghost use Rattle.report_text.specs.declared.summary.Verdict.{Verdict};
ghost use Rattle.report_text.specs.Reporting.{report_of};
ghost use Rattle.report_text.specs.Summaries.{summary, verdicts as verdicts_in};
ghost use Rattle.group_world.specs.Standing.{is_refusal as refuses};
ghost use Rattle.script_text.specs.Ranges.{IsStep};
ghost use Rattle.script_run.specs.Making.{step_play, step_said};
ghost use Rattle.script_run.specs.Standing.{IsMadeFault, StandsMade, steps_made};

use gr_ids::{Blob, Memory};
use group_rules::{Said, Step};
use group_world::{World, plays_are_legal};
use report_text::{Verdict, WorldFault, summary_text, verdict_of};
use std::alloc::Global;

/// Puts the verdicts among what is said behind those before.
fn note(verdicts: &mut Vec<Verdict>, said: &[Said]) -> Result<(), Memory>
    ensures { OnOk result (verdicts.new.items ≡ verdicts.old.items ++ verdicts_in said.now) }
{
    for one in said {
        if let Some(verdict) = verdict_of(one) {
            verdicts.push(verdict)?;
        }
    }
    Ok(())
}

/// Whether a step is refused and the world goes on.
fn is_refusal(fault: WorldFault) -> bool
    ensures { result ≡ refuses fault }
{
    !matches!(
        fault,
        WorldFault::WireFull { .. } | WorldFault::Spent { .. } | WorldFault::Memory
    )
}

/// The world of a script that is made, and the verdicts that were said.
#[derive(Drop)]
pub struct Maker {
    world: World,
    verdicts: Vec<Verdict>,
}

impl Maker {
    /// Before the first line.
    pub fn new(alloc: Global) -> Self
        ensures stands { StandsMade result new_play [] }
        ensures steps { steps_made result ≡ 0 }
    {
        plays_are_legal();
        Maker {
            world: World::new(alloc),
            verdicts: Vec::new(alloc),
        }
    }

    /// Does the step of a line. A step that is refused says no verdict; one that passes a limit of the wire isn't done, nor is any more.
    pub fn take(&mut self, step: Option<Step>) -> Result<(), WorldFault>
        requires range { IfSome step IsStep }
        requires room { steps_made self.old < 2 ^ 24 }
        ensures stands { OnOk result ((y : Play) (vs : List Verdict) → StandsMade self.old y vs
            → StandsMade self.new (step_play step y) (vs ++ verdicts_in (step_said step (step_play step y)))) }
        ensures fault { IfErr result (λ e. (y : Play) (vs : List Verdict) → StandsMade self.old y vs → IsMadeFault e (step_play step y)) }
        ensures steps { steps_made self.new ≤ steps_made self.old + 1 }
    {
        plays_are_legal();
        let Some(step) = step else {
            return Ok(());
        };
        match self.world.apply(step) {
            Ok(said) => match note(&mut self.verdicts, said.as_slice()) {
                Ok(()) => Ok(()),
                Err(Memory) => Err(WorldFault::Memory),
            },
            Err(fault) if is_refusal(fault) => Ok(()),
            Err(fault) => Err(fault),
        }
    }

    /// The summary after so many lines.
    pub fn summary(&self, alloc: Global, lines: u64) -> Result<Blob, Memory>
        ensures { IfOk result (λ text. (y : Play) (vs : List Verdict) → StandsMade self.now y vs → text ≡ summary vs (report_of lines y)) }
    {
        let report = self.world.report(alloc, lines)?;
        summary_text(alloc, &self.verdicts, &report)
    }
}
