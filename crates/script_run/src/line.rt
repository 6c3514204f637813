// What one line does.
ghost use Rattle.std.specs.Prelude.{◌≡◌, ◌+◌, ◌^◌, ◌<◌, ◌≤◌, IfOk, IfSome};
ghost use Rattle.script_text.specs.Ranges.{IsStep};
ghost use Rattle.script_run.specs.Play.{State, line_step, step_done};
ghost use Rattle.script_run.specs.Standing.{SaidBy, Stands, steps_done};

use crate::limits::{LINE_LIMIT, LINES_LIMIT};
use crate::line_text::{LineText, passes, refuses, says};
use crate::player::Player;
use gr_ids::{Blob, Memory};
use group_rules::Step;
use report_text::line_text;
use script_text::{LineFault, parse_line};
use std::alloc::Global;

/// Does the step of a line; a comment has none.
fn take_step(
    alloc: Global,
    player: &mut Player,
    number: u64,
    step: Option<Step>,
) -> Result<LineText, Memory>
    requires range { IfSome step IsStep }
    requires room { steps_done player.old < 2 ^ 24 }
    ensures said { (s : State) → Stands player.old s → IfOk result (λ said. SaidBy said player.new (step_done number step s)) }
    ensures steps { steps_done player.new ≤ steps_done player.old + 1 }
{
    match step {
        None => Ok(says(Blob::from_vec(Vec::new(alloc)))),
        Some(step) => player.apply(alloc, number, step),
    }
}

/// Does a line: the limits first, then the grammar, then where it stands, then the step. After want of memory nothing more can be done.
#[tactic(auto, unfolding(crate::specs::Play::line_step))]
pub fn take_line(
    alloc: Global,
    player: &mut Player,
    number: u64,
    line: &[u8],
) -> Result<LineText, Memory>
    requires first { 1 ≤ number }
    requires room { steps_done player.old < 2 ^ 24 }
    ensures said { (s : State) → Stands player.old s → IfOk result (λ said. SaidBy said player.new (line_step s number line.now)) }
    ensures steps { steps_done player.new ≤ steps_done player.old + 1 }
{
    if number > LINES_LIMIT {
        return Ok(passes(line_text(alloc, number, b"limit lines 1000000")?));
    }
    if line.len() > LINE_LIMIT {
        return Ok(passes(line_text(alloc, number, b"limit line 65536")?));
    }
    match parse_line(alloc, line, number) {
        Ok(line) => take_step(alloc, player, number, line.step),
        Err(LineFault::BadLine) => refuses(alloc, number),
        Err(LineFault::Memory) => Err(Memory),
    }
}
