// The lines of a script.
ghost use Rattle.std.specs.Prelude.{◌≡◌, ◌≤◌, IfOk, Some, None, Err};
ghost use Rattle.script_text.specs.declared.line.LineFault.TheVariants.{BadLine};
ghost use Rattle.script_text.specs.Words.{words_of};
ghost use Rattle.script_text.specs.Grammar.{call_of, line_by, line_of, step_of};
ghost use Rattle.script_text.specs.Ranges.{IsInRange};

use crate::founding::read_setting;
use crate::line::{Line, LineFault};
use crate::looks::read_look;
use crate::moves::{read_pace, read_power, read_wire};
use crate::operators::read_operator;
use crate::sessions::{read_once, read_session};
use crate::words::{first_named, is_word};
use gr_ids::Memory;
use group_rules::Step;
use std::alloc::Global;

/// A call of a session: the name of the line with this number, and what stands behind it.
#[tactic(auto, unfolding(crate::specs::Grammar::call_of))]
fn read_call(alloc: Global, number: u64, name: &[u8], line: &[u8]) -> Result<Option<Step>, Memory>
    requires { number ≤ 1000000 }
    ensures { IfOk result (λ step. step ≡ call_of number name.now (words_of line.now)) }
{
    if is_word(name, "once") {
        return read_once(alloc, number, line);
    }
    read_session(alloc, name, line)
}

/// The step of the line with this number, by its name and what stands behind it: that of the one form that has the name.
#[tactic(auto, unfolding(crate::specs::Grammar::step_of))]
fn read_step(alloc: Global, number: u64, name: &[u8], line: &[u8]) -> Result<Option<Step>, Memory>
    requires { number ≤ 1000000 }
    ensures { IfOk result (λ step. step ≡ step_of number name.now (words_of line.now)) }
{
    if let Some(step) = read_call(alloc, number, name, line)? {
        return Ok(Some(step));
    }
    if let Some(step) = read_setting(alloc, name, line)? {
        return Ok(Some(step));
    }
    if let Some(step) = read_operator(name, line) {
        return Ok(Some(step));
    }
    if let Some(step) = read_wire(alloc, name, line)? {
        return Ok(Some(step));
    }
    if let Some(step) = read_pace(name, line) {
        return Ok(Some(step));
    }
    if let Some(step) = read_power(alloc, name, line)? {
        return Ok(Some(step));
    }
    Ok(read_look(name, line))
}

/// The line with this number, where it is in the grammar.
#[tactic(auto, unfolding(crate::specs::Grammar::line_of))]
fn read_line(alloc: Global, line: &[u8], number: u64) -> Result<Option<Line>, Memory>
    requires { number ≤ 1000000 }
    ensures { IfOk result (λ read. read ≡ line_of number line.now) }
{
    let Some((name, rest)) = first_named(line) else {
        return Ok(Some(Line { number, step: None }));
    };
    let Some(step) = read_step(alloc, number, name, rest)? else {
        return Ok(None);
    };
    Ok(Some(Line {
        number,
        step: Some(step),
    }))
}

/// Reads the line with this number, 1 to 1,000,000, without its end. It is a `BadLine` exactly where the line isn't in the grammar.
/// Whether a line stands where it may is for the caller to say. Linear in the line.
pub fn parse_line(alloc: Global, line: &[u8], number: u64) -> Result<Line, LineFault>
    requires first { 1 ≤ number }
    requires last { number ≤ 1000000 }
    ensures line { IfOk result (λ read. line_of number line.now ≡ Some read) }
    ensures range { IfOk result (λ read. IsInRange read) }
    ensures bad { result ≡ Err BadLine → line_of number line.now ≡ None }
{
    match read_line(alloc, line, number) {
        Ok(Some(line)) => Ok(line),
        Ok(None) => Err(LineFault::BadLine),
        Err(Memory) => Err(LineFault::Memory),
    }
}
