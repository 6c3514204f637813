// The lines of a scenario.
ghost use Rattle.std.specs.Prelude.{◌≡◌, ◌≤◌, IfOk, Some, None, Err};
ghost use Rattle.script_text.specs.declared.line.LineFault.TheVariants.{BadLine};
ghost use Rattle.script_text.specs.Words.{named_words, words_of};
ghost use Rattle.script_text.specs.Scenes.{act_of, acted_of, opened_of, scene_by, scene_of, scene_step_of};

use crate::founding::{read_declaration, read_found};
use crate::line::LineFault;
use crate::numbers::read_number_in;
use crate::operators::read_action;
use crate::scene::{Scene, SceneStep};
use crate::servers::only_server;
use crate::sessions::{next_session, read_request};
use crate::words::{first_named, is_word, next_word};
use gr_ids::{Memory, SessionId};
use std::alloc::Global;

/// The opening of a session, without its name: S N.
#[tactic(auto, unfolding(crate::specs::Scenes::opened_of))]
fn read_opening(line: &[u8]) -> Option<SceneStep>
    ensures { result ≡ opened_of (words_of line.now) }
{
    let Some((session, rest)) = next_session(line) else {
        return None;
    };
    let server = only_server(rest)?;
    Some(SceneStep::Session(session, server))
}

/// A call or an action of a session: its name, and what stands behind it.
#[tactic(auto, unfolding(crate::specs::Scenes::act_of))]
fn read_act(
    alloc: Global,
    session: SessionId,
    name: &[u8],
    line: &[u8],
) -> Result<Option<SceneStep>, Memory>
    ensures { IfOk result (λ step. step ≡ act_of session name.now (words_of line.now)) }
{
    if let Some(request) = read_request(alloc, name, line)? {
        return Ok(Some(SceneStep::Call(session, request)));
    }
    Ok(read_action(name, line).map(|action| SceneStep::Operate(session, action)))
}

/// A line that begins with the number of a session: that word, and what stands behind it.
#[tactic(auto, unfolding(crate::specs::Scenes::acted_of))]
fn read_acted(alloc: Global, session: &[u8], line: &[u8]) -> Result<Option<SceneStep>, Memory>
    ensures { IfOk result (λ step. step ≡ acted_of session.now (words_of line.now)) }
{
    let Some(session) = read_number_in(session, 1, 999_999_999) else {
        return Ok(None);
    };
    let Some((name, rest)) = next_word(line) else {
        return Ok(None);
    };
    read_act(alloc, SessionId(session as u32), name, rest)
}

/// What a line says, by its first word and what stands behind it.
#[tactic(auto, unfolding(crate::specs::Scenes::scene_step_of))]
fn read_scene_step(alloc: Global, name: &[u8], line: &[u8]) -> Result<Option<SceneStep>, Memory>
    ensures { IfOk result (λ step. step ≡ scene_step_of name.now (words_of line.now)) }
{
    if is_word(name, "server") {
        let step = read_declaration(alloc, line)?;
        return Ok(step.map(SceneStep::Step));
    }
    if is_word(name, "found") {
        let step = read_found(alloc, line)?;
        return Ok(step.map(SceneStep::Step));
    }
    if is_word(name, "session") {
        return Ok(read_opening(line));
    }
    read_acted(alloc, name, line)
}

/// What a line says, where it is in the grammar.
fn read_scene(alloc: Global, line: &[u8]) -> Result<Option<SceneStep>, Memory>
    ensures { IfOk result (λ step. step ≡ scene_by (named_words line.now)) }
{
    let Some((name, rest)) = first_named(line) else {
        return Ok(Some(SceneStep::Comment));
    };
    read_scene_step(alloc, name, rest)
}

/// Reads the line of a scenario with this number, 1 to 1,000,000, without its end. It is a `BadLine` exactly where the line isn't in the
/// grammar. Whether a line stands where it may, and its session is declared, is for the caller to say. Linear in the line.
#[tactic(auto, unfolding(crate::specs::Scenes::scene_of))]
pub fn parse_scene(alloc: Global, line: &[u8], number: u64) -> Result<Scene, LineFault>
    requires first { 1 ≤ number }
    requires last { number ≤ 1000000 }
    ensures scene { IfOk result (λ read. scene_of number line.now ≡ Some read) }
    ensures bad { result ≡ Err BadLine → scene_of number line.now ≡ None }
{
    match read_scene(alloc, line) {
        Ok(Some(what)) => Ok(Scene { number, what }),
        Ok(None) => Err(LineFault::BadLine),
        Err(Memory) => Err(LineFault::Memory),
    }
}
