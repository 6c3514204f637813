// The calls of sessions.
ghost use Rattle.std.specs.Prelude.{◌≡◌, ◌≤◌, IfOk};
ghost use Rattle.std.specs.Option.{option_map};
ghost use Rattle.script_text.specs.Words.{words_of};
ghost use Rattle.script_text.specs.Sessions.{begin_of, first_session, once_of, request_of, session_of};

use crate::names::read_level;
use crate::numbers::{next_number, read_number_in};
use crate::rows::{read_change, read_item, read_row};
use crate::servers::next_server;
use crate::words::{has_no_word, is_word, next_word, two_words};
use gr_ids::{Memory, SessionId};
use group_rules::{Request, Step};
use std::alloc::Global;

/// The session of `once` on line n is this number plus n.
const ONCE_SESSIONS: u32 = 1_000_000_000;

/// A begin, without its name: LEVEL WAIT.
#[tactic(auto, unfolding(crate::specs::Sessions::begin_of))]
fn read_begin(line: &[u8]) -> Option<Request>
    ensures { result ≡ begin_of (words_of line.now) }
{
    let (level, wait) = two_words(line)?;
    let level = read_level(level)?;
    let wait = read_number_in(wait, 1, 1_000_000)?;
    Some(Request::Begin(level, wait as u32))
}

/// A session call, its name and what stands behind N and S.
#[tactic(auto, unfolding(crate::specs::Sessions::request_of))]
pub fn read_request(alloc: Global, name: &[u8], line: &[u8]) -> Result<Option<Request>, Memory>
    ensures { IfOk result (λ request. request ≡ request_of name.now (words_of line.now)) }
{
    if is_word(name, "begin") {
        return Ok(read_begin(line));
    }
    if is_word(name, "get") {
        let item = read_item(alloc, line)?;
        return Ok(item.map(Request::Get));
    }
    if is_word(name, "insert") {
        let row = read_row(alloc, line)?;
        return Ok(row.map(|row| Request::Insert(row.item, row.value)));
    }
    if is_word(name, "update") {
        let row = read_row(alloc, line)?;
        return Ok(row.map(|row| Request::Update(row.item, row.value)));
    }
    if is_word(name, "delete") {
        let item = read_item(alloc, line)?;
        return Ok(item.map(Request::Delete));
    }
    if is_word(name, "commit") {
        return Ok(has_no_word(line).then_some(Request::Commit));
    }
    if is_word(name, "rollback") {
        return Ok(has_no_word(line).then_some(Request::Rollback));
    }
    Ok(None)
}

/// A session's number, and what stands behind it.
pub fn next_session(line: &[u8]) -> Option<(SessionId, &[u8])>
    ensures { option_map (λ found. (found.0, words_of found.1.now)) result ≡ first_session (words_of line.now) }
{
    let (session, rest) = next_number(line, 1, 999_999_999)?;
    Some((SessionId(session as u32), rest))
}

/// A session call: its name and what stands behind it.
#[tactic(auto, unfolding(crate::specs::Sessions::session_of))]
pub fn read_session(alloc: Global, name: &[u8], line: &[u8]) -> Result<Option<Step>, Memory>
    ensures { IfOk result (λ step. step ≡ session_of name.now (words_of line.now)) }
{
    let Some((server, rest)) = next_server(line) else {
        return Ok(None);
    };
    let Some((session, rest)) = next_session(rest) else {
        return Ok(None);
    };
    let Some(what) = read_request(alloc, name, rest)? else {
        return Ok(None);
    };
    Ok(Some(Step::Session {
        server,
        session,
        what,
    }))
}

/// A `once` on the line with this number: what stands behind its name.
#[tactic(auto, unfolding(crate::specs::Sessions::once_of))]
pub fn read_once(alloc: Global, number: u64, line: &[u8]) -> Result<Option<Step>, Memory>
    requires { number ≤ 1000000 }
    ensures { IfOk result (λ step. step ≡ once_of number (words_of line.now)) }
{
    let Some((server, rest)) = next_server(line) else {
        return Ok(None);
    };
    let Some((name, rest)) = next_word(rest) else {
        return Ok(None);
    };
    let Some(change) = read_change(alloc, name, rest)? else {
        return Ok(None);
    };
    Ok(Some(Step::Once {
        server,
        session: SessionId(ONCE_SESSIONS + number as u32),
        change,
    }))
}
