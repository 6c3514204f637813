// What happens to messages, workers, clocks and servers.
ghost use Rattle.std.specs.Prelude.{◌≡◌, IfOk};
ghost use Rattle.script_text.specs.Words.{words_of};
ghost use Rattle.script_text.specs.Moves.{only_count as the_count, wire_of, worked_of, ticked_of, pace_of, started_of, offline_of, power_of};

use crate::numbers::{number_or_none, only_number};
use crate::rows::read_row;
use crate::servers::{next_server, only_server, read_servers};
use crate::words::{has_no_word, is_word};
use gr_ids::{Memory, Pos};
use group_rules::Step;
use std::alloc::Global;

/// The count from 1 that is all of a line.
fn only_count(line: &[u8]) -> Option<u64>
    ensures { result ≡ the_count (words_of line.now) }
{
    only_number(line, 1, u64::MAX)
}

/// A line about messages: its name and what stands behind it.
#[tactic(auto, unfolding(crate::specs::Moves::wire_of))]
pub fn read_wire(alloc: Global, name: &[u8], line: &[u8]) -> Result<Option<Step>, Memory>
    ensures { IfOk result (λ step. step ≡ wire_of name.now (words_of line.now)) }
{
    if is_word(name, "deliver") {
        return Ok(only_count(line).map(|k| Step::Deliver { k }));
    }
    if is_word(name, "lose") {
        return Ok(only_count(line).map(|k| Step::Lose { k }));
    }
    if is_word(name, "settle") {
        let servers = read_servers(alloc, line)?;
        return Ok(servers.map(|servers| Step::Settle { servers }));
    }
    Ok(None)
}

/// Work, without its name: N, or N P.
#[tactic(auto, unfolding(crate::specs::Moves::worked_of))]
fn read_work(line: &[u8]) -> Option<Step>
    ensures { result ≡ worked_of (words_of line.now) }
{
    let (server, rest) = next_server(line)?;
    let place = number_or_none(rest, 1, u64::MAX)?;
    Some(Step::Work {
        server,
        place: place.map(|place| Pos(place)),
    })
}

/// Ticks, without their name: N, or N COUNT.
#[tactic(auto, unfolding(crate::specs::Moves::ticked_of))]
fn read_tick(line: &[u8]) -> Option<Step>
    ensures { result ≡ ticked_of (words_of line.now) }
{
    let (server, rest) = next_server(line)?;
    let count = number_or_none(rest, 1, 10_000)?;
    Some(Step::Tick {
        server,
        count: count.unwrap_or(1) as u32,
    })
}

/// A line about workers and clocks: its name and what stands behind it.
#[tactic(auto, unfolding(crate::specs::Moves::pace_of))]
pub fn read_pace(name: &[u8], line: &[u8]) -> Option<Step>
    ensures { result ≡ pace_of name.now (words_of line.now) }
{
    if is_word(name, "work") {
        return read_work(line);
    }
    if is_word(name, "drain") {
        return has_no_word(line).then_some(Step::Drain);
    }
    if is_word(name, "tick") {
        return read_tick(line);
    }
    None
}

/// A start, without its name: N VIA.
#[tactic(auto, unfolding(crate::specs::Moves::started_of))]
fn read_start(line: &[u8]) -> Option<Step>
    ensures { result ≡ started_of (words_of line.now) }
{
    let (server, rest) = next_server(line)?;
    let via = only_server(rest)?;
    Some(Step::Start { server, via })
}

/// A write at a server that doesn't run, without its name: N TABLE KEY VALUE.
#[tactic(auto, unfolding(crate::specs::Moves::offline_of))]
fn read_offline(alloc: Global, line: &[u8]) -> Result<Option<Step>, Memory>
    ensures { IfOk result (λ step. step ≡ offline_of (words_of line.now)) }
{
    let Some((server, rest)) = next_server(line) else {
        return Ok(None);
    };
    let Some(row) = read_row(alloc, rest)? else {
        return Ok(None);
    };
    Ok(Some(Step::Offline {
        server,
        item: row.item,
        value: row.value,
    }))
}

/// A line about servers: its name and what stands behind it.
#[tactic(auto, unfolding(crate::specs::Moves::power_of))]
pub fn read_power(alloc: Global, name: &[u8], line: &[u8]) -> Result<Option<Step>, Memory>
    ensures { IfOk result (λ step. step ≡ power_of name.now (words_of line.now)) }
{
    if is_word(name, "start") {
        return Ok(read_start(line));
    }
    if is_word(name, "stop") {
        return Ok(only_server(line).map(|server| Step::Stop { server }));
    }
    if is_word(name, "offline") {
        return read_offline(alloc, line);
    }
    Ok(None)
}
