// The declaration of servers, and the founding of the group.
ghost use Rattle.std.specs.Prelude.{◌≡◌, IfOk};
ghost use Rattle.std.specs.Option.{option_map};
ghost use Rattle.script_text.specs.Words.{words_of};
ghost use Rattle.script_text.specs.Founding.{block_of, declared_of, first_group, first_limits, found_of, founders_of, is_founding, setting_of};

use crate::names::read_mode;
use crate::numbers::{next_number, only_number};
use crate::servers::{are_distinct, read_server, read_servers};
use crate::words::{four_words, is_word, next_word};
use gr_ids::{Memory, Mode, Sequence, read_uuid};
use group_rules::Step;
use primary_election::{VersionFault, read_version, read_weight};
use std::alloc::Global;

/// The declaration of a server, without its name: N UUID VERSION WEIGHT.
#[tactic(auto, unfolding(crate::specs::Founding::declared_of))]
pub fn read_declaration(alloc: Global, line: &[u8]) -> Result<Option<Step>, Memory>
    ensures { IfOk result (λ step. step ≡ declared_of (words_of line.now)) }
{
    let Some((server, uuid, version, weight)) = four_words(line) else {
        return Ok(None);
    };
    let Some(number) = read_server(server) else {
        return Ok(None);
    };
    let Ok(uuid) = read_uuid(uuid) else {
        return Ok(None);
    };
    let version = match read_version(alloc, version) {
        Ok(version) => version,
        Err(VersionFault::BadVersion) => return Ok(None),
        Err(VersionFault::Memory) => return Err(Memory),
    };
    let Ok(weight) = read_weight(weight) else {
        return Ok(None);
    };
    Ok(Some(Step::Server {
        number,
        uuid,
        version,
        weight,
    }))
}

/// The founders that are all of a line: 1 to 9 distinct servers.
#[tactic(auto, unfolding(crate::specs::Founding::founders_of))]
fn read_founders(alloc: Global, line: &[u8]) -> Result<Option<Sequence<u8>>, Memory>
    ensures { IfOk result (λ servers. servers ≡ founders_of (words_of line.now)) }
{
    let Some(servers) = read_servers(alloc, line)? else {
        return Ok(None);
    };
    if !is_founding_list(servers.as_slice()) {
        return Ok(None);
    }
    Ok(Some(servers))
}

fn is_founding_list(servers: &[u8]) -> bool
    ensures { result ≡ is_founding servers.now }
{
    if servers.is_empty() || servers.len() > 9 {
        return false;
    }
    are_distinct(servers)
}

/// The limits in a `found` line, and what stands behind them.
#[derive(Clone, Copy)]
struct LimitWords<'a> {
    horizon: u16,
    expel: u32,
    majority: u32,
    rest: &'a [u8],
}

/// HORIZON EXPEL MAJORITY, and what stands behind them.
#[tactic(auto, unfolding(crate::specs::Founding::first_limits))]
fn next_limits(line: &[u8]) -> Option<LimitWords<'_>>
    ensures { option_map (λ w. (w.horizon, w.expel, w.majority, words_of w.rest.now)) result ≡ first_limits (words_of line.now) }
{
    let (horizon, rest) = next_number(line, 10, 200)?;
    let (expel, rest) = next_number(rest, 0, 3600)?;
    let (majority, rest) = next_number(rest, 0, 1_000_000)?;
    Some(LimitWords {
        horizon: horizon as u16,
        expel: expel as u32,
        majority: majority as u32,
        rest,
    })
}

/// The group and the mode in a `found` line, and what stands behind them.
#[derive(Clone, Copy)]
struct GroupWords<'a> {
    group: [u8; 16],
    mode: Mode,
    rest: &'a [u8],
}

/// UUID MODE, and what stands behind them.
#[tactic(auto, unfolding(crate::specs::Founding::first_group))]
fn next_group(line: &[u8]) -> Option<GroupWords<'_>>
    ensures { option_map (λ w. (w.group, w.mode, words_of w.rest.now)) result ≡ first_group (words_of line.now) }
{
    let (uuid, rest) = next_word(line)?;
    let group = read_uuid(uuid).ok()?;
    let (mode, rest) = next_word(rest)?;
    let mode = read_mode(mode)?;
    Some(GroupWords { group, mode, rest })
}

/// A founding, without its name: UUID MODE HORIZON EXPEL MAJORITY N...
#[tactic(auto, unfolding(crate::specs::Founding::found_of))]
pub fn read_found(alloc: Global, line: &[u8]) -> Result<Option<Step>, Memory>
    ensures { IfOk result (λ step. step ≡ found_of (words_of line.now)) }
{
    let Some(group) = next_group(line) else {
        return Ok(None);
    };
    let Some(limits) = next_limits(group.rest) else {
        return Ok(None);
    };
    let Some(servers) = read_founders(alloc, limits.rest)? else {
        return Ok(None);
    };
    Ok(Some(Step::Found {
        group: group.group,
        mode: group.mode,
        horizon: limits.horizon,
        expel: limits.expel,
        majority: limits.majority,
        servers,
    }))
}

/// A line that sets up the group: its name and what stands behind it.
#[tactic(auto, unfolding(crate::specs::Founding::setting_of))]
pub fn read_setting(alloc: Global, name: &[u8], line: &[u8]) -> Result<Option<Step>, Memory>
    ensures { IfOk result (λ step. step ≡ setting_of name.now (words_of line.now)) }
{
    if is_word(name, "server") {
        return read_declaration(alloc, line);
    }
    if is_word(name, "block") {
        return Ok(read_block(line));
    }
    if is_word(name, "found") {
        return read_found(alloc, line);
    }
    Ok(None)
}

/// A size of blocks, without the name: SIZE.
#[tactic(auto, unfolding(crate::specs::Founding::block_of))]
fn read_block(line: &[u8]) -> Option<Step>
    ensures { result ≡ block_of (words_of line.now) }
{
    let size = only_number(line, 1, 1_000_000)?;
    Some(Step::Block { size: size as u32 })
}
