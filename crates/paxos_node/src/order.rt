// Whether a Welcome is in order, and for this node.
ghost use Rattle.std.specs.Prelude.{◌≡◌, ◌&&◌, IfOk};
ghost use Rattle.std.specs.List.{list_all, list_any};
ghost use Rattle.gr_ids.specs.Names.{has_inc, inc_eq};
ghost use Rattle.gr_ids.specs.declared.memory.Memory.{Memory};
ghost use Rattle.node_rules.specs.Lists.{incs_eq};
ghost use Rattle.node_rules.specs.Welcoming.{ascends, fits_primary, incs_in, is_config, is_for, is_in_order, is_online, is_recovering, is_single, last_config};

use gr_ids::{Inc, MemberState, Memory, Mode, Sequence};
use paxos_forms::{Welcome, WelcomeMember};
use paxos_leader::has_inc;
use std::alloc::Global;

/// As many members as a group may have (MySQL 8.0 Reference Manual, Group Replication Limitations).
const MOST_MEMBERS: usize = 9;

/// Whether a Welcome fits together. Linear in it, and in its members times all that ever were members.
pub fn is_in_order(alloc: Global, welcome: &Welcome) -> Result<bool, Memory>
    ensures { IfOk result (λ fits. fits ≡ is_in_order welcome.now) }
{
    let incs = incs_in(alloc, welcome)?;
    let last = last_config(welcome.configs.as_slice());
    Ok(
        are_configs(welcome.configs.as_slice())
            && are_same(&incs, last)
            && are_among(&incs, welcome.ever.as_slice())
            && fits_primary(welcome),
    )
}

/// Whether the Welcome has as many configurations as the horizon, and this incarnation is RECOVERING there. Linear in the members.
pub fn is_for(welcome: &Welcome, me: Inc, horizon: u16) -> bool
    ensures { result ≡ is_for welcome.now me horizon }
{
    welcome.configs.as_slice().len() == horizon as usize
        && is_recovering_in(welcome.members.as_slice(), me)
}

/// The members of the Welcome, ascending. Linear in them.
pub(crate) fn incs_in(alloc: Global, welcome: &Welcome) -> Result<Vec<Inc>, Memory>
    ensures { IfOk result (λ incs. incs.items ≡ incs_in welcome.now) }
{
    Ok(
        welcome
            .members
            .as_slice()
            .iter()
            .map(|m| m.joiner.inc)
            .collect(alloc)?,
    )
}

fn are_configs(configs: &[Sequence<Inc>]) -> bool
    ensures { result ≡ list_all is_config configs.now }
{
    configs.iter().all(|config| is_config(config.as_slice()))
}

// Strictly ascending, of distinct servers, 1 to 9.
fn is_config(config: &[Inc]) -> bool
    ensures { result ≡ is_config config.now }
{
    ascends(config) && !config.is_empty() && config.len() <= MOST_MEMBERS
}

fn ascends(incs: &[Inc]) -> bool
    ensures { result ≡ ascends incs.now }
{
    for next in 1..incs.len() {
        if incs[next].server <= incs[next - 1].server {
            return false;
        }
    }
    true
}

fn last_config(configs: &[Sequence<Inc>]) -> &[Inc]
    ensures { result.now ≡ last_config configs.now }
{
    match configs.last() {
        Some(config) => config.as_slice(),
        None => &[],
    }
}

fn are_same(incs: &[Inc], others: &[Inc]) -> bool
    ensures { result ≡ incs_eq incs.now others.now }
{
    incs == others
}

fn are_among(incs: &[Inc], ever: &[Inc]) -> bool
    ensures { result ≡ list_all (has_inc ever.now) incs.now }
{
    incs.iter().all(|inc| has_inc(ever, *inc))
}

// A primary is named in mode single alone, and is ONLINE.
fn fits_primary(welcome: &Welcome) -> bool
    ensures { result ≡ fits_primary welcome.now welcome.now.primary }
{
    match welcome.primary {
        None => true,
        Some(primary) => {
            is_single(welcome.mode) && is_online_in(welcome.members.as_slice(), primary)
        }
    }
}

fn is_single(mode: Mode) -> bool
    ensures { result ≡ is_single mode }
{
    match mode {
        Mode::Single => true,
        Mode::Multi => false,
    }
}

fn is_online_in(members: &[WelcomeMember], inc: Inc) -> bool
    ensures { result ≡ list_any (λ m. inc_eq m.joiner.inc inc && is_online m.state) members.now }
{
    members
        .iter()
        .any(|m| m.joiner.inc == inc && is_online(m.state))
}

fn is_online(state: MemberState) -> bool
    ensures { result ≡ is_online state }
{
    match state {
        MemberState::Online => true,
        _ => false,
    }
}

fn is_recovering_in(members: &[WelcomeMember], inc: Inc) -> bool
    ensures { result ≡ list_any (λ m. inc_eq m.joiner.inc inc && is_recovering m.state) members.now }
{
    members
        .iter()
        .any(|m| m.joiner.inc == inc && is_recovering(m.state))
}

fn is_recovering(state: MemberState) -> bool
    ensures { result ≡ is_recovering state }
{
    match state {
        MemberState::Recovering => true,
        _ => false,
    }
}
