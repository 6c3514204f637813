// The conditions of a begin that is called.
ghost use Rattle.std.specs.Prelude.{◌≡◌, IfOk};
ghost use Rattle.gr_ids.specs.declared.memory.Memory.{Memory};
ghost use Rattle.group_rules.specs.Holds.{has_sync};
ghost use Rattle.consistency_waits.specs.Calling.{after_by, conditions_by, elected_by, online_by, sync_by};

use gr_ids::{Gtid, Inc, Level, MemberState, Memory, Pos, Sequence, ValueId};
use group_rules::Conditions;
use std::alloc::Global;

/// What is known of a member when a begin is called.
#[derive(Debug, Drop)]
pub struct AtCall {
    pub state: MemberState,
    /// The number of its last own value.
    pub last: u64,
    /// The AFTER transactions that are prepared and uncommitted here.
    pub after: Sequence<Gtid>,
    /// The place at which it became primary, if it is the primary.
    pub elected: Option<Pos>,
    /// The place of its own Online entry.
    pub online: Option<Pos>,
}

/// The conditions of a begin of this level that is called now. Refused as want of memory where its Sync would have a number above 2^64 - 1.
pub fn conditions_now(
    alloc: Global,
    me: Inc,
    level: Level,
    known: AtCall,
) -> Result<Conditions, Memory>
    ensures { IfOk result (λ c. c ≡ conditions_by me level known) }
{
    let sync = next_sync(me, level, known.last)?;
    Ok(Conditions {
        after: after_now(alloc, known.state, known.after),
        sync,
        elected: elected_now(level, known.state, known.elected),
        online: online_now(known.state, known.online),
    })
}

fn after_now(alloc: Global, state: MemberState, after: Sequence<Gtid>) -> Sequence<Gtid>
    ensures { result ≡ after_by state after }
{
    match state {
        MemberState::Online | MemberState::Recovering => after,
        MemberState::Offline | MemberState::Error => Sequence::new(alloc),
    }
}

// The Sync that it sends is the next own value.
fn next_sync(me: Inc, level: Level, last: u64) -> Result<Option<ValueId>, Memory>
    ensures { IfOk result (λ sync. sync ≡ sync_by me level last) }
{
    if !has_sync(level) {
        return Ok(None);
    }
    let Some(number) = last.checked_add(1) else {
        return Err(Memory);
    };
    Ok(Some(ValueId { origin: me, number }))
}

fn has_sync(level: Level) -> bool
    ensures { result ≡ has_sync level }
{
    match level {
        Level::Before | Level::BeforeAndAfter => true,
        Level::Eventual | Level::BeforeOnPrimaryFailover | Level::After => false,
    }
}

fn elected_now(level: Level, state: MemberState, elected: Option<Pos>) -> Option<Pos>
    ensures { result ≡ elected_by level state elected }
{
    match (state, level) {
        (_, Level::Eventual) => None,
        (MemberState::Online, _) => elected,
        _ => None,
    }
}

fn online_now(state: MemberState, online: Option<Pos>) -> Option<Pos>
    ensures { result ≡ online_by state online }
{
    match state {
        MemberState::Online => online,
        _ => None,
    }
}
