ghost use Rattle.std.specs.Prelude.{◌≡◌, []};

use consistency_waits::{AtCall, Released, Standing, Waits, conditions_now};
use gr_ids::{Gtid, Inc, Level, MemberState, Pos, Sequence, SessionId, ValueId};
use group_rules::{Conditions, Pending};
use std::alloc::Global;
use std::process::Abort;
use std::test::Fail;

fn gtid(number: u64) -> Gtid {
    Gtid {
        source: [7; 16],
        number,
    }
}

fn sync(number: u64) -> ValueId {
    ValueId {
        origin: Inc {
            server: 1,
            start: 1,
        },
        number,
    }
}

/// Pending are the places from 1 on, each with the GTID of its number.
fn standing(alloc: Global, places: &[u64]) -> Result<Standing, Fail> {
    let pending = places
        .iter()
        .map(|place| Pending {
            place: Pos(*place),
            gtid: gtid(*place),
        })
        .collect(alloc)?;
    Ok(Standing {
        pending: Sequence::from_vec(pending),
    })
}

fn conditions(alloc: Global) -> Conditions {
    Conditions {
        after: Sequence::new(alloc),
        sync: None,
        elected: None,
        online: None,
    }
}

// Those of a BEFORE begin, whose Sync is the fourth own value.
fn before(alloc: Global) -> Result<Conditions, Fail> {
    let known = AtCall {
        state: MemberState::Online,
        last: 3,
        after: Sequence::new(alloc),
        elected: None,
        online: None,
    };
    Ok(conditions_now(alloc, sync(4).origin, Level::Before, known)?)
}

// Those of a primary that waits for the election at a place.
fn as_primary(alloc: Global, elected: Pos) -> Conditions {
    let mut primary = conditions(alloc);
    primary.elected = Some(elected);
    primary
}

// Those that wait for an AFTER transaction.
fn after(alloc: Global, gtid: Gtid) -> Result<Conditions, Fail> {
    let mut after = conditions(alloc);
    after.after = Sequence::from_vec(Vec::from_array(alloc, [gtid])?);
    Ok(after)
}

// The sessions 2, 1 and 3, with their limits in ticks.
fn hold_three(alloc: Global, waits: &mut Waits) -> Result<(), Fail>
    requires { waits.old ≡ [] }
{
    waits.hold(SessionId(2), before(alloc)?, 3)?;
    waits.hold(SessionId(1), as_primary(alloc, Pos(2)), 2)?;
    waits.hold(SessionId(3), after(alloc, gtid(3))?, 2)?;
    Ok(())
}

// Exactly these sessions begin while these places are pending.
fn release(
    rt: &impl Abort,
    alloc: Global,
    waits: &mut Waits,
    places: &[u64],
    expected: &[Released],
) -> Result<(), Fail> {
    let now = standing(alloc, places)?;
    let out = waits.release(alloc, &now)?;
    assert!(rt; out.as_slice() == expected);
    Ok(())
}

// Only session 1 waits for no more than the first place.
fn release_primary(rt: &impl Abort, alloc: Global, waits: &mut Waits) -> Result<(), Fail> {
    let first = Released {
        session: SessionId(1),
        sync: None,
    };
    release(rt, alloc, waits, &[1, 2, 3], &[])?;
    release(rt, alloc, waits, &[2, 3], &[first])
}

// Session 3 waits for two ticks.
fn time_out(rt: &impl Abort, waits: &mut Waits) {
    waits.tick();
    assert!(rt; waits.timed_out().is_none());
    waits.tick();
    assert!(rt; waits.timed_out() == Some((SessionId(3), 2)));
    assert!(rt; waits.timed_out().is_none());
}

fn release_synced(rt: &impl Abort, alloc: Global, waits: &mut Waits) -> Result<(), Fail> {
    let second = Released {
        session: SessionId(2),
        sync: Some(Pos(3)),
    };
    release(rt, alloc, waits, &[3], &[second])
}

#[test]
fn begins_wait_for_their_conditions(rt: HostRuntime) -> Result<(), Fail> {
    let alloc = rt.alloc();
    let mut waits = Waits::new(alloc);
    hold_three(alloc, &mut waits)?;
    release_primary(&rt, alloc, &mut waits)?;
    waits.sync_taken(sync(4), Pos(3));
    time_out(&rt, &mut waits);
    release_synced(&rt, alloc, &mut waits)
}
