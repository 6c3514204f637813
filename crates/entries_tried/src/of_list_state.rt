use gr_ids::{Blob, Gtid, Inc, Limits, MemberState, Mode, Pos, ValueId};
use group_rules::Effect;
use list_state::ListState;
use slot_values::{Joiner, Value, What};
use std::alloc::Global;
use std::process::Abort;
use std::test::Fail;

const LIMITS: Limits = Limits {
    group: *b"ABCDEFGHIJKLMNOP",
    horizon: 10,
    expel: 2,
    majority: 3,
    block: 1,
};

// A transaction that has seen nothing and inserts the row a of the table t.
const INSERT: &[u8] = b"\x01\0\0\0\0\0\0\0\0\x01\x01t\x01a\0\0\0\x01\0\0\0\0\x01\0\0\0\x011";

// The first GTID of the group is told.
const FIRST_TOLD: &[u8] =
    b"\x04\0\0\0\x01ABCDEFGHIJKLMNOP\0\0\0\x01\0\0\0\0\0\0\0\x01\0\0\0\0\0\0\0\x01";

// A member that has executed nothing is ONLINE from here on.
const ONLINE: &[u8] = b"\x05\0\0\0\0";

// A last part, of two.
const LAST_PART: &[u8] = b"\x08\0\0\0\x02\0\0\0\x02\0\0\0\x03abc";

const SYNC: &[u8] = b"\x03";

const GARBAGE: &[u8] = b"\x09";

fn first_gtid(number: u64) -> Gtid {
    let source = LIMITS.group;
    Gtid { source, number }
}

/// The first incarnation of a server.
fn joiner(server: u8) -> Joiner {
    Joiner {
        inc: Inc { server, start: 1 },
        uuid: [server; 16],
        version: [8, 0, 36],
        weight: 50,
    }
}

// The next entry is one of this server.
fn take(
    rt: &impl Abort,
    alloc: Global,
    state: &mut ListState,
    server: u8,
    what: What,
) -> Result<Effect, Fail> {
    assert!(rt; 1 <= server);
    assert!(rt; server <= 32);
    assert!(rt; state.taken().0 < 100);
    let value = Value {
        id: ValueId {
            origin: Inc { server, start: 1 },
            number: 1,
        },
        what,
    };
    Ok(state.take(alloc, &value, true)?.effect)
}

/// A body of a server, and its effect.
#[derive(Clone, Copy)]
struct Row {
    server: u8,
    body: &'static [u8],
    effect: Effect,
}

fn says(server: u8, body: &'static [u8], effect: Effect) -> Row {
    Row {
        server,
        body,
        effect,
    }
}

fn take_row(rt: &impl Abort, alloc: Global, state: &mut ListState, row: &Row) -> Result<(), Fail> {
    let body = Blob::of(alloc, row.body)?;
    let effect = take(rt, alloc, state, row.server, What::Body(body))?;
    assert!(rt; effect == row.effect);
    Ok(())
}

fn take_rows(rt: &impl Abort, alloc: Global, state: &mut ListState) -> Result<(), Fail> {
    let (first, second) = (first_gtid(1), first_gtid(2));
    let rows = [
        says(1, INSERT, Effect::Positive(first)),
        says(2, INSERT, Effect::Conflict(first)),
        says(1, FIRST_TOLD, Effect::Plain),
        says(2, INSERT, Effect::Conflict(first)),
        // now both have told it, and its item is kept no more
        says(2, FIRST_TOLD, Effect::Plain),
        says(2, INSERT, Effect::Positive(second)),
        says(1, LAST_PART, Effect::Void),
        says(1, SYNC, Effect::Plain),
        says(1, GARBAGE, Effect::Unread),
    ];
    for row in rows.iter() {
        take_row(rt, alloc, state, row)?;
    }
    assert!(rt; state.taken() == Pos(9));
    Ok(())
}

fn founded(alloc: Global) -> Result<ListState, Fail> {
    let founders = [joiner(1), joiner(2)];
    Ok(ListState::founded(alloc, &founders, Mode::Multi, LIMITS)?)
}

#[test]
fn entries_have_their_effects(rt: HostRuntime) -> Result<(), Fail> {
    let mut state = founded(rt.alloc())?;
    take_rows(&rt, rt.alloc(), &mut state)
}

fn check_add(rt: &impl Abort, alloc: Global, state: &ListState) -> Result<(), Fail> {
    let at = state.at_add(alloc)?;
    assert!(rt; at.place == Pos(2) && at.blocks == 1);
    assert_eq!(rt; at.items.as_slice().len(), 1);
    Ok(())
}

fn join(rt: &impl Abort, alloc: Global, state: &mut ListState) -> Result<(), Fail> {
    take_row(
        rt,
        alloc,
        state,
        &says(1, INSERT, Effect::Positive(first_gtid(1))),
    )?;
    let _ = take(rt, alloc, state, 1, What::Add(joiner(3)))?;
    check_add(rt, alloc, state)?;
    take_row(rt, alloc, state, &says(3, ONLINE, Effect::Plain))?;
    assert!(rt; state.view().state(joiner(3).inc) == Some(MemberState::Online));
    Ok(())
}

#[test]
fn what_stands_at_an_add_is_kept(rt: HostRuntime) -> Result<(), Fail> {
    let mut state = founded(rt.alloc())?;
    join(&rt, rt.alloc(), &mut state)
}
