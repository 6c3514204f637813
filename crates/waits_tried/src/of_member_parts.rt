use gr_ids::{Blob, Inc, Level, Limits, MemberState, Mode, Pos, ValueId};
use gtid_sets::GtidSet;
use member_parts::MemberParts;
use paxos_forms::Ask;
use slot_values::{Joiner, Value, What};
use std::alloc::Global;
use std::process::Abort;
use std::test::Fail;

const LIMITS: Limits = Limits {
    group: *b"ABCDEFGHIJKLMNOP",
    horizon: 10,
    expel: 2,
    majority: 3,
    block: 1,
};

// A transaction that has seen nothing and inserts the row a of the table t.
const INSERT: &[u8] = b"\x01\0\0\0\0\0\0\0\0\x01\x01t\x01a\0\0\0\x01\0\0\0\0\x01\0\0\0\x011";

/// The first incarnation of a server.
fn joiner(server: u8) -> Joiner {
    Joiner {
        inc: Inc { server, start: 1 },
        uuid: [server; 16],
        version: [8, 0, 36],
        weight: 50,
    }
}

// The next entry is one of server 1.
fn take(rt: &impl Abort, alloc: Global, parts: &mut MemberParts, what: What) -> Result<(), Fail> {
    assert!(rt; parts.list().taken().0 < 100);
    let value = Value {
        id: ValueId {
            origin: Inc {
                server: 1,
                start: 1,
            },
            number: 1,
        },
        what,
    };
    let me = joiner(1).inc;
    let _ = parts.take(alloc, me, &GtidSet::new(alloc), &value, true)?;
    Ok(())
}

// Five ticks without a message, and then one.
fn listen(rt: &impl Abort, parts: &mut MemberParts, to: Inc) -> Result<(), Fail> {
    for _ in 0..5 {
        parts.tick();
    }
    assert!(rt; parts.watch().suspects(to));
    parts.heard(to);
    assert!(rt; !parts.watch().suspects(to));
    Ok(())
}

// What one that has nothing is given of the Add at place 2.
fn serve(rt: &impl Abort, alloc: Global, parts: &MemberParts) -> Result<(), Fail> {
    let ask = Ask {
        place: Pos(2),
        executed: GtidSet::new(alloc),
    };
    let give = parts.give(alloc, &ask)?;
    assert_eq!(rt; give.txns.as_slice().len(), 1);
    assert_eq!(rt; give.blocks, 1);
    Ok(())
}

// A BEFORE begin waits for the next own value.
fn begin(rt: &impl Abort, alloc: Global, parts: &MemberParts) -> Result<(), Fail> {
    let me = joiner(1).inc;
    let conditions = parts.conditions(alloc, me, Level::Before, MemberState::Online, 1, None)?;
    let sync = ValueId {
        origin: me,
        number: 2,
    };
    assert_eq!(rt; conditions.sync, Some(sync));
    Ok(())
}

fn live(rt: &impl Abort, alloc: Global, parts: &mut MemberParts) -> Result<(), Fail> {
    take(rt, alloc, parts, What::Body(Blob::of(alloc, INSERT)?))?;
    take(rt, alloc, parts, What::Add(joiner(3)))?;
    listen(rt, parts, joiner(3).inc)?;
    serve(rt, alloc, parts)?;
    begin(rt, alloc, parts)?;
    take(rt, alloc, parts, What::Remove(joiner(2).inc))?;
    assert!(rt; !parts.watch().suspects(joiner(2).inc));
    Ok(())
}

#[test]
fn an_add_is_watched_and_served(rt: HostRuntime) -> Result<(), Fail> {
    let alloc = rt.alloc();
    let me = joiner(1).inc;
    let mut parts = MemberParts::founded(alloc, me, &[joiner(1), joiner(2)], Mode::Multi, LIMITS)?;
    live(&rt, alloc, &mut parts)
}
