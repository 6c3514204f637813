use gr_ids::{Blob, Gtid, Memory, Pos, SessionId};
use group_rules::Holder;
use key_items::{Item, WriteSet};
use row_locks::{LockFault, Locks};
use std::alloc::Global;
use std::process::Abort;
use std::test::Fail;

fn item(alloc: Global, key: u8) -> Result<Item, Memory> {
    Ok(Item {
        table: Blob::of(alloc, b"t")?,
        key: Blob::of(alloc, &[key])?,
    })
}

fn set(alloc: Global, keys: &[u8]) -> Result<WriteSet, Memory> {
    let mut set = WriteSet::new(alloc);
    for key in keys {
        set.add(item(alloc, *key)?)?;
    }
    Ok(set)
}

fn gtid(number: u64) -> Gtid {
    Gtid {
        source: [7; 16],
        number,
    }
}

/// A session asks for a key, and who has it, if that is another one.
#[derive(Clone, Copy)]
struct Asked {
    key: u8,
    session: u32,
    holder: Option<Holder>,
}

fn granted(key: u8, session: u32) -> Asked {
    Asked {
        key,
        session,
        holder: None,
    }
}

fn held_by_session(key: u8, session: u32, other: u32) -> Asked {
    Asked {
        key,
        session,
        holder: Some(Holder::Session(SessionId(other))),
    }
}

fn held_by_place(key: u8, session: u32, place: u64) -> Asked {
    Asked {
        key,
        session,
        holder: Some(Holder::Place(Pos(place), gtid(place))),
    }
}

fn lock(rt: &impl Abort, alloc: Global, locks: &mut Locks, asked: &Asked) -> Result<(), Fail> {
    let answer = locks.lock(&item(alloc, asked.key)?, SessionId(asked.session));
    match asked.holder {
        None => assert!(rt; answer == Ok(())),
        Some(holder) => assert!(rt; answer == Err(LockFault::Locked { holder })),
    }
    Ok(())
}

fn lock_all(rt: &impl Abort, alloc: Global, locks: &mut Locks, all: &[Asked]) -> Result<(), Fail> {
    for asked in all.iter() {
        lock(rt, alloc, locks, asked)?;
    }
    Ok(())
}

#[test]
fn a_key_has_one_holder(rt: HostRuntime) -> Result<(), Fail> {
    let before = [
        granted(b'a', 1),
        granted(b'a', 1),
        held_by_session(b'a', 2, 1),
        granted(b'b', 3),
        granted(b'c', 2),
    ];
    let after = [granted(b'a', 2), held_by_session(b'c', 1, 2)];
    let mut locks = Locks::new(rt.alloc());
    lock_all(&rt, rt.alloc(), &mut locks, &before)?;
    locks.free(SessionId(1));
    lock_all(&rt, rt.alloc(), &mut locks, &after)
}

// A place that is done takes these keys over, from these sessions.
fn take_over(
    rt: &impl Abort,
    alloc: Global,
    locks: &mut Locks,
    place: u64,
    keys: &[u8],
    losers: &[SessionId],
) -> Result<(), Fail> {
    let lost = locks.take_over(&set(alloc, keys)?, Pos(place), gtid(place))?;
    assert!(rt; lost.as_slice() == losers);
    Ok(())
}

fn take_over_first(rt: &impl Abort, alloc: Global, locks: &mut Locks) -> Result<(), Fail> {
    let before = [granted(b'a', 3), granted(b'b', 1), granted(b'c', 3)];
    let after = [held_by_place(b'a', 3, 9), held_by_session(b'c', 1, 3)];
    lock_all(rt, alloc, locks, &before)?;
    take_over(rt, alloc, locks, 9, b"abx", &[SessionId(1), SessionId(3)])?;
    lock_all(rt, alloc, locks, &after)
}

fn take_over_again(rt: &impl Abort, alloc: Global, locks: &mut Locks) -> Result<(), Fail> {
    let after = [held_by_place(b'a', 1, 7), held_by_place(b'b', 1, 9)];
    take_over(rt, alloc, locks, 7, b"ac", &[SessionId(3)])?;
    lock_all(rt, alloc, locks, &after)
}

fn free_places(rt: &impl Abort, alloc: Global, locks: &mut Locks) -> Result<(), Fail> {
    let between = [held_by_place(b'a', 1, 9), granted(b'c', 1)];
    locks.free(SessionId(3));
    locks.free_place(Pos(7));
    lock_all(rt, alloc, locks, &between)?;
    locks.free_place(Pos(9));
    lock(rt, alloc, locks, &granted(b'b', 2))
}

#[test]
fn places_take_keys_over(rt: HostRuntime) -> Result<(), Fail> {
    let mut locks = Locks::new(rt.alloc());
    take_over_first(&rt, rt.alloc(), &mut locks)?;
    take_over_again(&rt, rt.alloc(), &mut locks)?;
    free_places(&rt, rt.alloc(), &mut locks)
}
