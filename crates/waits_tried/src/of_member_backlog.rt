use gr_ids::{Gtid, Inc, Pos, ValueId};
use gtid_sets::GtidSet;
use member_backlog::{Backlog, Uncommitted};
use std::alloc::Global;
use std::process::Abort;
use std::test::Fail;

const SECOND: &[u8] = b"41424344-4546-4748-494a-4b4c4d4e4f50:2";

/// The transaction with this place and number.
fn certified(place: u64) -> Uncommitted {
    let source = *b"ABCDEFGHIJKLMNOP";
    Uncommitted {
        place: Pos(place),
        id: ValueId {
            origin: Inc {
                server: 1,
                start: 1,
            },
            number: place,
        },
        gtid: Gtid {
            source,
            number: place,
        },
        after: place == 3,
    }
}

fn certify_three(alloc: Global, backlog: &mut Backlog) -> Result<(), Fail> {
    let none = GtidSet::new(alloc);
    for place in 1..4 {
        backlog.certify(&none, certified(place))?;
    }
    Ok(())
}

// The second is committed, and certified once more where it is executed.
fn commit_second(alloc: Global, backlog: &mut Backlog) -> Result<(), Fail> {
    backlog.commit(certified(2).gtid);
    let second = GtidSet::parse(alloc, SECOND)?;
    backlog.certify(&second, certified(2))?;
    Ok(())
}

fn check_waiting(rt: &impl Abort, alloc: Global, backlog: &Backlog) -> Result<(), Fail> {
    let places: Vec<Pos> = backlog
        .waiting()
        .iter()
        .map(|waiting| waiting.place)
        .collect(alloc)?;
    assert!(rt; places.as_slice() == [Pos(1), Pos(3)].as_slice());
    Ok(())
}

fn check_pending(rt: &impl Abort, alloc: Global, backlog: &Backlog) -> Result<(), Fail> {
    let pending = backlog.pending(alloc)?;
    assert_eq!(rt; pending.as_slice().len(), 2);
    Ok(())
}

// The number of AFTER transactions that server 2 must await below a place.
fn check_after(
    rt: &impl Abort,
    alloc: Global,
    backlog: &Backlog,
    below: Option<Pos>,
    number: usize,
) -> Result<(), Fail> {
    let other = Inc {
        server: 2,
        start: 1,
    };
    let after = backlog.after_below(alloc, other, below)?;
    assert_eq!(rt; after.as_slice().len(), number);
    Ok(())
}

fn check(rt: &impl Abort, alloc: Global, backlog: &Backlog) -> Result<(), Fail> {
    check_waiting(rt, alloc, backlog)?;
    check_pending(rt, alloc, backlog)?;
    check_after(rt, alloc, backlog, Some(Pos(3)), 0)?;
    check_after(rt, alloc, backlog, None, 1)?;
    assert!(rt; backlog.is_clear(Pos(1)) && !backlog.is_clear(Pos(2)));
    Ok(())
}

#[test]
fn what_is_committed_waits_no_more(rt: HostRuntime) -> Result<(), Fail> {
    let alloc = rt.alloc();
    let mut backlog = Backlog::new(alloc);
    certify_three(alloc, &mut backlog)?;
    commit_second(alloc, &mut backlog)?;
    check(&rt, alloc, &backlog)
}
