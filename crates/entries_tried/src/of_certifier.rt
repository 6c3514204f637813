use certifier::{Certifier, Verdict};
use gr_ids::{Blob, Gtid, Inc, LastNumber, Pos, Sequence};
use gtid_sets::GtidSet;
use key_items::{Item, KeptItem, WriteSet};
use std::alloc::Global;
use std::process::Abort;
use std::test::Fail;
use txn_forms::Txn;

const GROUP: [u8; 16] = [0xaa; 16];

const NONE: &[u8] = b"";

const FIRST: &[u8] = b"aaaaaaaa-aaaa-aaaa-aaaa-aaaaaaaaaaaa:1";

/// A transaction of a member, which writes a row of each of these keys and saw this set, and the verdict on it.
#[derive(Clone, Copy)]
struct Case {
    server: u8,
    keys: &'static [u8],
    seen: &'static [u8],
    verdict: Verdict,
}

fn writes(server: u8, keys: &'static [u8], seen: &'static [u8], verdict: Verdict) -> Case {
    Case {
        server,
        keys,
        seen,
        verdict,
    }
}

fn first_start(server: u8) -> Inc {
    Inc { server, start: 1 }
}

fn gtid(number: u64) -> Gtid {
    Gtid {
        source: GROUP,
        number,
    }
}

fn positive(number: u64) -> Verdict {
    Verdict::Positive(gtid(number))
}

fn conflict(number: u64) -> Verdict {
    Verdict::Conflict(gtid(number))
}

fn item(alloc: Global, key: u8) -> Result<Item, Fail> {
    Ok(Item {
        table: Blob::of(alloc, b"t")?,
        key: Blob::of(alloc, &[key])?,
    })
}

fn txn(alloc: Global, case: &Case) -> Result<Txn, Fail> {
    let mut items = WriteSet::new(alloc);
    for key in case.keys {
        let _ = items.add(item(alloc, *key)?)?;
    }
    Ok(Txn {
        after: false,
        snapshot: GtidSet::parse(alloc, case.seen)?,
        items,
        changes: Sequence::new(alloc),
    })
}

fn certify(
    rt: &impl Abort,
    alloc: Global,
    certifier: &mut Certifier,
    place: Pos,
    case: &Case,
) -> Result<(), Fail> {
    assert!(rt; certifier.blocks() < 1 << 42);
    let txn = txn(alloc, case)?;
    let verdict = certifier.certify(alloc, first_start(case.server), place, &txn)?;
    assert!(rt; verdict == case.verdict);
    Ok(())
}

/// The verdicts on these, one after another at the places from 1 on.
fn judge(
    rt: &impl Abort,
    alloc: Global,
    certifier: &mut Certifier,
    cases: &[Case],
) -> Result<(), Fail> {
    for (i, case) in cases.iter().enumerate() {
        certify(rt, alloc, certifier, Pos(i as u64 + 1), case)?;
    }
    Ok(())
}

#[test]
fn the_first_to_be_ordered_wins(rt: HostRuntime) -> Result<(), Fail> {
    let cases = [
        writes(1, b"a", NONE, positive(1)),
        writes(2, b"a", NONE, conflict(1)),
        writes(2, b"ab", FIRST, positive(2)),
        writes(3, b"a", FIRST, conflict(2)),
        writes(3, b"c", NONE, positive(3)),
        writes(3, b"bc", FIRST, conflict(3)),
    ];
    let mut certifier = Certifier::new(rt.alloc(), GROUP, 1);
    judge(&rt, rt.alloc(), &mut certifier, &cases)
}

fn draw(rt: &impl Abort, alloc: Global, certifier: &mut Certifier) -> Result<(), Fail> {
    let cases = [
        writes(1, b"a", NONE, positive(1)),
        writes(2, b"b", NONE, positive(6)),
        writes(1, b"c", NONE, positive(2)),
        writes(3, b"bc", NONE, conflict(2)),
        writes(1, b"d", NONE, positive(3)),
        writes(1, b"e", NONE, positive(4)),
        writes(1, b"f", NONE, positive(5)),
        writes(1, b"g", NONE, positive(11)),
        writes(2, b"h", NONE, positive(7)),
    ];
    judge(rt, alloc, certifier, &cases)
}

// Server 3 has drawn none.
fn check_last(rt: &impl Abort, alloc: Global, certifier: &Certifier) -> Result<(), Fail> {
    let number = LastNumber {
        inc: first_start(1),
        number: 11,
    };
    let last = certifier.copy_last(alloc, &[first_start(1), first_start(3)])?;
    assert!(rt; last.as_slice() == [number].as_slice());
    Ok(())
}

#[test]
fn origins_draw_numbers_from_their_own_blocks(rt: HostRuntime) -> Result<(), Fail> {
    let mut certifier = Certifier::new(rt.alloc(), GROUP, 5);
    draw(&rt, rt.alloc(), &mut certifier)?;
    assert_eq!(rt; certifier.blocks(), 3);
    check_last(&rt, rt.alloc(), &certifier)
}

// The first transaction is stable: of its two items the one that nothing else has written is forgotten.
fn forget(rt: &impl Abort, alloc: Global, certifier: &mut Certifier) -> Result<(), Fail> {
    let stable = GtidSet::parse(alloc, FIRST)?;
    certifier.forget(&stable);
    assert_eq!(rt; certifier.items().count(), 2);
    assert_eq!(rt; certifier.copy_items(alloc)?.as_slice().len(), 2);
    Ok(())
}

#[test]
fn what_is_stable_is_forgotten(rt: HostRuntime) -> Result<(), Fail> {
    let earlier = [
        writes(1, b"ab", NONE, positive(1)),
        writes(1, b"b", FIRST, positive(2)),
        writes(2, b"c", NONE, positive(3)),
    ];
    let later = [
        writes(3, b"a", NONE, positive(4)),
        writes(3, b"b", NONE, conflict(2)),
        writes(3, b"c", NONE, conflict(3)),
    ];
    let mut certifier = Certifier::new(rt.alloc(), GROUP, 1);
    judge(&rt, rt.alloc(), &mut certifier, &earlier)?;
    forget(&rt, rt.alloc(), &mut certifier)?;
    judge(&rt, rt.alloc(), &mut certifier, &later)
}

// Two blocks of five are drawn, server 2 has used one number of the second, and wrote the row of a by it.
fn told(alloc: Global) -> Result<Certifier, Fail> {
    let last = [LastNumber {
        inc: first_start(2),
        number: 6,
    }];
    let items = [KeptItem {
        item: item(alloc, b'a')?,
        gtid: gtid(6),
        place: Pos(4),
    }];
    Ok(Certifier::restore(
        alloc,
        GROUP,
        5,
        2,
        Sequence::from_vec(Vec::from_array(alloc, last)?),
        Sequence::from_vec(Vec::from_array(alloc, items)?),
    )?)
}

#[test]
fn a_certifier_goes_on_where_it_was_told(rt: HostRuntime) -> Result<(), Fail> {
    let cases = [
        writes(1, b"a", NONE, conflict(6)),
        writes(2, b"b", NONE, positive(7)),
        writes(1, b"c", NONE, positive(11)),
    ];
    judge(&rt, rt.alloc(), &mut told(rt.alloc())?, &cases)
}
