ghost use Rattle.std.specs.Prelude.{IfOk, None};
ghost use Rattle.byte_forms.specs.Lists.{IsChain};
ghost use Rattle.name_forms.specs.Incs.{IsInc};
ghost use Rattle.name_forms.specs.OpenParts.{IsOpenAfter};
ghost use Rattle.txn_forms.specs.Bodies.{IsPart};

use byte_forms::{Packer, put_counted};
use gr_ids::{Inc, OpenParts, Sequence};
use std::alloc::{AllocError, Global};
use std::process::Abort;
use std::test::Fail;
use txn_forms::{Body, BodyFault, Joined, Part, Parts, decode, encode};

// A body of each kind: of two runs of a source, two items and three changes; GTIDs; sets; the three modes; a last part.
const BODIES: [&[u8]; 10] = [
    b"\x01\x01\0\0\0\x01ABCDEFGHIJKLMNOP\0\0\0\x02\0\0\0\0\0\0\0\x01\0\0\0\0\0\0\0\x03\
        \0\0\0\0\0\0\0\x07\0\0\0\0\0\0\0\x07\0\0\0\x02\x01t\x01a\x01t\x01b\0\0\0\x03\0\0\
        \0\0\x01\0\0\0\x011\0\0\0\x01\x02\0\0\0\x012\0\0\0\0\x03",
    b"\x02ABCDEFGHIJKLMNOP\0\0\0\0\0\0\0\x05",
    b"\x03",
    b"\x04\0\0\0\0",
    b"\x05\0\0\0\x02ABCDEFGHIJKLMNOP\0\0\0\x01\0\0\0\0\0\0\0\x01\0\0\0\0\0\0\0\x01abcd\
        efghijklmnop\0\0\0\x01\0\0\0\0\0\0\0\x02\0\0\0\0\0\0\0\x09",
    b"\x06\0",
    b"\x06\x01",
    b"\x06\x02\x01\0\0\0\x01",
    b"\x07\x02\0\0\0\x03",
    b"\x08\0\0\0\x02\0\0\0\x02\0\0\0\x03abc",
];

// What was decoded is encoded as the same bytes.
fn is_read_back(rt: &impl Abort, alloc: Global, bytes: &[u8]) -> Result<(), Fail> {
    let body = decode(alloc, bytes)?;
    let again = encode(alloc, &body)?;
    assert_eq!(rt; again.as_slice(), bytes);
    Ok(())
}

// Cut anywhere, it is refused at its end.
fn is_refused_at_each_cut(rt: &impl Abort, alloc: Global, bytes: &[u8]) {
    for n in 0..bytes.len() {
        let fault = BodyFault::BadBody { at: n as u64 };
        assert_eq!(rt; decode(alloc, &bytes[..n]).err(), Some(fault));
    }
}

// With a byte behind, it is refused at that byte.
fn is_refused_with_more(rt: &impl Abort, alloc: Global, bytes: &[u8]) -> Result<(), Fail> {
    let mut longer = bytes.to_vec(alloc)?;
    longer.push(0)?;
    let fault = BodyFault::BadBody {
        at: bytes.len() as u64,
    };
    assert_eq!(rt; decode(alloc, &longer).err(), Some(fault));
    Ok(())
}

#[test]
fn bodies_are_read_back_and_refused_at_each_cut(rt: HostRuntime) -> Result<(), Fail> {
    for bytes in BODIES.iter() {
        is_read_back(&rt, rt.alloc(), bytes)?;
        is_refused_at_each_cut(&rt, rt.alloc(), bytes);
        is_refused_with_more(&rt, rt.alloc(), bytes)?;
    }
    Ok(())
}

// Each with the first byte with which no spelling goes on.
#[test]
fn faults_are_named(rt: HostRuntime) {
    let rows = [
        // nothing
        (b"".as_slice(), 0),
        // no kind 0
        (b"\0", 0),
        // no kind 9
        (b"\x09", 0),
        // a byte behind Sync
        (b"\x03\0", 1),
        // write set out of order
        (b"\x01\0\0\0\0\0\0\0\0\x02\x01t\x01b\x01t\x01a", 17),
        // the same item twice
        (b"\x01\0\0\0\0\0\0\0\0\x02\x01t\x01a\x01t\x01a", 17),
        // no changes
        (b"\x01\0\0\0\0\0\0\0\0\x01\x01t\x01a\0\0\0\0", 17),
        // a change of item 1 of 1
        (
            b"\x01\0\0\0\0\0\0\0\0\x01\x01t\x01a\0\0\0\x01\0\0\0\x01\x03",
            21,
        ),
        // change kind 4
        (
            b"\x01\0\0\0\0\0\0\0\0\x01\x01t\x01a\0\0\0\x01\0\0\0\0\x04",
            22,
        ),
        // gtid number 0
        (b"\x02ABCDEFGHIJKLMNOP\0\0\0\0\0\0\0\0", 24),
        // gtid number 2^63-1
        (b"\x02ABCDEFGHIJKLMNOP\x7f\xff\xff\xff\xff\xff\xff\xff", 24),
        // runs that touch
        (
            b"\x04\0\0\0\x01ABCDEFGHIJKLMNOP\0\0\0\x02\0\0\0\0\0\0\0\x01\0\0\0\0\0\0\0\x03\0\0\
            \0\0\0\0\0\x04\0\0\0\0\0\0\0\x05",
            48,
        ),
        // mode 3
        (b"\x06\x03", 1),
        // server 33
        (b"\x07!\0\0\0\x01", 1),
        // part 3 of 2
        (b"\x08\0\0\0\x03\0\0\0\x02\0\0\0\x03abc", 8),
        // part 1 of 2 of 3 bytes
        (b"\x08\0\0\0\x01\0\0\0\x02\0\0\0\x03abc", 11),
        // empty last part
        (b"\x08\0\0\0\x02\0\0\0\x02\0\0\0\0", 12),
    ];
    for (bytes, at) in rows.iter() {
        assert!(rt; decode(rt.alloc(), bytes).err() == Some(BodyFault::BadBody { at: *at }));
    }
}

#[derive(Clone, Copy, Debug, PartialEq, Eq)]
enum Outcome {
    Open,
    Void,
    Whole,
}

// What a part became, where a whole body has to be this one.
fn outcome_of(joined: &Joined, whole: &[u8]) -> Option<Outcome> {
    match joined {
        Joined::Open => Some(Outcome::Open),
        Joined::Void => Some(Outcome::Void),
        Joined::Whole(body) if body.as_slice() == whole => Some(Outcome::Whole),
        Joined::Whole(_) => None,
    }
}

fn inc(server: u8) -> Inc
    ensures { IsInc result }
{
    Inc {
        server: server.clamp(1, 32),
        start: 1,
    }
}

fn part(alloc: Global, index: u32, count: u32, bytes: &[u8]) -> Result<Part, Fail>
    ensures { IfOk result (λ part. IsPart part) }
{
    let mut spelled = Packer::new(alloc);
    spelled.put_u8(8)?;
    spelled.put_u32(index)?;
    spelled.put_u32(count)?;
    if bytes.len() < 100_000 {
        put_counted(&mut spelled, bytes)?;
    }
    match decode(alloc, &spelled.finish())? {
        Body::Part(part) => Ok(part),
        _ => Err(Fail::from(BodyFault::BadBody { at: 0 })),
    }
}

// An insert of 40,000 bytes under each of two keys: 80,040 bytes.
fn large_body(alloc: Global) -> Result<Vec<u8>, AllocError> {
    let mut body = b"\x01\0\0\0\0\0\0\0\0\x02\x01t\x01a\x01t\x01b\0\0\0\x02".to_vec(alloc)?;
    body.extend_from_slice(b"\0\0\0\0\x01\0\0\x9c\x40")?;
    body.resize(40_031, b'x')?;
    body.extend_from_slice(b"\0\0\0\x01\x01\0\0\x9c\x40")?;
    body.resize(80_040, b'y')?;
    Ok(body)
}

/// A part of a server, what becomes of it, and how many large bodies are unfinished then.
#[derive(Clone, Copy)]
struct Row<'a> {
    server: u8,
    index: u32,
    count: u32,
    bytes: &'a [u8],
    outcome: Outcome,
    unfinished: usize,
}

fn opens<'a>(server: u8, count: u32, bytes: &'a [u8], unfinished: usize) -> Row<'a> {
    Row {
        server,
        index: 1,
        count,
        bytes,
        outcome: Outcome::Open,
        unfinished,
    }
}

fn ends<'a>(count: u32, bytes: &'a [u8], outcome: Outcome) -> Row<'a> {
    Row {
        server: 1,
        index: 2,
        count,
        bytes,
        outcome,
        unfinished: 0,
    }
}

fn take(
    rt: &impl Abort,
    alloc: Global,
    parts: &mut Parts,
    whole: &[u8],
    row: &Row,
) -> Result<(), Fail> {
    let part = part(alloc, row.index, row.count, row.bytes)?;
    let joined = parts.take(alloc, inc(row.server), part)?;
    assert!(rt; outcome_of(&joined, whole) == Some(row.outcome));
    assert_eq!(rt; parts.unfinished().len(), row.unfinished);
    Ok(())
}

fn take_all(
    rt: &impl Abort,
    alloc: Global,
    parts: &mut Parts,
    whole: &[u8],
    rows: &[Row],
) -> Result<(), Fail> {
    for row in rows.iter() {
        take(rt, alloc, parts, whole, row)?;
    }
    Ok(())
}

// Part 3 of the second server comes where part 2 is missing.
fn join(rt: &impl Abort, alloc: Global, parts: &mut Parts, whole: &[u8]) -> Result<(), Fail> {
    assert_eq!(rt; whole.len(), 80_040);
    let (first, rest) = whole.split_at(65_523);
    let missed = Row {
        server: 2,
        index: 3,
        count: 3,
        bytes: rest,
        outcome: Outcome::Void,
        unfinished: 1,
    };
    let rows = [
        opens(1, 2, first, 1),
        opens(2, 3, first, 2),
        missed,
        ends(2, rest, Outcome::Whole),
        // nothing is open
        ends(2, rest, Outcome::Void),
    ];
    take_all(rt, alloc, parts, whole, &rows)
}

fn fail(rt: &impl Abort, alloc: Global, parts: &mut Parts, whole: &[u8]) -> Result<(), Fail> {
    assert_eq!(rt; whole.len(), 80_040);
    let (first, rest) = whole.split_at(65_523);
    assert_eq!(rt; rest.len(), 14_517);
    let (few, _) = rest.split_at(13);
    let (short, _) = rest.split_at(14_516);
    let again = opens(1, 2, first, 1);
    let rows = [
        again,
        // it begins again
        again,
        // of another count
        ends(3, first, Outcome::Void),
        again,
        // 65,536 bytes are no large body
        ends(2, few, Outcome::Void),
        again,
        // the last byte of the body is missing
        ends(2, short, Outcome::Void),
    ];
    take_all(rt, alloc, parts, whole, &rows)
}

#[test]
fn parts_join_to_a_large_transaction(rt: HostRuntime) -> Result<(), Fail> {
    let whole = large_body(rt.alloc())?;
    let mut parts = Parts::new(rt.alloc());
    join(&rt, rt.alloc(), &mut parts, &whole)?;
    fail(&rt, rt.alloc(), &mut parts, &whole)
}

// The parts that are open when the first part has come.
fn open_first(rt: &impl Abort, alloc: Global, whole: &[u8]) -> Result<Sequence<OpenParts>, Fail>
    ensures { IfOk result (λ parts. IsChain IsOpenAfter None parts) }
{
    assert_eq!(rt; whole.len(), 80_040);
    let (first, _) = whole.split_at(65_523);
    let mut parts = Parts::new(alloc);
    take(rt, alloc, &mut parts, whole, &opens(1, 2, first, 1))?;
    let copy = parts.copy_open(alloc)?;
    parts.left(inc(1));
    assert_eq!(rt; parts.unfinished().len(), 0);
    Ok(copy)
}

#[test]
fn open_parts_are_taken_up_again(rt: HostRuntime) -> Result<(), Fail> {
    let whole = large_body(rt.alloc())?;
    assert_eq!(rt; whole.len(), 80_040);
    let (_, rest) = whole.split_at(65_523);
    let mut again = Parts::resume(open_first(&rt, rt.alloc(), &whole)?);
    take(
        &rt,
        rt.alloc(),
        &mut again,
        &whole,
        &ends(2, rest, Outcome::Whole),
    )
}
