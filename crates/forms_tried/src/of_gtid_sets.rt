use byte_forms::{Cutter, Packer};
use gr_ids::Gtid;
use gtid_sets::{GtidSet, TextFault};
use std::alloc::Global;
use std::process::Abort;
use std::test::Fail;

const A: &str = "aaaaaaaa-aaaa-aaaa-aaaa-aaaaaaaaaaaa";

fn set(alloc: Global, spans: &str) -> Result<GtidSet, Fail> {
    let text = format!(in alloc; "{A}:{spans}")?;
    Ok(GtidSet::parse(alloc, text.as_bytes())?)
}

fn fault(alloc: Global, text: &str) -> Option<TextFault> {
    GtidSet::parse(alloc, text.as_bytes()).err()
}

fn has_text(alloc: Global, set: &GtidSet, spans: &str) -> Result<bool, Fail> {
    let text = format!(in alloc; "{A}:{spans}")?;
    let written = set.write_text(alloc)?;
    Ok(written.as_slice() == text.as_bytes())
}

const MIXED: &str =
    "aaaaaaaa-aaaa-aaaa-aaaa-aaaaaaaaaaaa:1-3:7, 00000000-0000-0000-0000-000000000001:5";

const SORTED: &str =
    "00000000-0000-0000-0000-000000000001:5,aaaaaaaa-aaaa-aaaa-aaaa-aaaaaaaaaaaa:1-3:7";

const SPACED: &str = " AAAAAAAA-aaaa-aaaa-aaaa-aaaaaaaaaaaa : 6 - 9 : 1-3\t:\n4:8 ";

const JOINED: &str = "aaaaaaaa-aaaa-aaaa-aaaa-aaaaaaaaaaaa:1-4:6-9";

const BLANKS: &str = " \t\r\n";

fn is_written_as(alloc: Global, text: &str, canonical: &str) -> Result<bool, Fail> {
    let set = GtidSet::parse(alloc, text.as_bytes())?;
    let written = set.write_text(alloc)?;
    Ok(written.as_slice() == canonical.as_bytes())
}

#[test]
fn texts_are_canonical(rt: HostRuntime) -> Result<(), Fail> {
    let alloc = rt.alloc();
    assert!(rt; is_written_as(alloc, MIXED, SORTED)?);
    assert!(rt; is_written_as(alloc, SPACED, JOINED)?);
    assert!(rt; is_written_as(alloc, BLANKS, "")?);
    assert_eq!(rt; GtidSet::parse(alloc, MIXED.as_bytes())?.count(), 5);
    assert!(rt; GtidSet::parse(alloc, BLANKS.as_bytes())?.is_empty());
    Ok(())
}

// Of two sets: what the first has alone, what both have, and what either has.
fn leaves(alloc: Global, one: &str, two: &str, rest: &str) -> Result<bool, Fail> {
    let left = set(alloc, one)?.subtract(alloc, &set(alloc, two)?)?;
    has_text(alloc, &left, rest)
}

fn share(alloc: Global, one: &str, two: &str, shared: &str) -> Result<bool, Fail> {
    let both = set(alloc, one)?.intersect(alloc, &set(alloc, two)?)?;
    has_text(alloc, &both, shared)
}

fn join(alloc: Global, one: &str, two: &str, joined: &str) -> Result<bool, Fail> {
    let either = set(alloc, one)?.union(alloc, &set(alloc, two)?)?;
    has_text(alloc, &either, joined)
}

const SEVENTH: Gtid = Gtid {
    source: [0xaa; 16],
    number: 7,
};

// A copy to which one is added is the larger set.
fn grows(rt: &impl Abort, alloc: Global, small: &GtidSet) -> Result<(), Fail> {
    let mut large = small.try_copy(alloc)?;
    large.add(SEVENTH)?;
    assert!(rt; small.is_subset(&large) && !large.is_subset(small));
    assert!(rt; large.contains(SEVENTH));
    assert!(rt; has_text(alloc, &large, "1-5:7")?);
    Ok(())
}

#[test]
fn operations_make_one_list_of_runs(rt: HostRuntime) -> Result<(), Fail> {
    let alloc = rt.alloc();
    assert!(rt; leaves(alloc, "1-5", "2-3", "1:4-5")?);
    assert!(rt; share(alloc, "1-5", "4-9", "4-5")?);
    assert!(rt; join(alloc, "1-5", "6", "1-6")?);
    grows(&rt, alloc, &set(alloc, "1-5")?)
}

#[test]
fn the_first_fault_is_named(rt: HostRuntime) -> Result<(), Fail> {
    let alloc = rt.alloc();
    let rows = [
        (
            "aaaaaaaa-aaaa-aaaa-aaaa-aaaaaaaaaaaa:3-2",
            TextFault::BadInterval { at: 37 },
        ),
        (
            "aaaaaaaa-aaaa-aaaa-aaaa-aaaaaaaaaaaa:0",
            TextFault::BadNumber { at: 37 },
        ),
        (
            "aaaaaaaa-aaaa-aaaa-aaaa-aaaaaaaaaaaa",
            TextFault::BadInterval { at: 36 },
        ),
        ("x", TextFault::BadUuid { at: 0 }),
        (
            "aaaaaaaa-aaaa-aaaa-aaaa-aaaaaaaaaaaa: 05",
            TextFault::BadNumber { at: 38 },
        ),
        (
            "aaaaaaaa-aaaa-aaaa-aaaa-aaaaaaaaaaaa:9223372036854775807",
            TextFault::BadNumber { at: 37 },
        ),
        (
            "aaaaaaaa-aaaa-aaaa-aaaa-aaaaaaaaaaaa:1-2 x",
            TextFault::Trailing { at: 41 },
        ),
        (
            "aaaaaaaa-aaaa-aaaa-aaaa-aaaaaaaaaaaa:1-2-3",
            TextFault::Trailing { at: 40 },
        ),
        (
            "aaaaaaaa-aaaa-aaaa-aaaa-aaaaaaaaaaaa:1, ",
            TextFault::BadUuid { at: 40 },
        ),
    ];
    for (text, expected) in rows.iter() {
        assert!(rt; fault(alloc, *text) == Some(*expected));
    }
    Ok(())
}

const BYTES: &[u8] = b"\0\0\0\x01\
    \xaa\xaa\xaa\xaa\xaa\xaa\xaa\xaa\xaa\xaa\xaa\xaa\xaa\xaa\xaa\xaa\
    \0\0\0\x01\0\0\0\0\0\0\0\x01\0\0\0\0\0\0\0\x03";

fn spelled(alloc: Global, set: &GtidSet) -> Result<Vec<u8>, Fail> {
    let mut packer = Packer::new(alloc);
    set.write_bytes(&mut packer)?;
    Ok(packer.finish())
}

fn read(rt: &impl Abort, alloc: Global, bytes: &[u8]) -> Result<GtidSet, Fail> {
    let mut cutter = Cutter::new(bytes);
    let set = GtidSet::read_bytes(alloc, &mut cutter)?;
    assert_eq!(rt; cutter.at(), 40);
    Ok(set)
}

#[test]
fn bytes_are_read_back(rt: HostRuntime) -> Result<(), Fail> {
    let alloc = rt.alloc();
    assert!(rt; spelled(alloc, &set(alloc, "1-3")?)?.as_slice() == BYTES);
    assert!(rt; has_text(alloc, &read(&rt, alloc, BYTES)?, "1-3")?);
    Ok(())
}
