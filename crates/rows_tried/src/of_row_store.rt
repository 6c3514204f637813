ghost use Rattle.std.specs.Prelude.{◌≡◌};

use gr_ids::{Blob, Gtid, Memory, Sequence};
use gtid_sets::GtidSet;
use key_items::{Change, ChangeKind, Item};
use row_store::{RowFault, Store};
use std::alloc::Global;
use std::process::Abort;
use std::test::Fail;

fn item(alloc: Global, key: u8) -> Result<Item, Memory> {
    Ok(Item {
        table: Blob::of(alloc, b"t")?,
        key: Blob::of(alloc, &[key])?,
    })
}

fn gtid(number: u64) -> Gtid
    ensures { result.number ≡ number }
{
    Gtid {
        source: [7; 16],
        number,
    }
}

/// What becomes of a row.
#[derive(Clone, Copy)]
enum Made {
    Inserted,
    Updated,
    Deleted,
}

/// A change of the row of this key, to this value.
#[derive(Clone, Copy)]
struct Wanted {
    made: Made,
    key: u8,
    row: &'static [u8],
}

fn insert(key: u8, row: &'static [u8]) -> Wanted {
    Wanted {
        made: Made::Inserted,
        key,
        row,
    }
}

fn update(key: u8, row: &'static [u8]) -> Wanted {
    Wanted {
        made: Made::Updated,
        key,
        row,
    }
}

fn delete(key: u8) -> Wanted {
    Wanted {
        made: Made::Deleted,
        key,
        row: b"",
    }
}

fn kind(alloc: Global, wanted: &Wanted) -> Result<ChangeKind, Memory> {
    match wanted.made {
        Made::Inserted => Ok(ChangeKind::Insert(Blob::of(alloc, wanted.row)?)),
        Made::Updated => Ok(ChangeKind::Update(Blob::of(alloc, wanted.row)?)),
        Made::Deleted => Ok(ChangeKind::Delete),
    }
}

fn change(alloc: Global, wanted: &Wanted) -> Result<Change, Memory> {
    Ok(Change {
        item: item(alloc, wanted.key)?,
        what: kind(alloc, wanted)?,
    })
}

fn changes(alloc: Global, all: &[Wanted]) -> Result<Vec<Change>, Memory> {
    let mut changes = Vec::new(alloc);
    for wanted in all.iter() {
        changes.push(change(alloc, wanted)?)?;
    }
    Ok(changes)
}

fn apply(alloc: Global, store: &mut Store, number: u64, all: &[Wanted]) -> Result<(), Memory> {
    let changes = changes(alloc, all)?;
    store.room(&changes)?;
    store.apply(Sequence::from_vec(changes), gtid(number));
    Ok(())
}

fn set(alloc: Global, numbers: &[u64]) -> Result<GtidSet, Memory> {
    let mut set = GtidSet::new(alloc);
    for number in numbers {
        if *number >= 1 && *number < 100 {
            set.add(gtid(*number))?;
        }
    }
    Ok(set)
}

fn is(found: Option<&Blob>, row: &[u8]) -> bool {
    match found {
        Some(blob) => blob.as_slice() == row,
        None => row.is_empty(),
    }
}

/// The rows of the keys a and b that a set of these numbers sees; none is empty.
#[derive(Clone, Copy)]
struct Seen {
    numbers: &'static [u64],
    a: &'static [u8],
    b: &'static [u8],
}

fn rows_at(numbers: &'static [u64], a: &'static [u8], b: &'static [u8]) -> Seen {
    Seen { numbers, a, b }
}

fn sees(alloc: Global, store: &Store, view: &GtidSet, key: u8, row: &[u8]) -> Result<bool, Memory> {
    let item = item(alloc, key)?;
    Ok(is(store.get_at(&item, view), row))
}

fn check_seen(rt: &impl Abort, alloc: Global, store: &Store, seen: &Seen) -> Result<(), Fail> {
    let view = set(alloc, seen.numbers)?;
    assert!(rt; sees(alloc, store, &view, b'a', seen.a)?);
    assert!(rt; sees(alloc, store, &view, b'b', seen.b)?);
    assert!(rt; sees(alloc, store, &view, b'c', b"")?);
    Ok(())
}

fn check_all_seen(rt: &impl Abort, alloc: Global, store: &Store) -> Result<(), Fail> {
    let all = [
        rows_at(&[], b"", b""),
        rows_at(&[1], b"2", b"1"),
        rows_at(&[1, 4], b"2", b""),
        rows_at(&[1, 3], b"3", b"4"),
        rows_at(&[1, 3, 4], b"3", b"4"),
        rows_at(&[4], b"", b""),
        rows_at(&[3], b"3", b"4"),
    ];
    for seen in all.iter() {
        check_seen(rt, alloc, store, seen)?;
    }
    Ok(())
}

fn has(alloc: Global, store: &Store, key: u8, row: &[u8]) -> Result<bool, Memory> {
    let item = item(alloc, key)?;
    Ok(is(store.get(&item), row))
}

fn check_last(rt: &impl Abort, alloc: Global, store: &Store) -> Result<(), Fail> {
    assert!(rt; has(alloc, store, b'a', b"3")?);
    assert!(rt; has(alloc, store, b'b', b"4")?);
    assert!(rt; has(alloc, store, b'c', b"")?);
    Ok(())
}

/// Whether the row at this place among all rows is the one of this key.
fn is_row(alloc: Global, store: &Store, at: usize, key: u8, value: &[u8]) -> Result<bool, Memory> {
    let rows = store.rows(alloc)?;
    let item = item(alloc, key)?;
    match rows.as_slice().get(at) {
        Some(row) => Ok(row.item == item && row.value.as_slice() == value),
        None => Ok(false),
    }
}

fn check_rows(rt: &impl Abort, alloc: Global, store: &Store) -> Result<(), Fail> {
    assert_eq!(rt; store.rows(alloc)?.as_slice().len(), 2);
    assert!(rt; is_row(alloc, store, 0, b'a', b"3")?);
    assert!(rt; is_row(alloc, store, 1, b'b', b"4")?);
    Ok(())
}

fn fill(alloc: Global, store: &mut Store) -> Result<(), Memory> {
    let first = [insert(b'a', b"1"), insert(b'b', b"1"), update(b'a', b"2")];
    let later = [update(b'a', b"3"), insert(b'b', b"4")];
    apply(alloc, store, 1, &first)?;
    apply(alloc, store, 4, &[delete(b'b')])?;
    apply(alloc, store, 3, &later)
}

#[test]
fn a_set_sees_what_its_transactions_left(rt: HostRuntime) -> Result<(), Fail> {
    let mut store = Store::new(rt.alloc());
    fill(rt.alloc(), &mut store)?;
    check_all_seen(&rt, rt.alloc(), &store)?;
    check_all_seen(&rt, rt.alloc(), &store.try_copy(rt.alloc())?)?;
    check_last(&rt, rt.alloc(), &store)?;
    check_rows(&rt, rt.alloc(), &store)
}

/// A change behind those that the transaction has made itself, and why it doesn't fit, if so.
#[derive(Clone, Copy)]
struct Fitting {
    wanted: Wanted,
    fault: Option<RowFault>,
}

fn fits(wanted: Wanted) -> Fitting {
    Fitting {
        wanted,
        fault: None,
    }
}

fn is_refused(wanted: Wanted, fault: RowFault) -> Fitting {
    Fitting {
        wanted,
        fault: Some(fault),
    }
}

fn check_fit(
    rt: &impl Abort,
    alloc: Global,
    store: &Store,
    own: &[Change],
    fits: &Fitting,
) -> Result<(), Fail> {
    let change = change(alloc, &fits.wanted)?;
    assert!(rt; store.check(own, &change).err() == fits.fault);
    Ok(())
}

fn check_fits(
    rt: &impl Abort,
    alloc: Global,
    store: &Store,
    own: &[Wanted],
    all: &[Fitting],
) -> Result<(), Fail> {
    let own = changes(alloc, own)?;
    for fits in all.iter() {
        check_fit(rt, alloc, store, &own, fits)?;
    }
    Ok(())
}

// The row a stands; b was deleted.
fn check_both(rt: &impl Abort, alloc: Global, store: &Store) -> Result<(), Fail> {
    let alone = [
        is_refused(insert(b'a', b"2"), RowFault::DuplicateKey),
        fits(update(b'a', b"2")),
        fits(insert(b'b', b"2")),
        is_refused(delete(b'b'), RowFault::NoRow),
    ];
    let behind_own = [
        fits(insert(b'a', b"2")),
        is_refused(update(b'a', b"2"), RowFault::NoRow),
        is_refused(insert(b'b', b"2"), RowFault::DuplicateKey),
        fits(delete(b'b')),
    ];
    let own = [delete(b'a'), insert(b'b', b"1")];
    check_fits(rt, alloc, store, &[], &alone)?;
    check_fits(rt, alloc, store, &own, &behind_own)
}

#[test]
fn a_change_fits_or_not(rt: HostRuntime) -> Result<(), Fail> {
    let mut store = Store::new(rt.alloc());
    let first = [insert(b'a', b"1"), insert(b'b', b"1")];
    apply(rt.alloc(), &mut store, 1, &first)?;
    apply(rt.alloc(), &mut store, 2, &[delete(b'b')])?;
    check_both(&rt, rt.alloc(), &store)
}
