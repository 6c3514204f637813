use gr_ids::{Blob, Memory};
use key_items::{Item, WriteSet};
use std::alloc::Global;
use std::process::Abort;
use std::test::Fail;

fn item(alloc: Global, table: &[u8], key: &[u8]) -> Result<Item, Memory> {
    Ok(Item {
        table: Blob::of(alloc, table)?,
        key: Blob::of(alloc, key)?,
    })
}

fn add(alloc: Global, set: &mut WriteSet, table: &[u8], key: &[u8]) -> Result<bool, Memory> {
    set.add(item(alloc, table, key)?)
}

fn add_all(rt: &impl Abort, alloc: Global, set: &mut WriteSet) -> Result<(), Fail> {
    let keys = [b"b".as_slice(), b"a", b"b", b"", b"ab"];
    let new = [true, true, false, true, true];
    for (key, new) in keys.iter().zip(new.iter()) {
        assert!(rt; add(alloc, set, b"t", key)? == *new);
    }
    Ok(())
}

/// Whether the item of this key stands at this index, and the set has it.
fn is_at(alloc: Global, set: &WriteSet, index: u32, key: &[u8]) -> Result<bool, Memory> {
    let expected = item(alloc, b"t", key)?;
    Ok(set.at(index) == Some(&expected) && set.contains(&expected))
}

fn check_order(rt: &impl Abort, alloc: Global, set: &WriteSet) -> Result<(), Fail> {
    let ascending = [b"".as_slice(), b"a", b"ab", b"b"];
    for (index, key) in ascending.iter().enumerate() {
        assert!(rt; is_at(alloc, set, index as u32, key)?);
    }
    assert_eq!(rt; set.len(), 4);
    assert!(rt; set.at(4).is_none());
    Ok(())
}

fn check_shared(rt: &impl Abort, alloc: Global, set: &WriteSet) -> Result<(), Fail> {
    let mut other = WriteSet::new(alloc);
    let _ = add(alloc, &mut other, b"s", b"b")?;
    assert!(rt; !set.shares(&other));
    let _ = add(alloc, &mut other, b"t", b"ab")?;
    assert!(rt; set.shares(&other) && other.shares(set));
    Ok(())
}

#[test]
fn write_sets_hold_each_item_once(rt: HostRuntime) -> Result<(), Fail> {
    let mut set = WriteSet::new(rt.alloc());
    add_all(&rt, rt.alloc(), &mut set)?;
    check_order(&rt, rt.alloc(), &set)?;
    check_shared(&rt, rt.alloc(), &set)
}
