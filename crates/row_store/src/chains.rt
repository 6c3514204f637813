// Chains of versions in their map.
ghost use Rattle.std.specs.Prelude.{◌≡◌, ◌≤◌, ◌<◌, ◌∷◌, [], true, OnOk, map};
ghost use Rattle.std.specs.List.{list_all};
ghost use Rattle.gtid_sets.specs.Sets.{Gtids, has};
ghost use Rattle.key_items.specs.declared.item.Item.{Item as AnyItem};
ghost use Rattle.key_items.specs.Items.{item_eq};
ghost use Rattle.gr_ids.specs.declared.memory.Memory.{Memory};
ghost use Rattle.group_rules.specs.Rows.{changed_row, row_after};
ghost use Rattle.row_store.specs.Chains.{has_room, row_at, row_now, row_with, spare_of, versions_of};
ghost use Rattle.row_store.specs.Inside.{chain_of, is_newest, is_ready};

use crate::version::{Version, put_version};
use gr_ids::{Blob, Gtid, Memory, Sequence};
use key_items::{Change, ChangeKind, Item};
use std::alloc::Global;
use std::collections::BTreeMap;

/// Makes room for one version more of each item. No version changes, whatever the result.
pub(crate) fn make_room(
    chains: &mut BTreeMap<Item, Vec<Version>>,
    alloc: Global,
    changes: &[Change],
) -> Result<(), Memory>
    ensures same { (i : AnyItem) → versions_of (map chain_of chains.new.entries) i ≡ versions_of (map chain_of chains.old.entries) i }
    ensures ok { OnOk result (has_room (map chain_of chains.new.entries) changes.now ≡ true) }
{
    for change in changes {
        make_one(chains, alloc, &change.item)?;
    }
    Ok(())
}

fn make_one(
    chains: &mut BTreeMap<Item, Vec<Version>>,
    alloc: Global,
    item: &Item,
) -> Result<(), Memory>
    ensures same { (i : AnyItem) → versions_of (map chain_of chains.new.entries) i ≡ versions_of (map chain_of chains.old.entries) i }
    ensures more { (i : AnyItem) → spare_of (map chain_of chains.old.entries) i ≤ spare_of (map chain_of chains.new.entries) i }
    ensures ok { OnOk result (0 < spare_of (map chain_of chains.new.entries) item.now) }
{
    match chains.get_mut(item) {
        Some(versions) => versions.reserve(1)?,
        None => {
            let mut versions = Vec::new(alloc);
            versions.reserve(1)?;
            chains.insert(item.try_copy(alloc)?, versions)?;
        }
    }
    Ok(())
}

/// Puts the versions of a transaction.
pub(crate) fn put_all(
    chains: &mut BTreeMap<Item, Vec<Version>>,
    changes: Sequence<Change>,
    gtid: Gtid,
)
    requires { list_all (λ x. is_ready gtid (map chain_of chains.old.entries) x.item) changes ≡ true }
    ensures at { (i : AnyItem) (e : Gtids) → row_at (map chain_of chains.new.entries) i e ≡ row_with gtid changes e i (row_at (map chain_of chains.old.entries) i e) }
    ensures now { (i : AnyItem) → row_now (map chain_of chains.new.entries) i ≡ changed_row i (row_now (map chain_of chains.old.entries) i) changes }
{
    for change in changes.into_vec() {
        put_one(chains, change, gtid);
    }
}

fn put_one(chains: &mut BTreeMap<Item, Vec<Version>>, change: Change, gtid: Gtid)
    requires { is_ready gtid (map chain_of chains.old.entries) change.item ≡ true }
    ensures at { (i : AnyItem) (e : Gtids) → row_at (map chain_of chains.new.entries) i e ≡ row_with gtid (change ∷ []) e i (row_at (map chain_of chains.old.entries) i e) }
    ensures now { (i : AnyItem) → row_now (map chain_of chains.new.entries) i ≡ changed_row i (row_now (map chain_of chains.old.entries) i) (change ∷ []) }
    ensures ready { (i : AnyItem) → is_ready gtid (map chain_of chains.old.entries) i ≡ true → is_ready gtid (map chain_of chains.new.entries) i ≡ true }
{
    let Change { item, what } = change;
    match chains.get_mut(&item) {
        Some(versions) => put_version(
            versions,
            Version {
                gtid,
                row: row_of(what),
            },
        ),
        None => unreachable!(),
    }
}

// The row after such a change.
fn row_of(what: ChangeKind) -> Option<Blob>
    ensures { result ≡ row_after what }
{
    match what {
        ChangeKind::Insert(row) => Some(row),
        ChangeKind::Update(row) => Some(row),
        ChangeKind::Delete => None,
    }
}
