// A copy of the chains.
ghost use Rattle.std.specs.Prelude.{◌≡◌, IfOk, map, option_copied};
ghost use Rattle.gr_ids.specs.declared.memory.Memory.{Memory};
ghost use Rattle.key_items.specs.declared.item.Item.{Item as AnyItem};
ghost use Rattle.row_store.specs.Chains.{versions_of};
ghost use Rattle.row_store.specs.Inside.{chain_of};

use crate::version::Version;
use gr_ids::{Blob, Memory};
use key_items::Item;
use std::alloc::Global;
use std::collections::BTreeMap;

/// Each item with copies of its versions.
pub(crate) fn copy_chains(
    alloc: Global,
    chains: &BTreeMap<Item, Vec<Version>>,
) -> Result<BTreeMap<Item, Vec<Version>>, Memory>
    ensures { IfOk result (λ copy. (i : AnyItem) → versions_of (map chain_of copy.entries) i ≡ versions_of (map chain_of chains.now.entries) i) }
{
    let mut copy = BTreeMap::new(alloc);
    for (item, versions) in chains.iter() {
        copy.insert(item.try_copy(alloc)?, copy_versions(alloc, versions)?)?;
    }
    Ok(copy)
}

fn copy_versions(alloc: Global, versions: &[Version]) -> Result<Vec<Version>, Memory>
    ensures { IfOk result (λ copies. copies.items ≡ versions.now) }
{
    let mut copies = Vec::new(alloc);
    for version in versions {
        copies.push(copy_version(alloc, version)?)?;
    }
    Ok(copies)
}

fn copy_version(alloc: Global, version: &Version) -> Result<Version, Memory>
    ensures { IfOk result (λ copy. copy ≡ version.now) }
{
    Ok(Version {
        gtid: version.gtid,
        row: copy_row(alloc, version.row.as_ref())?,
    })
}

fn copy_row(alloc: Global, row: Option<&Blob>) -> Result<Option<Blob>, Memory>
    ensures { IfOk result (λ copy. copy ≡ option_copied row.entry) }
{
    match row {
        Some(row) => Ok(Some(row.try_copy(alloc)?)),
        None => Ok(None),
    }
}
