// The row that a transaction sees.
ghost use Rattle.std.specs.Prelude.{◌≡◌, IfOk, List, Option, ℕ, option_copied};
ghost use Rattle.gr_ids.specs.declared.memory.Memory.{Memory};
ghost use Rattle.group_rules.specs.Rows.{changed_row, row_after};
ghost use Rattle.row_store.specs.Chains.{row_at};
ghost use Rattle.local_sessions.specs.Changing.{row_or};

use crate::session::Session;
use gr_ids::{Blob, Memory};
use key_items::{Change, ChangeKind, Item};
use row_store::Store;
use std::alloc::Global;

/// A copy of the row: what the transaction itself wrote last, else what the transactions of the set that it reads left.
/// Linear in its changes and in the row.
pub(crate) fn row_seen(
    alloc: Global,
    session: &Session,
    store: &Store,
    item: &Item,
) -> Result<Option<Blob>, Memory>
    ensures { IfOk result (λ row. row ≡ changed_row item.now (row_at store.now item.now session.now.set) session.now.changes) }
{
    match last_write(session.changes.as_slice(), item) {
        Some(what) => written(alloc, what),
        None => copied(alloc, store.get_at(item, &session.set)),
    }
}

// What the last change of the item does.
fn last_write<'a>(changes: &'a [Change], item: &Item) -> Option<&'a ChangeKind>
    ensures { (r : Option (List ℕ)) → changed_row item.now r changes.now ≡ row_or (option_copied result) r }
{
    let mut rest = changes;
    while let Some((change, earlier)) = rest.split_last() {
        if change.item == *item {
            return Some(&change.what);
        }
        rest = earlier;
    }
    None
}

// The row that such a change leaves.
fn written(alloc: Global, what: &ChangeKind) -> Result<Option<Blob>, Memory>
    ensures { IfOk result (λ row. row ≡ row_after what.now) }
{
    match what {
        ChangeKind::Insert(row) => Ok(Some(row.try_copy(alloc)?)),
        ChangeKind::Update(row) => Ok(Some(row.try_copy(alloc)?)),
        ChangeKind::Delete => Ok(None),
    }
}

fn copied(alloc: Global, row: Option<&Blob>) -> Result<Option<Blob>, Memory>
    ensures { IfOk result (λ copy. copy ≡ option_copied row.entry) }
{
    match row {
        Some(row) => Ok(Some(row.try_copy(alloc)?)),
        None => Ok(None),
    }
}
