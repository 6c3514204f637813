// Changes of rows.
ghost use Rattle.std.specs.Prelude.{◌≡◌, IfOk};
ghost use Rattle.gr_ids.specs.declared.memory.Memory.{Memory};

use crate::item::Item;
use gr_ids::{Blob, Memory};
use std::alloc::Global;

/// What a change does to its row.
#[derive(Debug, Drop)]
pub enum ChangeKind {
    /// The row is absent and gets this value.
    Insert(Blob),
    /// The row is present and gets this value.
    Update(Blob),
    /// The row is present and is removed.
    Delete,
}

impl ChangeKind {
    /// A copy. Linear in the bytes.
    pub fn try_copy(&self, alloc: Global) -> Result<ChangeKind, Memory>
        ensures { IfOk result (λ copy. copy ≡ self.now) }
    {
        Ok(match self {
            ChangeKind::Insert(row) => ChangeKind::Insert(row.try_copy(alloc)?),
            ChangeKind::Update(row) => ChangeKind::Update(row.try_copy(alloc)?),
            ChangeKind::Delete => ChangeKind::Delete,
        })
    }
}

/// A change of one row.
#[derive(Debug, Drop)]
pub struct Change {
    pub item: Item,
    pub what: ChangeKind,
}

impl Change {
    /// A copy. Linear in the bytes.
    pub fn try_copy(&self, alloc: Global) -> Result<Change, Memory>
        ensures { IfOk result (λ copy. copy ≡ self.now) }
    {
        Ok(Change {
            item: self.item.try_copy(alloc)?,
            what: self.what.try_copy(alloc)?,
        })
    }
}
