// Items: the key of a row in its table.
ghost use Rattle.std.specs.Prelude.{◌≡◌, IfOk};
ghost use Rattle.gr_ids.specs.declared.memory.Memory.{Memory};

use gr_ids::{Blob, Gtid, Memory, Pos};
use std::alloc::Global;

/// The key of one row: the name of its table, 1 to 64 bytes, and the row's key, 1 to 255 bytes.
/// Items are ordered by table, then key, as bytes.
#[derive(Debug, PartialEq, Eq, PartialOrd, Ord, Drop)]
pub struct Item {
    pub table: Blob,
    pub key: Blob,
}

impl Item {
    /// A copy. Linear in the bytes.
    pub fn try_copy(&self, alloc: Global) -> Result<Item, Memory>
        ensures { IfOk result (λ copy. copy ≡ self.now) }
    {
        Ok(Item {
            table: self.table.try_copy(alloc)?,
            key: self.key.try_copy(alloc)?,
        })
    }
}

/// An item with its last positive writer: that transaction's GTID and place.
#[derive(Debug, Drop)]
pub struct KeptItem {
    pub item: Item,
    pub gtid: Gtid,
    pub place: Pos,
}
