// Copies of the data of an Add.
use crate::at_add::AtAdd;
use gr_ids::Memory;
use paxos_forms::{TryCopy, copied};
use std::alloc::Global;

impl TryCopy for AtAdd {
    fn try_copy(&self, alloc: Global) -> Result<Self, Memory> {
        Ok(AtAdd {
            place: self.place,
            blocks: self.blocks,
            last: copied(alloc, self.last.as_slice())?,
            items: copied(alloc, self.items.as_slice())?,
            told: copied(alloc, self.told.as_slice())?,
            parts: copied(alloc, self.parts.as_slice())?,
        })
    }
}
