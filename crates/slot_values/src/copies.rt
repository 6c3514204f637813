// Copies of values and votes.
ghost use Rattle.std.specs.Prelude.{◌≡◌, IfOk};
ghost use Rattle.gr_ids.specs.declared.memory.Memory.{Memory};

use crate::value::{Value, Vote, What};
use gr_ids::Memory;
use std::alloc::Global;

impl What {
    /// A copy. Linear in its bytes.
    pub fn try_copy(&self, alloc: Global) -> Result<What, Memory>
        ensures { IfOk result (λ copy. copy ≡ self.now) }
    {
        Ok(match self {
            What::Noop => What::Noop,
            What::Add(joiner) => What::Add(*joiner),
            What::Remove(inc) => What::Remove(*inc),
            What::Body(bytes) => What::Body(bytes.try_copy(alloc)?),
        })
    }
}

impl Value {
    /// A copy. Linear in its bytes.
    pub fn try_copy(&self, alloc: Global) -> Result<Value, Memory>
        ensures { IfOk result (λ copy. copy ≡ self.now) }
    {
        Ok(Value {
            id: self.id,
            what: self.what.try_copy(alloc)?,
        })
    }
}

impl Vote {
    /// A copy. Linear in the bytes of its value.
    pub fn try_copy(&self, alloc: Global) -> Result<Vote, Memory>
        ensures { IfOk result (λ copy. copy ≡ self.now) }
    {
        Ok(Vote {
            slot: self.slot,
            ballot: self.ballot,
            value: self.value.try_copy(alloc)?,
        })
    }
}
