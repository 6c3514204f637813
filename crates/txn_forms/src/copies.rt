// Copies of open parts.
ghost use Rattle.std.specs.Prelude.{◌≡◌, IfOk};
ghost use Rattle.gr_ids.specs.declared.memory.Memory.{Memory};

use gr_ids::{Memory, OpenParts};
use std::alloc::Global;

/// Copies of the parts. Linear in their bytes.
pub(crate) fn copied(alloc: Global, parts: &[OpenParts]) -> Result<Vec<OpenParts>, Memory>
    ensures { IfOk result (λ copy. copy.items ≡ parts.now) }
{
    let mut copy = Vec::new(alloc);
    for held in parts.iter() {
        copy.push(copy_of(alloc, held)?)?;
    }
    Ok(copy)
}

fn copy_of(alloc: Global, held: &OpenParts) -> Result<OpenParts, Memory>
    ensures { IfOk result (λ copy. copy ≡ held.now) }
{
    Ok(OpenParts {
        origin: held.origin,
        count: held.count,
        held: held.held,
        bytes: held.bytes.try_copy(alloc)?,
    })
}
