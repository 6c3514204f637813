// Bodies that are too large to be sent whole.
ghost use Rattle.std.specs.Prelude.{◌≡◌, ◌<◌, ◌≤◌, IfOk, length};
ghost use Rattle.std.specs.List.{AllByRecursion};
ghost use Rattle.gr_ids.specs.declared.memory.Memory.{Memory};
ghost use Rattle.txn_forms.specs.Bodies.{IsPart};
ghost use Rattle.group_rules.specs.Parts.{cut};

use gr_ids::{Blob, Memory};
use std::alloc::Global;
use txn_forms::Part;

/// The bytes of each part but the last one.
const PART_SIZE: usize = 65_523;

/// The parts in which the body of a transaction is sent that has more than 65,536 bytes, and at most 16,777,216: 65,523 bytes in each but the
/// last one. Linear in the bytes.
pub fn cut_body(alloc: Global, body: &[u8]) -> Result<Vec<Part>, Memory>
    requires { length body.now ≤ 16777216 }
    ensures cut { IfOk result (λ v. v.items ≡ cut body.now) }
    ensures fit { 65536 < length body.now → IfOk result (λ v. AllByRecursion IsPart v.items) }
{
    let count = body.len().div_ceil(PART_SIZE);
    let mut parts = Vec::new(alloc);
    let mut rest = body;
    for index in 0..count {
        let (bytes, behind) = rest.split_at(PART_SIZE.min(rest.len()));
        parts.push(Part {
            index: (index + 1) as u32,
            count: count as u32,
            bytes: Blob::of(alloc, bytes)?,
        })?;
        rest = behind;
    }
    Ok(parts)
}
