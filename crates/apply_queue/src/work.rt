// What a worker does.
ghost use Rattle.std.specs.Prelude.{◌≡◌, true, IfOk};
ghost use Rattle.gr_ids.specs.declared.memory.Memory.{Memory};
ghost use Rattle.apply_queue.specs.Works.{AreDecoded, spells_txn};

use gr_ids::{Blob, Gtid, Memory, Pos, Sequence};
use key_items::{Change, WriteSet};
use std::alloc::Global;
use txn_forms::{Body, BodyFault, Txn, decode};

/// A queued transaction, whose body spells one.
#[derive(Debug, Drop)]
pub struct Work {
    pub place: Pos,
    pub gtid: Gtid,
    pub body: Blob,
    ghost spells: { spells_txn body ≡ true },
}

/// A worker's result: the changes that the bytes of the place spell, and the items that they write.
#[derive(Debug, Drop)]
pub struct WorkDone {
    pub place: Pos,
    pub body: Blob,
    pub changes: Sequence<Change>,
    pub items: WriteSet,
    ghost decoded: { AreDecoded body changes items },
}

impl WorkDone {
    /// Does the work. Linear in the bytes.
    pub fn of(alloc: Global, work: Work) -> Result<WorkDone, Memory>
        ensures { IfOk result (λ d. (d.place ≡ work.place) × (d.body ≡ work.body)) }
    {
        let Work {
            place,
            gtid: _,
            body,
        } = work;
        let txn = txn_of(alloc, &body)?;
        Ok(WorkDone {
            place,
            body,
            changes: txn.changes,
            items: txn.items,
        })
    }
}

fn txn_of(alloc: Global, body: &Blob) -> Result<Txn, Memory>
    requires { spells_txn body.now ≡ true }
    ensures { IfOk result (λ txn. AreDecoded body.now txn.changes txn.items) }
{
    match decode(alloc, body.as_slice()) {
        Ok(Body::Txn(txn)) => Ok(txn),
        Ok(_) => unreachable!(),
        Err(BodyFault::Memory) => Err(Memory),
        Err(BodyFault::BadBody { at: _ }) => unreachable!(),
    }
}
