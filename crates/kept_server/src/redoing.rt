// Transactions that are committed again.
ghost use Rattle.std.specs.Prelude.{◌≡◌, IfOk, OnOk, Some, true};
ghost use Rattle.gr_ids.specs.declared.memory.Memory.{Memory};
ghost use Rattle.gtid_sets.specs.Canonical.{IsNumber};
ghost use Rattle.txn_forms.specs.declared.body.Txn.{Txn};
ghost use Rattle.txn_forms.specs.declared.body.Body.TheVariants.{Txn as Writes};
ghost use Rattle.txn_forms.specs.Bodies.{read_body};
ghost use Rattle.group_rules.specs.Events.{Cert, Stored};
ghost use Rattle.group_rules.specs.Recovery.{given_of};
ghost use Rattle.kept_server.specs.Keeping.{KeptFor};
ghost use Rattle.kept_server.specs.Redoing.{LeadTo, MayCommit, committing};

use crate::kept::KeptServer;
use gr_ids::{Blob, Memory, Sequence};
use key_items::Change;
use paxos_forms::Given;
use std::alloc::Global;
use txn_forms::{Body, decode};

/// The last number that a GTID may have.
const LAST_NUMBER: u64 = 9_223_372_036_854_775_806;

impl KeptServer {
    /// Commits these transactions, in their order, over what is kept. Linear in their bytes, and for each change logarithmic in the rows, besides the executed set.
    pub fn redo(self, alloc: Global, log: Vec<Given>) -> Result<KeptServer, Memory>
        ensures { IfOk result (λ k. (y z : Stored) → KeptFor y self → LeadTo y log.items z → KeptFor z k) }
    {
        let mut kept = self;
        for one in log {
            kept.redo_one(alloc, one)?;
        }
        Ok(kept)
    }

    fn redo_one(&mut self, alloc: Global, one: Given) -> Result<(), Memory>
        ensures { OnOk result ((y : Stored) (c : Cert) → one ≡ given_of c → MayCommit y c → KeptFor y self.old → KeptFor (committing y c) self.new) }
    {
        let gtid = one.gtid;
        if !is_number(gtid.number) {
            return Err(Memory);
        }
        let changes = changes_of(alloc, &one.body)?;
        self.store.room(changes.as_slice())?;
        self.executed.add(gtid)?;
        self.store.apply(changes, gtid);
        self.earlier.committed.push(one)?;
        Ok(())
    }
}

fn is_number(number: u64) -> bool
    ensures { result ≡ true → IsNumber number }
{
    1 <= number && number <= LAST_NUMBER
}

// The changes of a transaction. A body that spells none, which no server keeps, is answered as want of memory.
fn changes_of(alloc: Global, body: &Blob) -> Result<Sequence<Change>, Memory>
    ensures { IfOk result (λ changes. (t : Txn) → read_body body.now ≡ Some (Writes t) → changes ≡ t.changes) }
{
    match decode(alloc, body.as_slice()) {
        Ok(Body::Txn(txn)) => Ok(txn.changes),
        _ => Err(Memory),
    }
}
