// What a server keeps while an incarnation of it runs.
ghost use Rattle.std.specs.Prelude.{IfOk, OnErr, OnOk};
ghost use Rattle.gr_ids.specs.declared.memory.Memory.{Memory};
ghost use Rattle.group_rules.specs.Events.{Stored};
ghost use Rattle.kept_server.specs.Keeping.{KeptFor};
ghost use Rattle.kept_server.specs.Redoing.{LeadTo};
ghost use Rattle.member_core.specs.Ledgers.{IsLedger};

use gr_ids::Memory;
use kept_server::KeptServer;
use paxos_forms::Given;
use std::alloc::Global;

/// What a server had when its incarnation started, and the transactions that this one committed up to the end of its last step, in the order of their commits.
#[derive(Debug, Drop)]
pub struct Ledger {
    pub before: KeptServer,
    pub since: Vec<Given>,
}

impl Ledger {
    /// Nothing is committed since; takes no memory.
    pub(crate) fn new(alloc: Global, before: KeptServer) -> Ledger
        ensures { (y : Stored) → KeptFor y before → IsLedger y y result }
    {
        Ledger {
            before,
            since: Vec::new(alloc),
        }
    }

    /// These are committed too. After want of memory none is noted. Linear in them, where the cost of growing is spread over such calls.
    pub(crate) fn note(&mut self, committed: Vec<Given>) -> Result<(), Memory>
        ensures ok { OnOk result ((y z w : Stored) → IsLedger y z self.old → LeadTo z committed.items w → IsLedger y w self.new) }
        ensures err { OnErr result ((y z : Stored) → IsLedger y z self.old → IsLedger y z self.new) }
    {
        let mut more = committed;
        self.since.append(&mut more)?;
        Ok(())
    }

    /// What the server has now: all that was committed since is committed over what it had. Linear in the bytes of these, and for each change logarithmic in the
    /// rows, besides the executed set.
    pub(crate) fn redo(self, alloc: Global) -> Result<KeptServer, Memory>
        ensures { IfOk result (λ k. (y z : Stored) → IsLedger y z self → KeptFor z k) }
    {
        let Ledger { before, since } = self;
        before.redo(alloc, since)
    }
}
