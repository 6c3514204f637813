// What a server keeps.
ghost use Rattle.std.specs.Prelude.{IfOk};
ghost use Rattle.gr_ids.specs.declared.memory.Memory.{Memory};
ghost use Rattle.group_rules.specs.Events.{Stored};
ghost use Rattle.group_rules.specs.World.{nothing_stored};
ghost use Rattle.kept_server.specs.Keeping.{IsStored, KeptFor};

use gr_ids::Memory;
use gtid_sets::GtidSet;
use paxos_forms::Given;
use row_store::Store;
use std::alloc::Global;

/// What a server has of the incarnations before the one that runs: the transactions that they committed, in the order of their commits,
/// and how many rows were written while none ran.
#[derive(Debug, Drop)]
pub struct Earlier {
    pub committed: Vec<Given>,
    pub written: u64,
}

/// What a server keeps while no incarnation of it runs: what it has executed, its rows, and the transactions that it committed.
#[derive(Debug, Drop)]
pub struct KeptServer {
    pub executed: GtidSet,
    pub store: Store,
    pub earlier: Earlier,
}

/// What a server has executed, and its rows.
#[derive(Debug, Drop)]
pub struct KeptTables {
    pub executed: GtidSet,
    pub store: Store,
}

impl KeptServer {
    /// Nothing; takes no memory.
    pub fn new(alloc: Global) -> KeptServer
        ensures { KeptFor nothing_stored result }
    {
        KeptServer {
            executed: GtidSet::new(alloc),
            store: Store::new(alloc),
            earlier: Earlier {
                committed: Vec::new(alloc),
                written: 0,
            },
        }
    }

    /// Copies of what it has executed and of its rows. For each item logarithmic in the items, and linear in the bytes of all versions.
    pub fn copy_tables(&self, alloc: Global) -> Result<KeptTables, Memory>
        ensures { IfOk result (λ x. (y : Stored) → KeptFor y self.now → IsStored y x.executed x.store self.now.earlier.committed.items) }
    {
        let executed = self.executed.try_copy(alloc)?;
        let store = self.store.try_copy(alloc)?;
        Ok(KeptTables { executed, store })
    }
}
