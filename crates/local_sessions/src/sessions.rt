// The sessions of a member that have a transaction.
ghost use Rattle.std.specs.Prelude.{◌≡◌, [], Some};
ghost use Rattle.local_sessions.specs.Standing.{is_open, session_in, stage_of};

use crate::listing::stage_at;
use crate::session::{Session, Stage};
use gr_ids::SessionId;
use std::alloc::Global;
use std::marker::Model;

/// The sessions of a member that have a transaction, ascending (MySQL 8.0 Reference Manual: START TRANSACTION, COMMIT and ROLLBACK
/// Statements). Each call is linear in them at most, besides what it says.
#[derive(Debug, Drop)]
pub struct Sessions {
    pub(crate) list: Vec<Session>,
}

impl Model for Sessions {
    ghost use Rattle.std.specs.Prelude.{◌≡◌, List, true};
    ghost use Rattle.local_sessions.specs.Standing.{Session, ascend};

    ghost Value = { List Session };

    ghost view = { λ s. s.list.items };

    ghost invariant = { λ s. ascend s.list.items ≡ true };
}

impl Sessions {
    /// No session has a transaction; takes no memory.
    pub fn new(alloc: Global) -> Sessions
        ensures { result ≡ [] }
    {
        Sessions {
            list: Vec::new(alloc),
        }
    }
    /// Whether it has a transaction that has begun and whose commit isn't asked.
    pub fn is_open(&self, session: SessionId) -> bool
        ensures { result ≡ is_open (stage_of (session_in self.now session)) }
    {
        match stage_at(&self.list, session) {
            Some(stage) => is_open_at(&stage),
            None => false,
        }
    }
}

fn is_open_at(stage: &Stage) -> bool
    ensures { result ≡ is_open (Some stage.now) }
{
    match stage {
        Stage::Active | Stage::Killed(_) | Stage::Left => true,
        Stage::Holding | Stage::Asked | Stage::Asking(_) => false,
    }
}
