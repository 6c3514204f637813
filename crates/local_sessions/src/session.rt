// One session with a transaction.
use crate::changes::Changes;
use gr_ids::{Gtid, MemberState, SessionId, ValueId};
use gtid_sets::GtidSet;

/// How far a session's transaction is.
#[derive(Clone, Copy, Debug, PartialEq, Eq)]
pub(crate) enum Stage {
    /// Its begin is held.
    Holding,
    /// It reads and writes.
    Active,
    /// It was rolled back by the transaction with this GTID, which took over one of its keys; the next call says so.
    Killed(Gtid),
    /// It was active when the member took ERROR; the next call says so.
    Left,
    /// Its commit is asked, and its body is about to be sent.
    Asked,
    /// Its body is sent as this value.
    Asking(ValueId),
}

/// A session that has a transaction.
#[derive(Debug, Drop)]
pub(crate) struct Session {
    pub(crate) session: SessionId,
    /// Its commit waits until every ONLINE member has prepared it.
    pub(crate) after: bool,
    /// The member's state at its begin call.
    pub(crate) state: MemberState,
    pub(crate) stage: Stage,
    /// What it reads, once it is active.
    pub(crate) set: GtidSet,
    /// What it has written, in the order made, until its body is made.
    pub(crate) changes: Changes,
}
