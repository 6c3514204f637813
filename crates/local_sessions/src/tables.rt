// What a session call reads and writes besides its sessions.
use gr_ids::{Inc, MemberState, Mode};
use gtid_sets::GtidSet;
use row_locks::Locks;
use row_store::Store;

/// The part of a member that its sessions read and write.
#[derive(Debug, Drop)]
pub struct Tables {
    pub me: Inc,
    pub store: Store,
    pub locks: Locks,
    /// What this member has committed.
    pub executed: GtidSet,
    pub state: MemberState,
    pub mode: Mode,
    pub primary: Option<Inc>,
}
