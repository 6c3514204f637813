// What a begin waits for.
use gr_ids::{Gtid, Pos, Sequence, ValueId};

/// The conditions of a begin, fixed at its call (MySQL 8.0 Reference Manual, Group Replication: Transaction Consistency Guarantees).
#[derive(Debug, Drop)]
pub struct Conditions {
    /// These AFTER transactions are to be committed here.
    pub after: Sequence<Gtid>,
    /// All that is certified before the place of this Sync is to be committed here.
    pub sync: Option<ValueId>,
    /// All that is certified before this place of an election is to be committed here.
    pub elected: Option<Pos>,
    /// All that is certified before this place of the own Online entry is to be committed here.
    pub online: Option<Pos>,
}

/// A certified transaction that isn't committed here.
#[derive(Clone, Copy, Debug, PartialEq, Eq)]
pub struct Pending {
    pub place: Pos,
    pub gtid: Gtid,
}
