// Verdicts.
use gr_ids::Gtid;

/// The verdict on a transaction (MySQL 8.0 Reference Manual, Group Replication: conflict detection, where the first to be ordered wins).
#[derive(Clone, Copy, Debug, PartialEq, Eq)]
pub enum Verdict {
    /// It is certified under this GTID.
    Positive(Gtid),
    /// It is refused: the transaction with this GTID wrote one of its items, and its member hadn't committed that one.
    Conflict(Gtid),
}
