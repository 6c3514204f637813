// Consistency levels, states of a member, modes of a group.

/// How fresh a transaction reads, and what its commit waits for
/// (MySQL 8.0 Reference Manual, `group_replication_consistency`).
#[derive(Clone, Copy, Debug, PartialEq, Eq)]
pub enum Level {
    /// Neither its begin nor its commit waits for other transactions.
    Eventual,
    /// At a new primary, its begin waits until the backlog from before the election is applied.
    BeforeOnPrimaryFailover,
    /// Its begin waits until all transactions that precede it in the group are applied.
    Before,
    /// Its commit waits until every ONLINE member has prepared it.
    After,
    /// `Before` at its begin and `After` at its commit.
    BeforeAndAfter,
}

/// A member's state (MySQL 8.0 Reference Manual, Group Replication Server States).
#[derive(Clone, Copy, Debug, PartialEq, Eq)]
pub enum MemberState {
    Offline,
    Recovering,
    Online,
    Error,
}

/// Whether one member, the primary, takes writes, or all do.
#[derive(Clone, Copy, Debug, PartialEq, Eq)]
pub enum Mode {
    Single,
    Multi,
}
