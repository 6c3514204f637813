// What a session call is answered.
use gr_ids::{Blob, Gtid, Inc, MemberState, Pos, SessionId, ValueId};
use gtid_sets::GtidSet;

/// Who holds a row lock.
#[derive(Clone, Copy, Debug, PartialEq, Eq)]
pub enum Holder {
    Session(SessionId),
    /// A transaction of another origin that is done at this place and not committed yet.
    Place(Pos, Gtid),
}

/// The answer to a session call, or the later answer to a begin or a commit.
#[derive(Debug, Drop)]
pub enum Answer {
    /// The transaction has begun and reads this set; the place of its Sync, for a level that sends one.
    Begun(GtidSet, Option<Pos>),
    /// The begin waits.
    Held,
    /// The row's value, if there is such a row.
    Got(Option<Blob>),
    /// The statement is done, and its key is locked.
    Changed,
    /// The transaction was sent as this value; a later answer ends it.
    Sent(ValueId),
    /// A transaction without changes is committed.
    CommittedEmpty,
    Committed(Gtid),
    RolledBack,
    /// The session has a transaction; or its begin is held, or its commit asked.
    Busy,
    NoTransaction,
    /// The member's state doesn't allow it.
    NotOnline(MemberState),
    /// This member isn't the primary, which is named if there is one.
    ReadOnly(Option<Inc>),
    RowLocked(Holder),
    DuplicateKey,
    NoRow,
    /// The transaction with this GTID took over a key that the session's transaction held.
    Killed(Gtid),
    /// A transaction that this one hasn't seen wrote one of its items.
    Conflict(Gtid),
    /// The begin has waited for this many ticks.
    HoldTimeout(u32),
    /// The member took ERROR.
    MemberLeft,
    /// The member took ERROR before it took the transaction's entry.
    Undecided(ValueId),
    /// The member took ERROR before all required members had prepared the transaction.
    NotAcknowledged(Gtid),
    /// The body has more than 16,777,216 bytes.
    TooLarge { bytes: u64 },
}

/// How a transaction whose commit was asked has ended.
#[derive(Clone, Copy, Debug, PartialEq, Eq)]
pub enum Outcome {
    Committed(Gtid),
    Conflict(Gtid),
}
