// The marks that a member's step leaves in its history and in the output.
use crate::answers::Answer;
use gr_ids::{Ballot, Gtid, Inc, MemberState, Pos, SessionId, ValueId};
use gtid_sets::GtidSet;
use slot_values::Value;

/// What an entry does.
#[derive(Clone, Copy, Debug, PartialEq, Eq)]
pub enum Effect {
    /// What it says takes effect.
    Plain,
    /// It has no effect.
    Void,
    /// Its body isn't in the grammar; it has no effect.
    Unread,
    /// It holds a transaction, which is certified and gets this GTID.
    Positive(Gtid),
    /// It holds a transaction, which is refused for that of this GTID.
    Conflict(Gtid),
}

/// Why a member has come to a state.
#[derive(Debug, Drop)]
pub enum Cause {
    /// It is one of the founders.
    Founded,
    /// Its server was started.
    Started,
    /// It took its first Welcome.
    Welcomed,
    /// It took its own Online entry.
    OwnOnline,
    /// It took its own Remove.
    Removed,
    /// It was told that it is no member any more.
    Gone,
    /// It hasn't reached a majority for too long.
    Majority,
    /// It has these transactions, which the group hasn't.
    Extra(GtidSet),
    /// So many asks for a donor failed.
    NoDonor(u32),
}

/// The reply to an operator's action or to a worker's result.
#[derive(Clone, Copy, Debug, PartialEq, Eq)]
pub enum Reply {
    /// The own value that was made.
    Sent(ValueId),
    /// The ballot promised after a campaign.
    Ballot(Ballot),
    /// This donor is asked.
    Asked(Inc),
    /// The pending ask has failed.
    Failed,
    Finished,
    /// The member's state doesn't allow the action.
    NotOnline(MemberState),
    NoAskDue,
    NoAskPending,
    NotQueued(Pos),
    AlreadyDone(Pos),
}

/// What an event leaves in a member's history.
#[derive(Debug, Drop)]
pub enum Mark {
    /// The entry at this place is taken.
    Took(Pos, Value, Effect),
    /// The value of this slot isn't kept.
    Skipped(u64, ValueId),
    /// The queued place is done.
    Done(Pos),
    /// The transaction is committed here.
    Committed(Gtid),
    State(MemberState, Cause),
    /// A donor's Give for this place came, with so many transactions.
    Given(Pos, u64),
    Answered(SessionId, Answer),
    Replied(Reply),
}
