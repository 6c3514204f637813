// What sessions are told besides the answers to their calls.
use gr_ids::{Gtid, SessionId, ValueId};
use group_rules::Answer;

/// A later answer to a session's begin or commit.
#[derive(Debug, Drop)]
pub struct Answered {
    pub session: SessionId,
    pub answer: Answer,
}

/// An own transaction that was taken positive and isn't committed.
#[derive(Clone, Copy, Debug, PartialEq, Eq)]
pub struct TakenOwn {
    pub id: ValueId,
    pub gtid: Gtid,
}
