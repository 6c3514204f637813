// Values and votes.
use gr_ids::{Ballot, Blob, Inc, ValueId};

/// An incarnation as an Add names it, with what an election of a primary looks at.
#[derive(Clone, Copy, Debug, PartialEq, Eq)]
pub struct Joiner {
    pub inc: Inc,
    pub uuid: [u8; 16],
    /// The server's version: major, minor, patch.
    pub version: [u64; 3],
    /// `group_replication_member_weight`, 0 to 100.
    pub weight: u8,
}

/// What a value says.
#[derive(Debug, Drop)]
pub enum What {
    /// Nothing: a leader fills a slot with it. Its identity has the proposer as origin and number 0, and it is never kept.
    Noop,
    /// An incarnation becomes a member.
    Add(Joiner),
    /// An incarnation ceases to be a member.
    Remove(Inc),
    /// The bytes of a body: a transaction, or news of a member.
    Body(Blob),
}

/// A value: what one slot decides.
#[derive(Debug, Drop)]
pub struct Value {
    pub id: ValueId,
    pub what: What,
}

/// A vote of an acceptor: in a slot, at a ballot, for a value (Multi-Paxos).
#[derive(Debug, Drop)]
pub struct Vote {
    pub slot: u64,
    pub ballot: Ballot,
    pub value: Value,
}
