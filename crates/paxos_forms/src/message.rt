// The messages between members.
use crate::recovery::{Ask, Give};
use crate::welcome::Welcome;
use gr_ids::{Ballot, Inc, Sequence};
use slot_values::{Value, Vote};

/// What a message says. The first five and the offers are those of Multi-Paxos (Lamport, "Paxos Made Simple").
#[derive(Debug, Drop)]
pub enum Wire {
    /// Promise this ballot, and report the votes in slots from this one on.
    Prepare(Ballot, u64),
    /// The ballot is promised; the votes in slots from this one on.
    Promise(Ballot, u64, Sequence<Vote>),
    /// Vote for the value in the slot at the ballot.
    Accept(Ballot, u64, Value),
    /// The sender voted so.
    Accepted(Ballot, u64),
    /// The slot is decided with this value.
    Learn(u64, Value),
    /// Propose this value.
    Offer(Value),
    Welcome(Welcome),
    Ask(Ask),
    Give(Give),
    /// The sender lives; its least undecided slot.
    Alive(u64),
    /// The addressee is no member any more.
    Gone,
}

/// A message between two incarnations.
#[derive(Debug, Drop)]
pub struct Message {
    pub from: Inc,
    pub to: Inc,
    pub wire: Wire,
}
