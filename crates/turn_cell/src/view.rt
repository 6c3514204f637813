// What a seat of the turn knows. No value of it is made.
use std::collections::LinkedList;

/// Where a seat is in its calls.
pub enum Stage {
    /// In no call.
    Idle,
    /// It has drawn a ticket.
    Waiting,
    /// It has the turn.
    Acting,
    /// Another seat has just been joined with it.
    Meeting,
    /// It was joined with another seat, and is no more.
    Spent,
}

/// What a seat knows, `A` being the type of an act and `R` that of its reply.
pub struct View<A, R> {
    pub stage: Stage,
    /// Its ticket, while it waits or acts.
    pub ticket: u64,
    /// A beginning of the history.
    pub seen: LinkedList<(A, R)>,
    /// The positions of its own turns in the history.
    pub mine: LinkedList<u64>,
    /// What a seat that has just been joined with it had seen.
    pub other: LinkedList<(A, R)>,
}
