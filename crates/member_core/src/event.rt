// What happens to a member, and what its step leaves.
use apply_queue::WorkDone;
use gr_ids::{Pos, SessionId};
use group_rules::{Mark, Operator, Request};
use member_messages::Outgoing;
use paxos_forms::Message as Letter;

/// What can happen to a member.
#[derive(Debug, Drop)]
pub enum Event {
    /// A message comes.
    Message(Letter),
    Tick,
    /// A worker hands back the result of a place.
    Done(WorkDone),
    /// A worker hands back a place that isn't queued.
    Undone(Pos),
    Session(SessionId, Request),
    Operate(Operator),
}

/// What a step leaves: its marks, in order, and the messages that it sends, in theirs.
#[derive(Debug, Drop)]
pub struct StepLeft {
    pub marks: Vec<Mark>,
    pub sent: Vec<Outgoing>,
}
