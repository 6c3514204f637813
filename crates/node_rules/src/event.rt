// What a node is given.
use paxos_forms::Message;
use slot_values::Value;

/// What can happen to a node, but for the taking of a decided slot.
#[derive(Debug, Drop)]
pub enum PaxosEvent {
    /// A message came.
    Heard(Message),
    /// A new own value is to be proposed.
    Own(Value),
    /// The node is to lead, at a ballot above all that it has met.
    Campaign,
    /// A unit of time passed.
    Tick,
    /// Slots were taken: a leader proposes what waited for them.
    Propose,
}
