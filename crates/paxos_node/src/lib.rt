//! One node of the ordering by Multi-Paxos: acceptor, learner and perhaps leader, and the log that it takes.
#![tactic(auto)]

mod campaigning;
mod leading;
mod learning;
mod node;
mod order;
mod proposing;
mod sending;
mod step;
mod taking;
mod ticking;
mod told;
mod turns;
mod voting;
mod welcoming;

pub use node::Node;
pub use order::{is_for, is_in_order};
