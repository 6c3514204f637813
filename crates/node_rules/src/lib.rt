//! What one node of the ordering does, and the world of nodes: the definitions that the parts of a node meet, and over which
//! the laws of the order are proved.
#![tactic(auto)]

mod event;
mod seat;
mod taken;

pub use event::PaxosEvent;
pub use seat::Seat;
pub use taken::Taken;
