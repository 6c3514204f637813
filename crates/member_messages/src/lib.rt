//! What a step of a member sends: its messages in their order with their bytes, the Welcome of a joiner, and the parts of a large body.
#![tactic(auto)]

mod arranging;
mod cutting;
mod outgoing;
mod welcoming;

pub use arranging::arrange;
pub use cutting::cut_body;
pub use outgoing::Outgoing;
pub use welcoming::welcome;
