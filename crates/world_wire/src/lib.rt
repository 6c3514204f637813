//! The messages that were ever sent in the world that a script plays in, and which of them may be delivered next.
#![tactic(auto)]

mod amount;
mod fault;
mod lane;
mod lanes;
mod letter;
mod letters;
mod wire;

pub use fault::WireFault;
pub use letter::Letter;
pub use wire::Wire;
