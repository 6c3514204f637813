//! A log under the turn, and threads that push to it: what the turn's contract gives to its callers.
#![tactic(auto)]

mod calls;
mod kept;
#[cfg(test)]
mod tests;

pub use calls::{both, push};
pub use kept::Log;
