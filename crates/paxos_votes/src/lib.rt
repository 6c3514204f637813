//! The acceptor and the learner of one node: how it promises and votes, and which slots it knows to be decided.
#![tactic(auto)]

mod acceptor;
mod learner;
mod slot_maps;

pub use acceptor::{Acceptor, Voted};
pub use learner::{KnownSlot, Learner};
pub use slot_maps::forget_below;
