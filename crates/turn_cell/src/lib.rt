//! The turn of an object that threads share: a lock over two atomic words and one slot, under which each turn extends one history
//! by one entry.
//!
//! A caller draws a ticket and waits until it is served (a ticket lock: Mellor-Crummey and Scott, "Algorithms for Scalable
//! Synchronization on Shared-Memory Multiprocessors"). The number served is the length of the history, so a caller that looks at it
//! learns how far the history goes, and waits for nobody. What a caller knows is in its `Pass`: a beginning of the history that it
//! has seen, and which turns in it are its own.
#![tactic(auto)]

mod behaviour;
mod cell;
mod lent;
mod plays;
mod view;

pub use behaviour::Behaviour;
pub use cell::{Pass, Place, Turn, TurnCell};
pub use view::{Stage, View};
