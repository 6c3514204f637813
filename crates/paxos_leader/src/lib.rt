//! The leader of Multi-Paxos: who promised its ballot, what it proposes, who accepted, and the offers that wait.
#![tactic(auto)]

mod choosing;
mod counting;
mod incs;
mod leader;
mod missing;
mod promise;

pub use incs::{has_inc, put_inc, put_incs};
pub use leader::{Leader, Proposed};
pub use missing::Unaccepted;
pub use promise::Promise;
