//! How an incarnation joins the group: its asks from its Welcome on, and what a donor gave, read.
#![tactic(auto)]

mod given_txn;
mod joining;
mod laws;
mod reading;

pub use given_txn::GivenTxn;
pub use joining::Joining;
pub use laws::{
    gives_are_read_back, joinings_are_those_of_the_rules, joinings_tell_what_the_rules_tell,
};
pub use reading::{is_possible, read_given};
