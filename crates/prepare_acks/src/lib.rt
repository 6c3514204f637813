//! Acknowledgements: who has yet to prepare an AFTER transaction.
#![tactic(auto)]

mod acks;
mod laws;

pub use acks::Acks;
pub use laws::{
    awaited_are_those_of_the_rules, complete_where_nobody_is_awaited,
    required_are_those_at_its_place, requiring_gtids_are_those_of_the_rules,
    sent_gtids_are_those_of_the_rules,
};
