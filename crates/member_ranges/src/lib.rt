//! A member within the ranges that the forms of messages have: what it sends can be spelt.
#![tactic(auto)]

mod sending;
mod staying;

pub use sending::what_members_send_is_spelt;
pub use staying::members_stay_in_range;
