//! The sessions of one member: what each call is answered, and what becomes of their transactions.
#![tactic(auto)]

mod barring;
mod beginning;
mod changes;
mod commit_step;
mod commits;
mod committing;
mod later;
mod laws;
mod leaving;
mod listing;
mod losing;
mod reading;
mod session;
mod sessions;
mod sizes;
mod statements;
mod tables;
mod told;
mod writing;

pub use commit_step::CommitStep;
pub use laws::{
    answers_tell_what_is_done, calls_leave_what_the_rules_leave, decisions_are_those_of_the_rules,
    each_value_is_awaited_once, locks_follow_their_history, places_follow_their_queue,
    replies_are_those_of_the_rules, sessions_follow_their_history, the_left_are_told_by_the_rules,
    the_left_stay_active,
};
pub use sessions::Sessions;
pub use tables::Tables;
pub use told::{Answered, TakenOwn};
