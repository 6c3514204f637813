//! The tables of a member: what its sessions read and write, together with the sessions.
#![tactic(auto)]

mod begins;
mod calls;
mod commits;
mod entries;
mod laws;
mod leaving;
mod places;
mod tables;

pub use laws::{tables_stand_for_their_member, what_waits_may_come_next};
pub use tables::MemberTables;
