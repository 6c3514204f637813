//! The parts of a member that each entry of the ordered list changes, together: what the list has made, the watch, the donor, what waits
//! to be committed, the acknowledgements and the held begins.
#![tactic(auto)]

mod beginning;
mod certified;
mod committing;
mod entering;
mod giving;
mod holding;
mod joining;
mod laws;
mod own;
mod parts;
mod reading;
mod remotes;

pub use laws::{parts_stand_on, timeouts_are_answered_one_by_one};
pub use parts::MemberParts;
