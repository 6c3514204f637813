//! The parts of a member that wait, watch and apply, on worked cases.
#![tactic(auto)]

#[cfg(test)]
mod of_apply_queue;
#[cfg(test)]
mod of_consistency_waits;
#[cfg(test)]
mod of_failure_events;
#[cfg(test)]
mod of_member_backlog;
#[cfg(test)]
mod of_member_own;
#[cfg(test)]
mod of_member_parts;
#[cfg(test)]
mod of_prepare_acks;
