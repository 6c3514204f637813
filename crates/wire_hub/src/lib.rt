//! Mailboxes between the members of a group: one for each member, which all members send to and it alone takes from.
//!
//! A mailbox is an unbounded queue that threads share. What a caller knows of it lies in a pass: a `SendPass` knows what it sent to
//! each member, a `TakePass` what it took. Of each sender the letters come out whole, once, and in the order in which they were sent
//! (first in, first out for each sender); between senders there is no order.
#![tactic(auto)]

mod closing;
mod hub;
mod letter;
mod mailbox;
mod opening;
mod passes;
mod plays;
#[cfg(test)]
mod tests;
mod view;

pub use letter::Letter;
pub use passes::{Hub, SendPass, TakePass};
