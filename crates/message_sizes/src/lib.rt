//! How many bytes messages are spelled in, counted without spelling them.
#![tactic(auto)]

mod forms;
mod sizes;
mod sums;

pub use sizes::message_size;
pub use sums::sum;
