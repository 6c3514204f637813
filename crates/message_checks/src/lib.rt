//! Whether a message is within the ranges of its form, so that it can be spelt.
#![tactic(auto)]

mod chains;
mod given;
mod gives;
mod incs;
mod kept;
mod messages;
mod names;
mod values;
mod welcomes;

pub use gives::{is_ask, is_give};
pub use messages::is_message;
pub use names::{is_ballot, is_gtid, is_id, is_inc};
pub use values::{is_joiner, is_value};
pub use welcomes::is_welcome;
