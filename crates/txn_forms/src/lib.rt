//! Bodies: what a transaction and the news of a member look like on the ordered list.
#![tactic(auto)]

mod body;
mod changes;
mod codec;
mod copies;
mod fault;
mod joined;
mod joining;
mod laws;
mod news;
mod parts;
mod places;
mod txns;

pub use body::{Body, ModeChange, Part, Txn};
pub use codec::{decode, encode};
pub use fault::BodyFault;
pub use joined::Joined;
pub use laws::{bytes_of_bodies, no_body_begins_another, parts_of_origins};
pub use parts::Parts;
