//! Messages between members: those of Multi-Paxos, and those by which an incarnation joins and recovers.
#![tactic(auto)]

mod codec;
mod copies;
mod donors;
mod fault;
mod fits;
mod gives;
mod incs;
mod laws;
mod members;
mod message;
mod recovery;
mod told_sets;
mod welcome;
mod welcomes;
mod wires;

pub use codec::{decode, encode};
pub use copies::{TryCopy, copied};
pub use fault::MessageFault;
pub use laws::{bytes_of_messages, no_message_begins_another};
pub use message::{Message, Wire};
pub use recovery::{Ask, Give, Given};
pub use welcome::{Welcome, WelcomeMember};
