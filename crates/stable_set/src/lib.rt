//! The sets that members have told, and the stable set: what all ONLINE members have told to have executed.
#![tactic(auto)]

mod told;

pub use told::Told;
