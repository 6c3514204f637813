//! The election of a primary, and the texts of what it looks at.
#![tactic(auto)]

mod election;
#[cfg(test)]
mod tests;
mod versions;
mod weights;

pub use election::elect;
pub use versions::{VersionFault, read_version};
pub use weights::{BadWeight, read_weight};
