//! What a server keeps while no incarnation of it runs.
#![tactic(auto)]

mod kept;
mod redoing;
mod writing;

pub use kept::{Earlier, KeptServer, KeptTables};
