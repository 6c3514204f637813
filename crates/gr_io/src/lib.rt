//! A source of bytes and a sink of bytes, each with a count of its faults: in memory, and over std's readers and writers.
#![tactic(auto)]

mod failed;
mod memory;
mod put;
mod sink;
mod source;
mod standard;
mod sure;
#[cfg(test)]
mod tests;

pub use failed::Failed;
pub use memory::{MemSink, MemSource};
pub use put::{PutFault, put_all};
pub use sink::Sink;
pub use source::Source;
pub use standard::{StdSink, StdSource};
pub use sure::{SureSink, SureSource};
