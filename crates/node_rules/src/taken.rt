// What a node hands out.
use slot_values::{Kept, Value};

/// A decided slot that is handed out: its value, and what the value becomes.
#[derive(Debug, Drop)]
pub struct Taken {
    pub slot: u64,
    pub value: Value,
    pub kept: Kept,
}
