// A line of a script.
use group_rules::Step;
use thiserror::Error;

/// A line with its number, from 1, and its step; a comment has none.
#[derive(Debug, Drop)]
pub struct Line {
    pub number: u64,
    pub step: Option<Step>,
}

/// Why a line gave no step.
#[derive(Clone, Copy, Debug, PartialEq, Eq, Error)]
pub enum LineFault {
    /// The line isn't in the grammar.
    #[error("the line isn't in the grammar")]
    BadLine,
    /// Memory was refused.
    #[error("memory was refused")]
    Memory,
}
