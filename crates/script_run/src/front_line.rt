// What the reader of lines finds at the front of the bytes that it holds.
use thiserror::Error;

/// What kind of line stands at the front.
#[derive(Clone, Copy, Debug, PartialEq, Eq)]
pub enum LineKind {
    /// A line with its end.
    Whole,
    /// The last line, which lacks its end.
    Last,
    /// The beginning of a line past the limit.
    Long,
}

/// A line at the front of the held bytes.
#[derive(Clone, Copy, Debug, PartialEq, Eq)]
pub struct FrontLine {
    /// The bytes of the line without its end.
    pub len: usize,
    /// The bytes that it takes with its end.
    pub taken: usize,
    pub kind: LineKind,
}

/// Why no line was found.
#[derive(Clone, Copy, Debug, PartialEq, Eq, Error)]
pub enum ReadFault {
    /// The source failed.
    #[error("the source failed")]
    Failed,
    /// Memory was refused.
    #[error("memory was refused")]
    Memory,
}
