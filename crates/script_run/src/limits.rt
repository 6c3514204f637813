// The limits on a script.

/// A line of more bytes than this, its end aside, is too long.
pub const LINE_LIMIT: usize = 65_536;

/// A script has no more lines than this.
pub const LINES_LIMIT: u64 = 1_000_000;
