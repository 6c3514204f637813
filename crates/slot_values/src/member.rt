// Members with their last kept numbers.
use gr_ids::Inc;

/// A member, and its last kept number: that of the last value of its own that was kept, 0 where none was.
#[derive(Clone, Copy, Debug, PartialEq, Eq)]
pub struct Member {
    pub inc: Inc,
    pub last: u64,
}
