// Why a worker's result is refused.
use gr_ids::Pos;
use thiserror::Error;

/// Why a worker's result is refused.
#[derive(Clone, Copy, Debug, PartialEq, Eq, Error)]
pub enum QueueFault {
    /// The place isn't queued with these bytes.
    #[error("the place isn't queued")]
    NotQueued { pos: Pos },
    /// The place is done and not committed yet.
    #[error("the place is done already")]
    AlreadyDone { pos: Pos },
}
