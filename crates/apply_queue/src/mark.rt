// How far a queued place is.
use gr_ids::Sequence;
use key_items::{Change, WriteSet};

/// How far a queued place is.
#[derive(Debug, Drop)]
pub(crate) enum Mark {
    Waiting,
    /// A worker has it.
    Out,
    /// A worker has found its changes, and the items that it writes.
    Done(Sequence<Change>, WriteSet),
}
