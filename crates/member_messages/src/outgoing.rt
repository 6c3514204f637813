// A message as it is sent.
use gr_ids::{Blob, Inc};
use paxos_forms::Message;

/// A message with its bytes.
#[derive(Debug, Drop)]
pub struct Outgoing {
    pub message: Message,
    pub bytes: Blob,
}

/// Where a message stands among those of its step: by recipient, then by bytes.
#[derive(Debug, PartialEq, Eq, PartialOrd, Ord, Drop)]
pub(crate) struct Address {
    pub(crate) to: Inc,
    pub(crate) bytes: Blob,
}
