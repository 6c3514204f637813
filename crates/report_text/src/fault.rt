// Why a step of a script isn't done.
use thiserror::Error;

/// Why a step isn't done.
#[derive(Clone, Copy, Debug, PartialEq, Eq, Error)]
pub enum WorldFault {
    /// A server's number or UUID is taken.
    #[error("a server's number or UUID is taken")]
    Declared,
    /// A server isn't declared.
    #[error("a server isn't declared")]
    NoServer,
    /// A server that may not run does.
    #[error("the server runs")]
    AlreadyRunning,
    /// So many messages weren't sent.
    #[error("no message {k}")]
    NoMessage { k: u64 },
    /// The message is lost.
    #[error("message {k} is lost")]
    MessageLost { k: u64 },
    /// An incarnation that has to run doesn't.
    #[error("an incarnation doesn't run")]
    NoMember,
    /// A member's step would have brought the messages sent above their limits, to these numbers.
    #[error("{messages} messages of {bytes} bytes")]
    WireFull { messages: u64, bytes: u64 },
    /// So many steps were done that no more may be.
    #[error("{steps} steps were done")]
    Spent { steps: u64 },
    /// Memory was refused.
    #[error("memory was refused")]
    Memory,
}
