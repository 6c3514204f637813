// Why a key isn't locked.
use gr_ids::Memory;
use group_rules::Holder;
use thiserror::Error;

/// Why a key isn't locked.
#[derive(Clone, Copy, Debug, PartialEq, Eq, Error)]
pub enum LockFault {
    /// Another one holds the key.
    #[error("the key is locked")]
    Locked { holder: Holder },
    #[error("memory was refused")]
    Memory,
}
