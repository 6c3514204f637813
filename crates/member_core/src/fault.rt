// Why a step isn't taken.
use thiserror::Error;

/// Why a member takes no step.
#[derive(Clone, Copy, Debug, PartialEq, Eq, Error)]
pub enum StepFault {
    /// An earlier step was refused memory.
    #[error("the member is stopped")]
    Stopped,
    #[error("memory was refused")]
    Memory,
}
