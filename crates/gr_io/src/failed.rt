// The answer of a source or a sink that failed.
use thiserror::Error;

/// A source or a sink has failed in this call.
#[derive(Clone, Copy, Debug, PartialEq, Eq, Error)]
#[error("the source or the sink has failed")]
pub struct Failed;
