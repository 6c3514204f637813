// Why a change doesn't fit.
use thiserror::Error;

/// Why a change doesn't fit the rows.
#[derive(Clone, Copy, Debug, PartialEq, Eq, Error)]
pub enum RowFault {
    #[error("the row exists")]
    DuplicateKey,
    #[error("there is no such row")]
    NoRow,
}
