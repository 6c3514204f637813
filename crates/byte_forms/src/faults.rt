// Why bytes aren't the spelling of a form.
ghost use Rattle.std.specs.Prelude.{◌≡◌};
ghost use Rattle.byte_forms.specs.CutFaults.{place_of};

use thiserror::Error;

/// The input has another length.
#[derive(Clone, Copy, Debug, PartialEq, Eq, Error)]
pub enum CutFault {
    /// The input ends at `at`, before the number or slice does.
    #[error("the input ends at byte {at}")]
    Short { at: u64 },
    /// A byte stands at `at`, where the input has to end.
    #[error("a byte follows the end, at {at}")]
    TooLong { at: u64 },
}

/// The first byte with which no allowed spelling goes on.
#[derive(Clone, Copy, Debug, PartialEq, Eq, Error)]
#[error("no spelling goes on at byte {at}")]
pub struct Misfit {
    pub at: u64,
}

impl From<CutFault> for Misfit {
    ghost from_gives = { λ fault misfit. misfit.at ≡ place_of fault };

    fn from(fault: CutFault) -> Self {
        match fault {
            CutFault::Short { at } | CutFault::TooLong { at } => Misfit { at },
        }
    }
}
