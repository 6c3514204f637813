// Why a form that takes memory wasn't read.
ghost use Rattle.std.specs.Prelude.{◌≡◌};
ghost use Rattle.byte_forms.specs.CutFaults.{place_of};
ghost use Rattle.byte_forms.specs.declared.unread.Unread.TheVariants.{Memory as NoMemory, Misfit as Breaks};

use crate::faults::{CutFault, Misfit};
use gr_ids::Memory;
use std::alloc::{AllocError, AllocFailed};
use thiserror::Error;

/// Why a form wasn't read.
#[derive(Clone, Copy, Debug, PartialEq, Eq, Error)]
pub enum Unread {
    #[error("memory was refused")]
    Memory,
    /// No spelling goes on at byte `at`.
    #[error("no spelling goes on at byte {at}")]
    Misfit { at: u64 },
}

impl From<Misfit> for Unread {
    ghost from_gives = { λ misfit e. e ≡ Breaks misfit.at };

    fn from(misfit: Misfit) -> Self {
        Unread::Misfit { at: misfit.at }
    }
}

impl From<CutFault> for Unread {
    ghost from_gives = { λ fault e. e ≡ Breaks (place_of fault) };

    fn from(fault: CutFault) -> Self {
        match fault {
            CutFault::Short { at } | CutFault::TooLong { at } => Unread::Misfit { at },
        }
    }
}

impl From<Memory> for Unread {
    ghost from_gives = { λ _ e. e ≡ NoMemory };

    fn from(_: Memory) -> Self {
        Unread::Memory
    }
}

impl From<AllocError> for Unread {
    ghost from_gives = { λ _ e. e ≡ NoMemory };

    fn from(_: AllocError) -> Self {
        Unread::Memory
    }
}

impl<T: Drop> From<AllocFailed<T>> for Unread {
    ghost from_gives = { λ _ e. e ≡ NoMemory };

    fn from(_: AllocFailed<T>) -> Self {
        Unread::Memory
    }
}
