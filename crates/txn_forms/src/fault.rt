// Why bytes aren't read as a body.
ghost use Rattle.std.specs.Prelude.{◌≡◌};
ghost use Rattle.byte_forms.specs.CutFaults.{place_of};
ghost use Rattle.byte_forms.specs.declared.unread.Unread.TheVariants.{Memory as Refused, Misfit as Breaks};
ghost use Rattle.txn_forms.specs.declared.fault.BodyFault.TheVariants.{BadBody as BreaksAt};

use byte_forms::{CutFault, Unread};
use thiserror::Error;

/// Why bytes weren't read as a body.
#[derive(Clone, Copy, Debug, PartialEq, Eq, Error)]
pub enum BodyFault {
    #[error("memory was refused")]
    Memory,
    /// No spelling of a body goes on at byte `at`.
    #[error("no body goes on at byte {at}")]
    BadBody { at: u64 },
}

impl From<Unread> for BodyFault {
    ghost use Rattle.txn_forms.specs.Kinds.{fault_of};

    ghost from_gives = { λ unread e. e ≡ fault_of unread };

    fn from(unread: Unread) -> Self {
        match unread {
            Unread::Memory => BodyFault::Memory,
            Unread::Misfit { at } => BodyFault::BadBody { at },
        }
    }
}

impl From<CutFault> for BodyFault {
    ghost from_gives = { λ fault e. e ≡ BreaksAt (place_of fault) };

    fn from(fault: CutFault) -> Self {
        match fault {
            CutFault::Short { at } | CutFault::TooLong { at } => BodyFault::BadBody { at },
        }
    }
}
