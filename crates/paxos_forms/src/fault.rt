// Why bytes aren't read as a message.
ghost use Rattle.std.specs.Prelude.{◌≡◌};
ghost use Rattle.byte_forms.specs.CutFaults.{place_of};
ghost use Rattle.byte_forms.specs.declared.unread.Unread.TheVariants.{Memory as Refused, Misfit as Breaks};
ghost use Rattle.paxos_forms.specs.declared.fault.MessageFault.TheVariants.{BadMessage as BreaksAt};

use byte_forms::{CutFault, Unread};
use thiserror::Error;

/// Why bytes weren't read as a message.
#[derive(Clone, Copy, Debug, PartialEq, Eq, Error)]
pub enum MessageFault {
    #[error("memory was refused")]
    Memory,
    /// No spelling of a message goes on at byte `at`.
    #[error("no message goes on at byte {at}")]
    BadMessage { at: u64 },
}

impl From<Unread> for MessageFault {
    ghost use Rattle.paxos_forms.specs.FaultKinds.{fault_of};

    ghost from_gives = { λ unread e. e ≡ fault_of unread };

    fn from(unread: Unread) -> Self {
        match unread {
            Unread::Memory => MessageFault::Memory,
            Unread::Misfit { at } => MessageFault::BadMessage { at },
        }
    }
}

impl From<CutFault> for MessageFault {
    ghost from_gives = { λ fault e. e ≡ BreaksAt (place_of fault) };

    fn from(fault: CutFault) -> Self {
        match fault {
            CutFault::Short { at } | CutFault::TooLong { at } => MessageFault::BadMessage { at },
        }
    }
}
