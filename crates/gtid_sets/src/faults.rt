// Why a set isn't read from bytes or from a text.
ghost use Rattle.std.specs.Prelude.{◌≡◌};
ghost use Rattle.byte_forms.specs.declared.unread.Unread.TheVariants.{Memory as NoMemory, Misfit as Breaks};
ghost use Rattle.gtid_sets.specs.declared.faults.SetFault.TheVariants.{Memory as NoRoom, BadSet as BreaksAt};
ghost use Rattle.gtid_sets.specs.declared.faults.TextFault.TheVariants.{Memory as NoRoomForText};
ghost use Rattle.gtid_sets.specs.Pieces.{unread_of};

use byte_forms::Unread;
use gr_ids::Memory;
use thiserror::Error;

/// Why a set wasn't read from bytes.
#[derive(Clone, Copy, Debug, PartialEq, Eq, Error)]
pub enum SetFault {
    #[error("memory was refused")]
    Memory,
    /// No spelling of a set goes on at byte `at`.
    #[error("no set of GTIDs goes on at byte {at}")]
    BadSet { at: u64 },
}

impl From<Unread> for SetFault {
    ghost from_gives = { λ fault e. unread_of e ≡ fault };

    fn from(fault: Unread) -> Self {
        match fault {
            Unread::Memory => SetFault::Memory,
            Unread::Misfit { at } => SetFault::BadSet { at },
        }
    }
}

impl From<SetFault> for Unread {
    ghost from_gives = { λ fault e. e ≡ unread_of fault };

    fn from(fault: SetFault) -> Self {
        match fault {
            SetFault::Memory => Unread::Memory,
            SetFault::BadSet { at } => Unread::Misfit { at },
        }
    }
}

/// Why a text isn't a set. `at` is the index of the first fault, behind the blanks that may stand there.
#[derive(Clone, Copy, Debug, PartialEq, Eq, Error)]
pub enum TextFault {
    #[error("memory was refused")]
    Memory,
    /// A UUID must stand here, and none does.
    #[error("no UUID stands at byte {at}")]
    BadUuid { at: u64 },
    /// A colon must follow a UUID here, and none does; or an interval that begins here ends below its first number.
    #[error("no interval stands at byte {at}")]
    BadInterval { at: u64 },
    /// A number from 1 to 2^63-2, without a leading zero, must stand here, and none does.
    #[error("no number of a GTID stands at byte {at}")]
    BadNumber { at: u64 },
    /// Nothing that may follow an interval.
    #[error("a text of GTIDs can't go on at byte {at}")]
    Trailing { at: u64 },
}

impl From<Memory> for TextFault {
    ghost from_gives = { λ _ e. e ≡ NoRoomForText };

    fn from(_: Memory) -> Self {
        TextFault::Memory
    }
}
