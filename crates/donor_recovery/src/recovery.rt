// How a joiner asks, and what it begins with.
ghost use Rattle.std.specs.Prelude.{◌≡◌, [], false, if◌then◌else◌, IfErr, IfOk, IsSome, is_some, None, OnErr, OnOk, true};
ghost use Rattle.donor_recovery.specs.declared.recovery.AskFault.TheVariants.{Memory as NoRoomToAsk};
ghost use Rattle.donor_recovery.specs.declared.recovery.TakeFault.TheVariants.{Memory as NoRoomToTake};
ghost use Rattle.donor_recovery.specs.Asking.{IsAskFault, IsFailure, IsTakeFault, ask_of, asks, begin_of, extra, fails, is_due, is_last, not_asked, with_give};

use crate::at_add::{AtAdd, Begin};
use gr_ids::{Inc, Memory, Pos};
use gtid_sets::GtidSet;
use paxos_forms::{Ask, Give};
use std::alloc::Global;
use std::marker::Model;
use thiserror::Error;

/// How many asks may fail (MySQL 8.0 Reference Manual, `group_replication_recovery_retry_count`).
const TRIES: u32 = 10;

/// Why nothing is asked.
#[derive(Clone, Copy, Debug, PartialEq, Eq, Error)]
pub enum AskFault {
    /// An ask is pending, a Give was taken, or ten asks failed.
    #[error("no ask is due")]
    NoAskDue,
    /// Memory was refused.
    #[error("out of memory")]
    Memory,
}

impl From<Memory> for AskFault {
    ghost from_gives = { λ _ e. e ≡ NoRoomToAsk };

    fn from(_: Memory) -> Self {
        AskFault::Memory
    }
}

/// What a failed ask comes to.
#[derive(Clone, Copy, Debug, PartialEq, Eq, Error)]
pub enum RecoveryFault {
    /// No ask is pending.
    #[error("no ask is pending")]
    NoAskPending,
    /// The last ask that may fail has failed.
    #[error("{tries} asks failed")]
    NoDonor { tries: u32 },
}

/// Why a Give isn't taken.
#[derive(Debug, Drop, Error)]
pub enum TakeFault {
    /// The joiner has these transactions, which the group hasn't.
    #[error("transactions that the group lacks")]
    ExtraTransactions(GtidSet),
    /// Memory was refused.
    #[error("out of memory")]
    Memory,
}

impl From<Memory> for TakeFault {
    ghost from_gives = { λ _ e. e ≡ NoRoomToTake };

    fn from(_: Memory) -> Self {
        TakeFault::Memory
    }
}

/// A joiner's asks for what it lacks as of the place of its Add: one at a time, until a Give is taken or ten have failed
/// (MySQL 8.0 Reference Manual, Group Replication: Connection Attempts for Distributed Recovery).
#[derive(Debug, Drop)]
pub struct Recovery {
    executed: GtidSet,
    place: Pos,
    pending: Option<Inc>,
    failures: u32,
    has_give: bool,
}

impl Model for Recovery {
    ghost use Rattle.std.specs.Prelude.{◌<◌, IsSome};
    ghost use Rattle.donor_recovery.specs.Asking.{Asking};

    ghost Value = { Asking };

    ghost view = { λ r. record { executed = r.executed; place = r.place; pending = r.pending; failures = r.failures; has_give = r.has_give } };

    ghost invariant = { λ r. IsSome r.pending → r.failures < 10 };
}

impl Recovery {
    /// Nothing is asked yet: the joiner has this set, and its Add this place.
    pub fn new(executed: GtidSet, place: Pos) -> Recovery
        ensures { result ≡ not_asked executed place }
    {
        Recovery {
            executed,
            place,
            pending: None,
            failures: 0,
            has_give: false,
        }
    }

    /// Asks the donor. Linear in the runs of the joiner's set.
    pub fn ask(&mut self, alloc: Global, donor: Inc) -> Result<Ask, AskFault>
        ensures due { OnOk result (is_due self.old ≡ true) }
        ensures ask { IfOk result (λ ask. ask ≡ ask_of self.old) }
        ensures asked { OnOk result (self.new ≡ asks donor self.old) }
        ensures fault { IfErr result (IsAskFault self.old) }
        ensures err { OnErr result (self.new ≡ self.old) }
    {
        if !self.is_due() {
            return Err(AskFault::NoAskDue);
        }
        let executed = self.executed.try_copy(alloc)?;
        self.pending = Some(donor);
        Ok(Ask {
            place: self.place,
            executed,
        })
    }

    /// Whether a donor may be asked: no ask is pending, no Give was taken, and fewer than ten asks failed.
    pub fn is_due(&self) -> bool
        ensures { result ≡ is_due self.now }
    {
        self.pending.is_none() && !self.has_give && self.failures < TRIES
    }

    /// The pending ask has failed. Refused where none is pending; the tenth failure is counted, and named. Takes no memory.
    pub fn failed(&mut self) -> Result<(), RecoveryFault>
        ensures ok { OnOk result ((is_some self.old.pending ≡ true) × (is_last self.old ≡ false)) }
        ensures fault { IfErr result (IsFailure self.old) }
        ensures after { self.new ≡ (if is_some self.old.pending then fails self.old else self.old) }
    {
        if self.pending.is_none() {
            return Err(RecoveryFault::NoAskPending);
        }
        self.pending = None;
        self.failures += 1;
        if self.failures < TRIES {
            return Ok(());
        }
        Err(RecoveryFault::NoDonor { tries: TRIES })
    }

    /// The place of the joiner's Add.
    pub fn place(&self) -> Pos
        ensures { result ≡ self.now.place }
    {
        self.place
    }

    /// Whether a Give was taken.
    pub fn has_give(&self) -> bool
        ensures { result ≡ self.now.has_give }
    {
        self.has_give
    }

    /// The donor of the pending ask.
    pub fn pending(&self) -> Option<Inc>
        ensures { result ≡ self.now.pending }
    {
        self.pending
    }

    /// Takes the Give that was asked for. Refused where the joiner has transactions that the group hasn't. Linear in the runs of the
    /// joiner's set and of the certified one.
    pub fn take(&mut self, alloc: Global, give: Give) -> Result<Begin, TakeFault>
        requires pending { IsSome self.old.pending }
        requires place { give.place ≡ self.old.place }
        ensures none_extra { OnOk result (extra self.old give ≡ []) }
        ensures begin { IfOk result (λ begin. begin ≡ begin_of give) }
        ensures taken { OnOk result (self.new ≡ with_give self.old) }
        ensures fault { IfErr result (IsTakeFault self.old give) }
        ensures err { OnErr result (self.new ≡ self.old) }
    {
        let extra = self.executed.subtract(alloc, &give.certified)?;
        if !extra.is_empty() {
            return Err(TakeFault::ExtraTransactions(extra));
        }
        self.pending = None;
        self.has_give = true;
        let at = AtAdd {
            place: give.place,
            blocks: give.blocks,
            last: give.last,
            items: give.items,
            told: give.told,
            parts: give.parts,
        };
        Ok(Begin {
            at,
            queue: give.txns,
        })
    }
}
