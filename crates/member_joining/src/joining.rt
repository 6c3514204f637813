// Where an incarnation stands on its way into the group.
ghost use Rattle.std.specs.Prelude.{◌≡◌, [], false, if◌then◌else◌, IfErr, IfOk, is_some, None, OnErr, OnOk, true};
ghost use Rattle.donor_recovery.specs.Asking.{begin_of};
ghost use Rattle.member_joining.specs.Asking.{IsFailure, IsNotAsked, IsNotTaken, ask_in, asked, awaits_by, extra_in, failed, given, has_give_in, is_ask_due_by, is_last_in, may_ask, pending_in, place_in, welcomed};

use donor_recovery::{AskFault, Begin, Recovery, RecoveryFault, TakeFault};
use gr_ids::{Inc, MemberState, Pos};
use gtid_sets::GtidSet;
use paxos_forms::{Ask, Give};
use std::alloc::Global;
use std::marker::Model;

/// Where an incarnation stands on its way into the group: it asks for what it lacks from its Welcome on. A founder never asks.
#[derive(Debug, Drop)]
pub struct Joining {
    recovery: Option<Recovery>,
}

impl Model for Joining {
    ghost use Rattle.std.specs.Prelude.{Option};
    ghost use Rattle.donor_recovery.specs.Asking.{Asking};

    ghost Value = { Option Asking };

    ghost view = { λ j. j.recovery };
}

impl Joining {
    /// No Welcome came; takes no memory.
    pub fn new() -> Joining
        ensures { result ≡ None }
    {
        Joining { recovery: None }
    }

    /// It is welcomed, with this executed set; its Add has this place.
    pub fn enter(&mut self, executed: GtidSet, place: Pos)
        ensures { self.new ≡ welcomed executed place }
    {
        self.recovery = Some(Recovery::new(executed, place));
    }

    /// Whether a donor may be asked in this state.
    pub fn is_ask_due(&self, state: MemberState) -> bool
        ensures { result ≡ is_ask_due_by state self.now }
    {
        state == MemberState::Recovering && self.may_ask()
    }

    // Whether it is welcomed, no ask is pending, no Give was taken up, and fewer asks failed than may fail.
    fn may_ask(&self) -> bool
        ensures { result ≡ may_ask self.now }
    {
        match &self.recovery {
            Some(recovery) => recovery.is_due(),
            None => false,
        }
    }

    /// The donor of the pending ask.
    pub fn pending(&self) -> Option<Inc>
        ensures { result ≡ pending_in self.now }
    {
        match &self.recovery {
            Some(recovery) => recovery.pending(),
            None => None,
        }
    }

    /// Whether a Give was taken up.
    pub fn has_give(&self) -> bool
        ensures { result ≡ has_give_in self.now }
    {
        match &self.recovery {
            Some(recovery) => recovery.has_give(),
            None => false,
        }
    }

    /// Whether a Give from this incarnation, for this place, is what is asked for in this state.
    pub fn awaits(&self, state: MemberState, from: Inc, place: Pos) -> bool
        ensures { result ≡ awaits_by state from place self.now }
    {
        state == MemberState::Recovering && self.pending() == Some(from) && place == self.place()
    }

    // The place of its Add; 0 before its Welcome.
    fn place(&self) -> Pos
        ensures { result ≡ place_in self.now }
    {
        match &self.recovery {
            Some(recovery) => recovery.place(),
            None => Pos(0),
        }
    }

    /// Asks the donor. Refused where no donor may be asked. Linear in the runs of the executed set.
    pub fn ask(&mut self, alloc: Global, donor: Inc) -> Result<Ask, AskFault>
        ensures due { OnOk result (may_ask self.old ≡ true) }
        ensures ask { IfOk result (λ ask. ask ≡ ask_in self.old) }
        ensures asked { OnOk result (self.new ≡ asked donor self.old) }
        ensures fault { IfErr result (IsNotAsked self.old) }
        ensures err { OnErr result (self.new ≡ self.old) }
    {
        match &mut self.recovery {
            Some(recovery) => recovery.ask(alloc, donor),
            None => Err(AskFault::NoAskDue),
        }
    }

    /// The pending ask has failed. Refused where none is pending; the tenth failure is counted, and named. Takes no memory.
    pub fn failed(&mut self) -> Result<(), RecoveryFault>
        ensures ok { OnOk result ((is_some (pending_in self.old) ≡ true) × (is_last_in self.old ≡ false)) }
        ensures fault { IfErr result (IsFailure self.old) }
        ensures after { self.new ≡ (if is_some (pending_in self.old) then failed self.old else self.old) }
    {
        match &mut self.recovery {
            Some(recovery) => recovery.failed(),
            None => Err(RecoveryFault::NoAskPending),
        }
    }

    /// Takes up the Give that is awaited. Refused where the joiner has transactions that the group hasn't. Linear in the runs of its
    /// executed set and of the certified one.
    pub fn take(&mut self, alloc: Global, give: Give) -> Result<Begin, TakeFault>
        requires pending { is_some (pending_in self.old) ≡ true }
        requires place { give.place ≡ place_in self.old }
        ensures none_extra { OnOk result (extra_in self.old give ≡ []) }
        ensures begin { IfOk result (λ begin. begin ≡ begin_of give) }
        ensures taken { OnOk result (self.new ≡ given self.old) }
        ensures fault { IfErr result (IsNotTaken self.old give) }
        ensures err { OnErr result (self.new ≡ self.old) }
    {
        match &mut self.recovery {
            Some(recovery) => recovery.take(alloc, give),
            None => unreachable!(),
        }
    }
}
