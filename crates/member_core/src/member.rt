// A member.
ghost use Rattle.std.specs.Prelude.{◌≡◌, IfErr, IfOk, OnErr, OnOk, Some, false, if◌then◌else◌, map, true};
ghost use Rattle.std.specs.List.{All};
ghost use Rattle.gr_ids.specs.declared.memory.Memory.{Memory};
ghost use Rattle.name_forms.specs.Incs.{IsInc};
ghost use Rattle.slot_values.specs.Joiners.{IsJoiner};
ghost use Rattle.paxos_forms.specs.Messages.{IsMessage};
ghost use Rattle.node_rules.specs.Lists.{In};
ghost use Rattle.group_rules.specs.Events.{Stored};
ghost use Rattle.group_rules.specs.Histories.{arranged};
ghost use Rattle.group_rules.specs.Life.{stored};
ghost use Rattle.group_rules.specs.Member.{Member as Rules};
ghost use Rattle.group_rules.specs.Steps.{found, start, step};
ghost use Rattle.group_rules.specs.World.{stored_by};
ghost use Rattle.member_messages.specs.Sending.{spelt};
ghost use Rattle.member_ranges.specs.Ranges.{IsFounding, setup_with};
ghost use Rattle.kept_server.specs.Keeping.{KeptFor};
ghost use Rattle.member_moment.specs.Doing.{Does, IsKept};
ghost use Rattle.member_moment.specs.Standing.{Stands};
ghost use Rattle.member_core.specs.Acting.{step_of};
ghost use Rattle.member_core.specs.Standing.{GoesOn, HasServerOf, HasStarted, IsEvent, IsMember, IsServerOf, IsStepOf, cleared, event_of};
ghost use Rattle.member_core.specs.Whole.{is_stopped};
ghost use Rattle.member_core.specs.declared.fault.StepFault.TheVariants.{Memory as Refused, Stopped};

use crate::acting::act;
use crate::event::{Event, StepLeft};
use crate::fault::StepFault;
use crate::holding::{caller, tell_held};
use crate::ledger::Ledger;
use crate::points::point;
use crate::slots::settle_slots;
use gr_ids::{Inc, Limits, Memory, Mode};
use kept_server::KeptServer;
use member_messages::{Outgoing, arrange};
use member_moment::{Left, Moment};
use message_checks::is_message;
use paxos_forms::Message;
use plain_steps::steps_are_plain;
use slot_values::Joiner;
use std::alloc::Global;
use std::marker::Model;

/// A member: an incarnation with all that it keeps. After want of memory it is stopped, and keeps what its server had at the end of the step before.
#[derive(Drop)]
pub struct Member {
    pub(crate) alloc: Global,
    pub(crate) moment: Moment,
    pub(crate) ledger: Ledger,
    pub(crate) is_stopped: bool,
}

impl Model for Member {
    ghost use Rattle.member_core.specs.Whole.{Whole, closed, code};

    ghost Value = { Whole };

    ghost coded = { code };

    ghost view = { λ m. closed (record { moment = m.moment; ledger = m.ledger; is_stopped = m.is_stopped }) };
}

/// A joiner at its start, with the messages that it sends.
#[derive(Drop)]
pub struct Started {
    pub member: Member,
    pub sent: Vec<Outgoing>,
}

impl Member {
    /// A founder of a group, ONLINE. Linear in the founders.
    pub fn found(
        alloc: Global,
        me: Joiner,
        founders: &[Joiner],
        mode: Mode,
        limits: Limits,
    ) -> Result<Member, Memory>
        requires founding { IsFounding (setup_with limits mode founders.now) }
        requires founder { In me founders.now }
        ensures { IfOk result (λ x. IsMember (found (setup_with limits mode founders.now) me) x) }
    {
        let mut moment = Moment::found(alloc, me, founders, mode, limits)?;
        moment.begin_step();
        Ok(Member {
            alloc,
            moment,
            ledger: Ledger::new(alloc, KeptServer::new(alloc)),
            is_stopped: false,
        })
    }

    /// The next incarnation of a server, OFFLINE, which offers its Add to a contact. Linear in what the server keeps.
    pub fn start(
        alloc: Global,
        kept: KeptServer,
        me: Joiner,
        contact: Inc,
        founders: &[Joiner],
        mode: Mode,
        limits: Limits,
    ) -> Result<Started, Memory>
        requires founding { IsFounding (setup_with limits mode founders.now) }
        requires joiner { IsJoiner me }
        requires contact { IsInc contact }
        ensures { IfOk result (λ x. (y : Stored) → KeptFor y kept → HasStarted (start (setup_with limits mode founders.now) me y contact) x) }
    {
        let tables = kept.copy_tables(alloc)?;
        let mut moment = Moment::start(
            alloc,
            me,
            contact,
            limits,
            tables.executed,
            tables.store,
            kept.earlier.committed.as_slice(),
        )?;
        let Left {
            committed: _,
            marks: _,
            sent,
        } = moment.end_step();
        let sent = in_order(alloc, sent)?;
        let member = Member {
            alloc,
            moment,
            ledger: Ledger::new(alloc, kept),
            is_stopped: false,
        };
        Ok(Started { member, sent })
    }

    /// Takes an event: what it asks is done, then what may happen at a point, and then the decided slots are taken. Refused exactly where it is stopped, and then nothing
    /// changes; else after want of memory it is stopped, and its server keeps what it had at the end of the step before. Its cost is that of what is done.
    pub fn step(&mut self, event: Event) -> Result<StepLeft, StepFault>
        requires { IsEvent event }
        ensures ok { IfOk result (λ left. (a : Rules) → IsKept (step (event_of event) a) → IsMember a self.old → IsStepOf (event_of event) a left self.new) }
        ensures running { OnOk result (is_stopped self.old ≡ false) }
        ensures fault { IfErr result (λ e. e ≡ (if is_stopped self.old then Stopped else Refused)) }
        ensures same { is_stopped self.old ≡ true → self.new ≡ self.old }
        ensures stops { OnErr result (is_stopped self.new ≡ true) }
        ensures kept { OnErr result ((a : Rules) → IsMember a self.old → HasServerOf a self.new) }
    {
        if self.is_stopped {
            return Err(StepFault::Stopped);
        }
        match go_on(self.alloc, &mut self.moment, &mut self.ledger, event) {
            Ok(left) => Ok(left),
            Err(Memory) => {
                self.is_stopped = true;
                Err(StepFault::Memory)
            }
        }
    }

    /// Whether a step was refused memory.
    pub fn is_stopped(&self) -> bool
        ensures stopped { result ≡ is_stopped self.now }
        ensures member { (a : Rules) → IsMember a self.now → result ≡ false }
        ensures server { (a : Rules) → HasServerOf a self.now → result ≡ true }
    {
        self.is_stopped
    }

    /// What its server keeps when it stops, or is stopped: what it had at the start, with what was committed since. Linear in the bytes of these transactions, and for
    /// each change logarithmic in the rows, besides the executed set.
    pub fn into_kept(self) -> Result<KeptServer, Memory>
        ensures member { IfOk result (λ k. (a : Rules) → IsMember a self → KeptFor (stored_by (stored a.life) (Some a)) k) }
        ensures server { IfOk result (λ k. (a : Rules) → HasServerOf a self → KeptFor (stored_by (stored a.life) (Some a)) k) }
    {
        let Member {
            alloc,
            moment: _,
            ledger,
            is_stopped: _,
        } = self;
        ledger.redo(alloc)
    }

    /// Which incarnation it is.
    pub fn inc(&self) -> Inc
        ensures { (a : Rules) → IsMember a self.now → result ≡ a.me.inc }
    {
        self.moment.inc()
    }
}

// A step of a member that isn't stopped. After want of memory its server has what it had.
fn go_on(
    alloc: Global,
    moment: &mut Moment,
    ledger: &mut Ledger,
    event: Event,
) -> Result<StepLeft, Memory>
    requires { IsEvent event }
    ensures ok { IfOk result (λ left. (a : Rules) → IsKept (step (event_of event) a) → Stands a.life (cleared a) moment.old → IsServerOf a ledger.old
        → GoesOn (event_of event) a left moment.new ledger.new) }
    ensures err { OnErr result ((a : Rules) → IsServerOf a ledger.old → IsServerOf a ledger.new) }
{
    steps_are_plain();
    moment.begin_step();
    take(moment, event)?;
    let Left {
        committed,
        marks,
        sent,
    } = moment.end_step();
    let sent = in_order(alloc, sent)?;
    ledger.note(committed)?;
    Ok(StepLeft { marks, sent })
}

// A whole step.
fn take(moment: &mut Moment, event: Event) -> Result<(), Memory>
    requires { IsEvent event }
    ensures { OnOk result (Does (step_of (event_of event)) moment.old moment.new) }
{
    let session = caller(moment, &event);
    act(moment, event)?;
    point(moment)?;
    settle_slots(moment)?;
    tell_held(moment, session)
}

// The messages in their order. Refused as want of memory where one can't be spelt, which a member never sends.
fn in_order(alloc: Global, sent: Vec<Message>) -> Result<Vec<Outgoing>, Memory>
    ensures { IfOk result (λ v. v.items ≡ map spelt (arranged sent.items)) }
{
    if !are_messages(&sent) {
        return Err(Memory);
    }
    arrange(alloc, sent)
}

fn are_messages(sent: &[Message]) -> bool
    ensures { result ≡ true → All IsMessage sent.now }
{
    sent.iter().all(|message| is_message(message))
}
