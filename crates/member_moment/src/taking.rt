// Slots that are taken, and the state ONLINE.
ghost use Rattle.std.specs.Prelude.{◌≡◌, ℕ, IfOk, OnOk, if◌then◌else◌, true};
ghost use Rattle.gr_ids.specs.declared.levels.MemberState.TheVariants.{Online};
ghost use Rattle.gr_ids.specs.Names.{inc_eq};
ghost use Rattle.gr_ids.specs.declared.memory.Memory.{Memory};
ghost use Rattle.name_forms.specs.Incs.{IsInc};
ghost use Rattle.slot_values.specs.declared.kept.Kept.TheVariants.{At as KeptAt};
ghost use Rattle.node_rules.specs.declared.taken.Taken.{Taken as AnyTaken};
ghost use Rattle.group_rules.specs.Events.{Is, Life};
ghost use Rattle.group_rules.specs.Member.{Member, push};
ghost use Rattle.group_rules.specs.Taking.{takes_slots};
ghost use Rattle.member_moment.specs.Doing.{DoesIf};
ghost use Rattle.member_moment.specs.Taking.{HasPassed, HasTaken, Hands, arrives_by, cause_of, holds_online, news_cause, plain_cause};

use crate::moment::Moment;
use gr_ids::{Gtid, Inc, MemberState, Memory, ValueId};
use group_rules::{Cause, Effect, Mark};
use list_state::{Entered, Held};
use node_rules::Taken;
use slot_values::{Kept, Value, What};
use txn_forms::Body;

// Slots end at 2^42, and so do places.
const LAST_PLACE: u64 = 4_398_046_511_104;

/// What an entry causes, besides what it does to the parts.
#[derive(Debug, Drop)]
pub enum Caused {
    Nothing,
    /// A value conflicts with the transaction of this GTID.
    Conflict(ValueId, Gtid),
    /// A joiner is to be welcomed.
    Welcome(Inc),
    /// This member is removed.
    Removal,
    /// This member is ONLINE.
    Arrival,
}

impl Moment {
    /// Takes the next decided slot, if there is one: its value is kept at the next place, or skipped. What the entry causes is to be done then.
    /// Linear in the members and the value's bytes, besides what certification and forgetting take.
    pub fn take_next(&mut self) -> Result<Option<Caused>, Memory>
        ensures { IfOk result (λ o. HasTaken o self.old self.new) }
    {
        match self.node.take(self.alloc)? {
            None => Ok(None),
            Some(taken) => Ok(Some(self.take_kept(taken)?)),
        }
    }

    // The node has handed it out already.
    fn take_kept(&mut self, taken: Taken) -> Result<Caused, Memory>
        ensures { IfOk result (λ c. (base : Life) (a : Member) → HasPassed taken base a self.old → Hands c base a taken self.new) }
    {
        let Taken { slot, value, kept } = taken;
        match kept {
            Kept::Skipped => {
                self.marks.push(Mark::Skipped(slot, value.id))?;
                Ok(Caused::Nothing)
            }
            Kept::At(_, has_effect) => self.take_entry(value, has_effect),
        }
    }

    // The value is kept at the next place.
    fn take_entry(&mut self, value: Value, has_effect: bool) -> Result<Caused, Memory>
        ensures { IfOk result (λ c. (base : Life) (a : Member) (t : AnyTaken) (p : ℕ) → t.value ≡ value → t.kept ≡ KeptAt p has_effect
            → HasPassed t base a self.old → Hands c base a t self.new) }
    {
        if self.parts.list().taken().0 >= LAST_PLACE {
            return Ok(Caused::Nothing);
        }
        if !is_inc(value.id.origin) {
            return Ok(Caused::Nothing);
        }
        let me = self.me.inc;
        let entered = self.parts.take(
            self.alloc,
            me,
            &self.tables.tables().executed,
            &value,
            has_effect,
        )?;
        self.own
            .take(entered.place, is_own_arrival(me, value.id, &entered.held));
        let view = self.parts.list().view();
        self.tables.taken(view.mode(), view.primary());
        let caused = caused_by(me, &value, &entered);
        self.marks
            .push(Mark::Took(entered.place, value, entered.effect))?;
        Ok(caused)
    }

    /// The member, which takes slots, is ONLINE.
    pub fn come_online(&mut self, cause: Cause) -> Result<(), Memory>
        ensures { OnOk result (DoesIf (λ a. takes_slots a.life ≡ true) (push (Is Online cause)) self.old self.new) }
    {
        self.marks.push(Mark::State(MemberState::Online, cause))?;
        self.tables.stated(MemberState::Online);
        Ok(())
    }
}

fn is_inc(inc: Inc) -> bool
    ensures in_range { result ≡ true → IsInc inc }
    ensures all { IsInc inc → result ≡ true }
{
    1 <= inc.server && inc.server <= 32 && 1 <= inc.start
}

fn is_own_arrival(me: Inc, id: ValueId, held: &Held) -> bool
    ensures { result ≡ arrives_by me id held.now }
{
    id.origin == me && is_online(held)
}

fn is_online(held: &Held) -> bool
    ensures { result ≡ holds_online held.now }
{
    match held {
        Held::Other(Body::Online(_)) => true,
        _ => false,
    }
}

fn caused_by(me: Inc, value: &Value, entered: &Entered) -> Caused
    ensures { result ≡ cause_of me value.now entered.now.effect entered.now.held }
{
    match entered.effect {
        Effect::Conflict(gtid) => Caused::Conflict(value.id, gtid),
        Effect::Plain => caused_plainly(me, value, &entered.held),
        _ => Caused::Nothing,
    }
}

fn caused_plainly(me: Inc, value: &Value, held: &Held) -> Caused
    ensures { result ≡ plain_cause me value.now.id value.now.what held.now }
{
    match &value.what {
        What::Add(joiner) => Caused::Welcome(joiner.inc),
        What::Remove(inc) => caused_by_removal(me, *inc),
        What::Noop | What::Body(_) => caused_by_news(me, value.id, held),
    }
}

fn caused_by_removal(me: Inc, inc: Inc) -> Caused
    ensures { result ≡ (if inc_eq inc me then Caused.Removal else Caused.Nothing) }
{
    if inc == me {
        Caused::Removal
    } else {
        Caused::Nothing
    }
}

fn caused_by_news(me: Inc, id: ValueId, held: &Held) -> Caused
    ensures { result ≡ news_cause me id held.now }
{
    if is_own_arrival(me, id, held) {
        Caused::Arrival
    } else {
        Caused::Nothing
    }
}
