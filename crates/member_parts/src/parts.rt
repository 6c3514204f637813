// The parts together.
ghost use Rattle.std.specs.Prelude.{◌≡◌, ◌<◌, ◌≤◌, ◌^◌, ◌∷◌, ℕ, suc, [], IfOk, false, map, OnOk};
ghost use Rattle.gr_ids.specs.declared.memory.Memory.{Memory};
ghost use Rattle.gr_ids.specs.declared.names.Inc.{Inc as Member};
ghost use Rattle.name_forms.specs.Incs.{IsInc};
ghost use Rattle.group_rules.specs.Events.{Came, Founds, Hears, Life, Setup, Ticks, Took};
ghost use Rattle.group_rules.specs.Life.{executed as executed_by, is_error, state, taken};
ghost use Rattle.group_rules.specs.Parts.{open_parts};
ghost use Rattle.group_rules.specs.Taking.{entry_of};
ghost use Rattle.paxos_forms.specs.declared.message.Message.{Message as AnyMessage};
ghost use Rattle.list_state.specs.Holding.{HasNumber, IsEntered};
ghost use Rattle.member_truth.specs.Truth.{IsTrueEntry};
ghost use Rattle.member_parts.specs.Standing.{StandsFor};

use crate::certified::{
    acknowledge, effect_fits, keep_own, note_required, place_sync, queue_certified,
    release_removed, require_certified,
};
use crate::entering::{await_certified, give_certified, mark_add, watch_entry};
use crate::own::OwnCertified;
use crate::remotes::Remotes;
use apply_queue::Queue;
use consistency_waits::Waits;
use donor_recovery::Donor;
use failure_events::Watch;
use gr_ids::{Inc, Limits, Memory, Mode};
use gtid_sets::GtidSet;
use list_state::{Entered, ListState};
use member_backlog::Backlog;
use prepare_acks::Acks;
use slot_values::{Joiner, Value};
use std::alloc::Global;

/// What the list has made at a member, its watch of the others, what it keeps as a donor, what waits to be committed and with which
/// changes, who acknowledges what, and the begins that are held.
#[derive(Debug, Drop)]
pub struct MemberParts {
    pub(crate) list: ListState,
    pub(crate) watch: Watch,
    pub(crate) donor: Donor,
    pub(crate) backlog: Backlog,
    pub(crate) remotes: Remotes,
    pub(crate) own: OwnCertified,
    pub(crate) acks: Acks,
    pub(crate) required: GtidSet,
    pub(crate) sent: GtidSet,
    pub(crate) waits: Waits,
}

impl MemberParts {
    /// Those of a founder. The size of a block is 1 to 1,000,000. Linear in the founders.
    pub fn founded(
        alloc: Global,
        me: Inc,
        founders: &[Joiner],
        mode: Mode,
        limits: Limits,
    ) -> Result<MemberParts, Memory>
        requires least { 1 ≤ limits.block }
        requires most { limits.block ≤ 1000000 }
        ensures { IfOk result (StandsFor (record { limits = limits; mode = mode; founders = founders.now }) me (Founds ∷ [])) }
    {
        let members = incs_of(alloc, founders)?;
        Ok(MemberParts {
            list: ListState::founded(alloc, founders, mode, limits)?,
            watch: Watch::new(alloc, me, &members, limits)?,
            donor: Donor::new(alloc),
            backlog: Backlog::new(alloc),
            remotes: Remotes::new(alloc),
            own: OwnCertified::new(alloc),
            acks: Acks::new(alloc),
            required: GtidSet::new(alloc),
            sent: GtidSet::new(alloc),
            waits: Waits::new(alloc),
        })
    }

    /// One tick passes. Linear in the members and in the holds; takes no memory.
    pub fn tick(&mut self)
        ensures { (s : Setup) (me : Member) (l : Life) → StandsFor s me l self.old → StandsFor s me (Came Ticks ∷ l) self.new }
    {
        self.watch.tick();
        self.waits.tick();
    }

    /// A message came from this incarnation. Linear in the members; takes no memory.
    pub fn heard(&mut self, from: Inc)
        ensures { (s : Setup) (me : Member) (l : Life) (m : AnyMessage) → m.from ≡ from → StandsFor s me l self.old
            → StandsFor s me (Came (Hears m) ∷ l) self.new }
    {
        self.watch.heard(from);
    }

    /// Takes the value of the next place, `executed` being what is executed here; whether an Add or a Remove has effect is known from the kept list. Places end at 2^42. After
    /// want of memory some of it may be done: the member stops. Linear in the members and in the value's bytes, besides what
    /// certification and forgetting take; at an Add linear in the kept items too.
    pub fn take(
        &mut self,
        alloc: Global,
        me: Inc,
        executed: &GtidSet,
        value: &Value,
        has_effect: bool,
    ) -> Result<Entered, Memory>
        requires room { self.old.list.taken < 2 ^ 42 }
        requires origin { IsInc value.now.id.origin }
        ensures entered { IfOk result (λ x. (s : Setup) (l : Life) (t : ℕ) → StandsFor s me l self.old
            → IsEntered (open_parts l value.now.id.origin) (entry_of s l t (suc (taken l)) has_effect value.now) x) }
        ensures number { IfOk result (λ x. HasNumber x.effect) }
        ensures taken { OnOk result ((s : Setup) (l : Life) (t : ℕ) → executed.now ≡ executed_by l → is_error (state l) ≡ false
            → IsTrueEntry s me l (entry_of s l t (suc (taken l)) has_effect value.now) → StandsFor s me l self.old
            → StandsFor s me (Took (entry_of s l t (suc (taken l)) has_effect value.now) ∷ l) self.new) }
    {
        let entered = self.list.take(alloc, value, has_effect)?;
        let (id, what) = (value.id, &value.what);
        watch_entry(&mut self.watch, what, entered.effect)?;
        give_certified(&mut self.donor, alloc, id.origin, &entered)?;
        mark_add(&mut self.donor, alloc, &self.list, what, entered.effect)?;
        await_certified(&mut self.backlog, executed, id, &entered)?;
        queue_certified(&mut self.remotes, alloc, me, executed, id, &entered)?;
        keep_own(&mut self.own, alloc, me, executed, id, &entered)?;
        effect_fits(&entered.effect);
        require_certified(&mut self.acks, alloc, &self.list, id, &entered)?;
        note_required(&mut self.required, alloc, me, &self.list, id, &entered)?;
        acknowledge(&mut self.acks, id.origin, &entered.held);
        release_removed(&mut self.acks, what, entered.effect);
        place_sync(&mut self.waits, me, id, entered.place);
        Ok(entered)
    }

    /// What the list has made.
    pub fn list(&self) -> &ListState
        ensures { result.now ≡ self.now.list }
    {
        &self.list
    }

    /// The watch.
    pub fn watch(&self) -> &Watch
        ensures { result.now ≡ self.now.watch }
    {
        &self.watch
    }

    /// What waits to be committed.
    pub fn backlog(&self) -> &Backlog
        ensures { result.now ≡ self.now.backlog }
    {
        &self.backlog
    }

    /// The queue.
    pub fn queue(&self) -> &Queue
        ensures { result.now ≡ self.now.remotes.queue }
    {
        self.remotes.queue()
    }

    /// The donor.
    pub fn donor(&self) -> &Donor
        ensures { result.now ≡ self.now.donor }
    {
        &self.donor
    }
}

fn incs_of(alloc: Global, founders: &[Joiner]) -> Result<Vec<Inc>, Memory>
    ensures { IfOk result (λ v. v.items ≡ map (λ j. j.inc) founders.now) }
{
    Ok(founders.iter().map(|founder| founder.inc).collect(alloc)?)
}
