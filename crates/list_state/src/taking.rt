// One entry more.
ghost use Rattle.std.specs.Prelude.{◌≡◌, ◌<◌, ◌^◌, ◌&&◌, ℕ, IfOk, List, OnErr, OnOk, true};
ghost use Rattle.gr_ids.specs.declared.memory.Memory.{Memory};
ghost use Rattle.name_forms.specs.Incs.{IsInc};
ghost use Rattle.group_rules.specs.View.{online_incs, void_if};
ghost use Rattle.group_rules.specs.Told.{stable_of, with_told};
ghost use Rattle.certifier.specs.Certifying.{HasNumber as IsNumbered, effect_of, without_stable};
ghost use Rattle.list_state.specs.Holding.{HasNumber, IsEntered, certified_held, effect_held, told_held};
ghost use Rattle.list_state.specs.Listing.{entry_next, open_of, with_entry};
ghost use Rattle.list_state.specs.Settling.{first_online, is_new_to, is_quiet};
ghost use Rattle.list_state.specs.declared.held.Held.TheVariants.{Txn as HoldsTxn};
ghost use Rattle.txn_forms.specs.declared.body.Txn.{Txn as AnyTxn};

use crate::entered::Entered;
use crate::held::Held;
use crate::holding::hold;
use crate::state::{ListState, online_members};
use certifier::{Certifier, Verdict};
use gr_ids::{Gtid, Inc, MemberState, Memory, Pos};
use group_rules::Effect;
use gtid_sets::GtidSet;
use slot_values::Value;
use stable_set::Told;
use std::alloc::Global;
use txn_forms::Body;
use view_changes::View;

impl ListState {
    /// Takes the value of the next place; whether an Add or a Remove has effect is known from the kept list. Places end at 2^42. After
    /// want of memory some of it may be done: the member stops. Linear in the members and in the value's bytes, besides what
    /// certification takes, and forgetting: linear in the runs that the ONLINE members told, and left out where a transaction or a part
    /// brings nothing stable.
    pub fn take(
        &mut self,
        alloc: Global,
        value: &Value,
        has_effect: bool,
    ) -> Result<Entered, Memory>
        requires room { self.old.taken < 2 ^ 42 }
        requires origin { IsInc value.now.id.origin }
        ensures entered { IfOk result (λ x. (t : ℕ) → IsEntered (open_of self.old value.now) (entry_next self.old t has_effect value.now) x) }
        ensures number { IfOk result (λ x. HasNumber x.effect) }
        ensures made { OnOk result ((t : ℕ) → self.new ≡ with_entry (entry_next self.old t has_effect value.now) self.old) }
    {
        let was_settled = self.settled;
        self.settled = false;
        self.taken += 1;
        let place = Pos(self.taken);
        let origin = value.id.origin;
        let held = hold(alloc, &mut self.parts, value)?;
        let seen = self
            .view
            .take(alloc, place, value, held.news(), has_effect)?;
        let effect = certify_held(&mut self.certifier, alloc, place, origin, &held, seen)?;
        note_told(&mut self.told, alloc, origin, &held)?;
        let is_settled = still_settled(was_settled, &self.told, &self.view, &held, effect);
        settle(
            &mut self.certifier,
            alloc,
            &self.told,
            &self.view,
            is_settled,
        )?;
        self.settled = true;
        Ok(Entered {
            place,
            effect,
            held,
        })
    }
}

// A transaction is certified. A part has the effect that is known of it, and all else that which the view says.
fn certify_held(
    certifier: &mut Certifier,
    alloc: Global,
    place: Pos,
    origin: Inc,
    held: &Held,
    seen: Effect,
) -> Result<Effect, Memory>
    requires few { certifier.old.certified.blocks < 2 ^ 42 }
    requires seen { HasNumber seen }
    ensures number { IfOk result HasNumber }
    ensures effect { IfOk result (λ e. e ≡ effect_held certifier.old origin held.now seen) }
    ensures ok { OnOk result (certifier.new ≡ certified_held place origin held.now certifier.old) }
    ensures err { OnErr result (certifier.new ≡ certifier.old) }
{
    match held {
        Held::Txn(txn, _) => Ok(effect_by(certifier.certify(alloc, origin, place, txn)?)),
        Held::Part(void) => Ok(void_where(*void)),
        _ => Ok(seen),
    }
}

fn effect_by(verdict: Verdict) -> Effect
    requires { IsNumbered verdict }
    ensures effect { result ≡ effect_of verdict }
    ensures number { HasNumber result }
{
    match verdict {
        Verdict::Positive(gtid) => Effect::Positive(gtid),
        Verdict::Conflict(gtid) => Effect::Conflict(gtid),
    }
}

fn void_where(void: bool) -> Effect
    ensures { result ≡ void_if void }
{
    if void { Effect::Void } else { Effect::Plain }
}

// The entry may tell its origin's executed set.
fn note_told(told: &mut Told, alloc: Global, origin: Inc, held: &Held) -> Result<(), Memory>
    ensures { OnOk result (told.new ≡ told_held origin held.now told.old) }
{
    match held {
        Held::Other(Body::Executed(set)) | Held::Other(Body::Online(set)) => {
            note_set(told, alloc, origin, set)
        }
        _ => Ok(()),
    }
}

fn note_set(told: &mut Told, alloc: Global, origin: Inc, set: &GtidSet) -> Result<(), Memory>
    ensures { OnOk result (told.new ≡ with_told told.old (record { inc = origin; set = set.now })) }
{
    told.told(origin, set.try_copy(alloc)?)
}

// Whether nothing is left to forget after an entry, by whether nothing was before it. Linear in the members.
fn still_settled(was: bool, told: &Told, view: &View, held: &Held, effect: Effect) -> bool
    ensures { result ≡ (was && is_quiet told.now (first_online view.now) held.now effect) }
{
    if was {
        return is_quiet(told, view, held, effect);
    }
    false
}

fn is_quiet(told: &Told, view: &View, held: &Held, effect: Effect) -> bool
    ensures { result ≡ is_quiet told.now (first_online view.now) held.now effect }
{
    match held {
        Held::Txn(..) => brings_nothing(told, view, effect),
        Held::Part(_) => true,
        _ => false,
    }
}

// Whether a transaction of this effect brings the certifier nothing that is stable.
fn brings_nothing(told: &Told, view: &View, effect: Effect) -> bool
    ensures { (t : AnyTxn) (b : List ℕ) → result ≡ is_quiet told.now (first_online view.now) (HoldsTxn t b) effect }
{
    match effect {
        Effect::Positive(gtid) => is_new_to(told, first_online(view), gtid),
        _ => true,
    }
}

fn is_new_to(told: &Told, member: Option<Inc>, gtid: Gtid) -> bool
    ensures { result ≡ is_new_to told.now member gtid }
{
    match member {
        Some(inc) => !told.has(inc, gtid),
        None => true,
    }
}

fn first_online(view: &View) -> Option<Inc>
    ensures { result ≡ first_online view.now }
{
    view.seats()
        .iter()
        .find(|seat| seat.state == MemberState::Online)
        .map(|seat| seat.joiner.inc)
}

// The stable set is made only where something may be left to forget.
fn settle(
    certifier: &mut Certifier,
    alloc: Global,
    told: &Told,
    view: &View,
    is_settled: bool,
) -> Result<(), Memory>
    requires { is_settled ≡ true → without_stable (stable_of told.now (online_incs view.now)) certifier.old ≡ certifier.old }
    ensures ok { OnOk result (certifier.new ≡ without_stable (stable_of told.now (online_incs view.now)) certifier.old) }
    ensures err { OnErr result (certifier.new ≡ certifier.old) }
{
    if is_settled {
        return Ok(());
    }
    forget_stable(certifier, alloc, told, view)
}

// What the stable set has is certified against no more. Linear in the runs that the ONLINE members told.
fn forget_stable(
    certifier: &mut Certifier,
    alloc: Global,
    told: &Told,
    view: &View,
) -> Result<(), Memory>
    ensures ok { OnOk result (certifier.new ≡ without_stable (stable_of told.now (online_incs view.now)) certifier.old) }
    ensures err { OnErr result (certifier.new ≡ certifier.old) }
{
    let online = online_members(alloc, view)?;
    let stable = told.stable(alloc, &online)?;
    certifier.forget(&stable);
    Ok(())
}
