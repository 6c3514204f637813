// What an entry does to the queue, the own transactions, the acknowledgements and the holds.
ghost use Rattle.std.specs.Prelude.{◌≡◌, OnOk, if◌then◌else◌, map};
ghost use Rattle.gr_ids.specs.Names.{has_inc, inc_eq};
ghost use Rattle.consistency_waits.specs.Holding.{placed};
ghost use Rattle.gr_ids.specs.declared.memory.Memory.{Memory};
ghost use Rattle.gr_ids.specs.declared.names.Gtid.{Gtid as AnyGtid};
ghost use Rattle.group_rules.specs.View.{online_incs};
ghost use Rattle.gtid_sets.specs.Canonical.{IsUuid};
ghost use Rattle.list_state.specs.Holding.{HasNumber};
ghost use Rattle.prepare_acks.specs.Awaited.{awaited};
ghost use Rattle.prepare_acks.specs.Following.{with_cert, with_removed, with_required};
ghost use Rattle.member_parts.specs.Entering.{HasUuid, IsSpelt, acknowledged_by, cert_held};
ghost use Rattle.member_parts.specs.Remote.{with_own, with_remote};

use crate::own::{OwnCertified, OwnDone};
use crate::remotes::Remotes;
use apply_queue::{Work, WorkDone};
use consistency_waits::Waits;
use gr_ids::{Inc, Memory, Pos, ValueId};
use group_rules::Effect;
use gtid_sets::GtidSet;
use list_state::{Entered, Held, ListState};
use prepare_acks::Acks;
use slot_values::What;
use std::alloc::Global;
use txn_forms::Body;

/// A certified transaction of another origin is queued, unless it is committed already. Linear in its bytes.
pub(crate) fn queue_certified(
    remotes: &mut Remotes,
    alloc: Global,
    me: Inc,
    executed: &GtidSet,
    id: ValueId,
    entered: &Entered,
) -> Result<(), Memory>
    requires { IsSpelt entered.now.held }
    ensures { OnOk result (remotes.new ≡ with_remote me executed.now (cert_held entered.now.place id entered.now.effect entered.now.held) remotes.old) }
{
    let (Effect::Positive(gtid), Held::Txn(_, bytes)) = (&entered.effect, &entered.held) else {
        return Ok(());
    };
    if id.origin == me || executed.contains(*gtid) {
        return Ok(());
    }
    remotes.push(Work {
        place: entered.place,
        gtid: *gtid,
        body: bytes.try_copy(alloc)?,
    })
}

/// An own certified transaction waits for its commit, unless it is committed already. Linear in its bytes.
pub(crate) fn keep_own(
    own: &mut OwnCertified,
    alloc: Global,
    me: Inc,
    executed: &GtidSet,
    id: ValueId,
    entered: &Entered,
) -> Result<(), Memory>
    requires { IsSpelt entered.now.held }
    ensures { OnOk result (own.new ≡ with_own me executed.now (cert_held entered.now.place id entered.now.effect entered.now.held) own.old) }
{
    let (Effect::Positive(gtid), Held::Txn(_, bytes)) = (&entered.effect, &entered.held) else {
        return Ok(());
    };
    if id.origin != me || executed.contains(*gtid) {
        return Ok(());
    }
    let work = Work {
        place: entered.place,
        gtid: *gtid,
        body: bytes.try_copy(alloc)?,
    };
    let done = WorkDone::of(alloc, work)?;
    own.push(OwnDone { gtid: *gtid, done })
}

/// An AFTER transaction requires the members that are ONLINE. Linear in these.
pub(crate) fn require_certified(
    acks: &mut Acks,
    alloc: Global,
    list: &ListState,
    id: ValueId,
    entered: &Entered,
) -> Result<(), Memory>
    ensures { OnOk result ((g : AnyGtid) → awaited acks.new g
        ≡ with_cert (cert_held entered.now.place id entered.now.effect entered.now.held) (online_incs list.now.view) (awaited acks.old) g) }
{
    let (Effect::Positive(gtid), Held::Txn(txn, _)) = (&entered.effect, &entered.held) else {
        return Ok(());
    };
    if !txn.after {
        return Ok(());
    }
    let online = list.online(alloc)?;
    acks.require(alloc, *gtid, id.origin, &online)
}

/// It is known for good where it requires this member.
pub(crate) fn note_required(
    required: &mut GtidSet,
    alloc: Global,
    me: Inc,
    list: &ListState,
    id: ValueId,
    entered: &Entered,
) -> Result<(), Memory>
    requires { HasNumber entered.now.effect }
    ensures { OnOk result (required.new ≡ with_required me (online_incs list.now.view) (cert_held entered.now.place id entered.now.effect entered.now.held) required.old) }
{
    let (Effect::Positive(gtid), Held::Txn(txn, _)) = (&entered.effect, &entered.held) else {
        return Ok(());
    };
    if !txn.after {
        return Ok(());
    }
    let online = list.online(alloc)?;
    if !is_among(&online, me) {
        return Ok(());
    }
    required.add(*gtid)
}

fn is_among(incs: &[Inc], inc: Inc) -> bool
    ensures { result ≡ has_inc incs.now inc }
{
    incs.iter().any(|other| *other == inc)
}

/// A Prepared entry acknowledges a transaction.
pub(crate) fn acknowledge(acks: &mut Acks, origin: Inc, held: &Held)
    ensures { (g : AnyGtid) → awaited acks.new g ≡ acknowledged_by origin held.now (awaited acks.old) g }
{
    if let Held::Other(Body::Prepared(gtid)) = held {
        acks.prepared(*gtid, origin);
    }
}

/// For a member that is removed nothing waits.
pub(crate) fn release_removed(acks: &mut Acks, what: &What, effect: Effect)
    ensures { (g : AnyGtid) → awaited acks.new g ≡ with_removed effect what.now (awaited acks.old) g }
{
    if let (What::Remove(inc), Effect::Plain) = (what, effect) {
        acks.left(*inc);
    }
}

/// An own value may be the Sync of a held begin.
pub(crate) fn place_sync(waits: &mut Waits, me: Inc, id: ValueId, place: Pos)
    ensures { waits.new ≡ (if inc_eq id.origin me then map (placed id place) waits.old else waits.old) }
{
    if id.origin == me {
        waits.sync_taken(id, place);
    }
}

/// The UUID of a GTID that is given is sixteen bytes: this reads them, and compiles to nothing.
#[inline]
pub(crate) fn effect_fits(effect: &Effect)
    ensures { HasUuid effect.now }
{
    if let Effect::Positive(gtid) = effect {
        uuid_fits(&gtid.source);
    }
}

#[inline]
pub(crate) fn uuid_fits(id: &[u8; 16])
    ensures { IsUuid id.now }
{
    'bytes: for i in 0..16 {
        let _ = id[i];
    }
}
