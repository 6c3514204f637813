// Whether the conditions of a begin hold.
ghost use Rattle.std.specs.Prelude.{◌≡◌, not};
ghost use Rattle.std.specs.List.{list_all};
ghost use Rattle.group_rules.specs.Holds.{is_clear, is_clear_at, is_met, is_pending, is_synced};
ghost use Rattle.consistency_waits.specs.Holding.{is_due};

use crate::held::Held;
use gr_ids::{Gtid, Pos, ValueId};
use group_rules::Pending;

pub(crate) fn holds_now(held: &Held, pending: &[Pending]) -> bool
    ensures { result ≡ is_due pending.now held.now }
{
    let conditions = &held.conditions;
    none_pending(conditions.after.as_slice(), pending)
        && is_synced_now(conditions.sync, held.sync_place, pending)
        && is_clear_before(conditions.elected, pending)
        && is_clear_before(conditions.online, pending)
}

fn none_pending(gtids: &[Gtid], pending: &[Pending]) -> bool
    ensures { result ≡ list_all (λ g. not (is_pending pending.now g)) gtids.now }
{
    gtids.iter().all(|gtid| !is_pending_here(pending, *gtid))
}

fn is_pending_here(pending: &[Pending], gtid: Gtid) -> bool
    ensures { result ≡ is_pending pending.now gtid }
{
    pending.iter().any(|other| other.gtid == gtid)
}

fn is_synced_now(sync: Option<ValueId>, place: Option<Pos>, pending: &[Pending]) -> bool
    ensures { result ≡ is_synced pending.now sync place }
{
    match (sync, place) {
        (None, _) => true,
        (Some(_), None) => false,
        (Some(_), Some(place)) => is_clear_to(pending, place),
    }
}

fn is_clear_before(place: Option<Pos>, pending: &[Pending]) -> bool
    ensures { result ≡ is_clear_at pending.now place }
{
    match place {
        Some(place) => is_clear_to(pending, place),
        None => true,
    }
}

fn is_clear_to(pending: &[Pending], place: Pos) -> bool
    ensures { result ≡ is_clear pending.now place }
{
    pending.iter().all(|other| other.place.0 >= place.0)
}
