// Changes of each hold.
ghost use Rattle.std.specs.Prelude.{◌≡◌, map, not, nat_lt};
ghost use Rattle.std.specs.List.{prefix_len};
ghost use Rattle.consistency_waits.specs.Holding.{placed, ticked};

use crate::held::Held;
use gr_ids::{Pos, SessionId, ValueId};

/// The Sync is taken at this place.
pub(crate) fn place_sync(holds: &mut [Held], sync: ValueId, place: Pos)
    ensures { holds.new ≡ map (placed sync place) holds.old }
{
    for held in holds.iter_mut() {
        place_one(held, sync, place);
    }
}

fn place_one(held: &mut Held, sync: ValueId, place: Pos)
    ensures { held.new ≡ placed sync place held.old }
{
    if held.conditions.sync == Some(sync) {
        held.sync_place = Some(place);
    }
}

/// One tick more for each.
pub(crate) fn tick_each(holds: &mut [Held])
    ensures { holds.new ≡ map ticked holds.old }
{
    for held in holds.iter_mut() {
        tick_one(held);
    }
}

fn tick_one(held: &mut Held)
    ensures { held.new ≡ ticked held.old }
{
    held.ticks = held.ticks.saturating_add(1);
}

/// The place of a session among these.
pub(crate) fn place_of(holds: &[Held], session: SessionId) -> usize
    ensures { result ≡ prefix_len (λ h. not (nat_lt session h.session)) holds.now }
{
    for (k, held) in holds.iter().enumerate() {
        if session < held.session {
            return k;
        }
    }
    holds.len()
}
