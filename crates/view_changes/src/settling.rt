// The election where no member is primary.
ghost use Rattle.std.specs.Prelude.{◌≡◌, IfOk, OnErr, OnOk};
ghost use Rattle.std.specs.List.{list_any};
ghost use Rattle.gr_ids.specs.Names.{inc_eq};
ghost use Rattle.gr_ids.specs.declared.memory.Memory.{Memory};
ghost use Rattle.group_rules.specs.View.{has_primary, is_online, is_seated, joiners, online_seats, settled};

use crate::view::View;
use gr_ids::{Inc, MemberState, Memory, Mode};
use primary_election::elect;
use slot_values::Joiner;
use std::alloc::Global;

/// In single-primary mode an ONLINE member is elected at this place where no member is primary.
pub(crate) fn settle(view: &mut View, alloc: Global, place: u64) -> Result<(), Memory>
    ensures ok { OnOk result (view.new ≡ settled place view.old) }
    ensures err { OnErr result (view.new ≡ view.old) }
{
    if view.mode == Mode::Multi || has_its_primary(view) {
        return Ok(());
    }
    view.primary = elect(&candidates(view, alloc)?);
    view.elected = if view.primary.is_some() { place } else { 0 };
    Ok(())
}

fn has_its_primary(view: &View) -> bool
    ensures { result ≡ has_primary view.now view.now.primary }
{
    match view.primary {
        Some(primary) => is_member(view, primary),
        None => false,
    }
}

pub(crate) fn is_member(view: &View, inc: Inc) -> bool
    ensures { result ≡ is_seated view.now inc }
{
    view.seats.iter().any(|seat| seat.joiner.inc == inc)
}

pub(crate) fn is_member_online(view: &View, inc: Inc) -> bool
    ensures { result ≡ is_online view.now inc }
{
    view.seats.iter().any(|seat| seat.joiner.inc == inc && seat.state == MemberState::Online)
}

// The ONLINE members.
fn candidates(view: &View, alloc: Global) -> Result<Vec<Joiner>, Memory>
    ensures { IfOk result (λ js. js.items ≡ joiners (online_seats view.now)) }
{
    Ok(
        view.seats
            .iter()
            .filter(|seat| seat.state == MemberState::Online)
            .map(|seat| seat.joiner)
            .collect(alloc)?,
    )
}
