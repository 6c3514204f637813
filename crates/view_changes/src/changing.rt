// What an entry does to the view.
ghost use Rattle.std.specs.Prelude.{◌≡◌, ◌≤◌, ◌^◌, OnErr, OnOk, Some, [], not};
ghost use Rattle.std.specs.Option.{option_map};
ghost use Rattle.gr_ids.specs.declared.memory.Memory.{Memory};
ghost use Rattle.slot_values.specs.declared.value.What.TheVariants.{Body as Says};
ghost use Rattle.txn_forms.specs.declared.body.Body.TheVariants.{Primary as Appoints};
ghost use Rattle.group_rules.specs.View.{changed_view, effect_in, is_idle, void_if, with_named};

use crate::seats::{add_seat, with_online, without_seat};
use crate::settling::is_member_online;
use crate::view::View;
use gr_ids::{Inc, MemberState, Memory, Mode};
use group_rules::Effect;
use node_rules::Seat;
use slot_values::What;
use std::alloc::Global;
use txn_forms::{Body, ModeChange};

/// What an entry does that holds no transaction.
pub(crate) fn effect_here(
    view: &View,
    what: &What,
    holds: Option<&Body>,
    has_effect: bool,
) -> Effect
    ensures { result ≡ effect_in view.now has_effect what.now (option_map (λ b. b.now) holds.entry) }
{
    match (what, holds) {
        (What::Add(_), _) | (What::Remove(_), _) => void_where(!has_effect),
        (_, None) => Effect::Unread,
        (_, Some(body)) => void_where(does_nothing(view, body)),
    }
}

fn void_where(nothing: bool) -> Effect
    ensures { result ≡ void_if nothing }
{
    if nothing { Effect::Void } else { Effect::Plain }
}

// A change to the mode that there is, or to a primary that may not be or is it already.
fn does_nothing(view: &View, body: &Body) -> bool
    ensures { result ≡ is_idle view.now body.now }
{
    match body {
        Body::Mode(ModeChange::Multi) => view.mode == Mode::Multi,
        Body::Mode(ModeChange::Single(_)) => view.mode == Mode::Single,
        Body::Primary(inc) => !may_become_primary(view, *inc),
        _ => false,
    }
}

fn may_become_primary(view: &View, inc: Inc) -> bool
    ensures { not result ≡ is_idle view.now (Appoints inc) }
{
    view.mode == Mode::Single && is_member_online(view, inc) && view.primary != Some(inc)
}

/// An entry that takes effect changes the view.
pub(crate) fn change(
    view: &mut View,
    alloc: Global,
    place: u64,
    origin: Inc,
    what: &What,
    holds: Option<&Body>,
) -> Result<(), Memory>
    requires { view.old.number ≤ 2 ^ 42 }
    ensures ok { OnOk result (view.new ≡ changed_view place origin what.now (option_map (λ b. b.now) holds.entry) view.old) }
    ensures err { OnErr result (view.new ≡ view.old) }
{
    match (what, holds) {
        (What::Add(joiner), _) => {
            let seat = Seat {
                joiner: *joiner,
                state: MemberState::Recovering,
            };
            add_seat(&mut view.seats, seat)?;
            view.number += 1;
        }
        (What::Remove(inc), _) => {
            view.seats = without_seat(alloc, &view.seats, *inc)?;
            view.number += 1;
        }
        (_, Some(body)) => change_by(view, alloc, place, origin, body)?,
        (_, None) => {}
    }
    Ok(())
}

fn change_by(
    view: &mut View,
    alloc: Global,
    place: u64,
    origin: Inc,
    body: &Body,
) -> Result<(), Memory>
    ensures ok { OnOk result (view.new ≡ changed_view place origin (Says []) (Some body.now) view.old) }
    ensures err { OnErr result (view.new ≡ view.old) }
{
    match body {
        Body::Online(_) => view.seats = with_online(alloc, &view.seats, origin)?,
        Body::Mode(ModeChange::Multi) => {
            view.mode = Mode::Multi;
            view.primary = None;
            view.elected = 0;
        }
        Body::Mode(ModeChange::Single(named)) => {
            view.mode = Mode::Single;
            view.primary = None;
            name(view, place, *named);
        }
        Body::Primary(inc) => {
            view.primary = Some(*inc);
            view.elected = place;
        }
        _ => {}
    }
    Ok(())
}

// The incarnation named becomes primary where it is an ONLINE member.
fn name(view: &mut View, place: u64, named: Option<Inc>)
    ensures { view.new ≡ with_named place named view.old }
{
    if let Some(inc) = named {
        if is_member_online(view, inc) {
            view.primary = named;
            view.elected = place;
        }
    }
}
