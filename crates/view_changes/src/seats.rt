// Lists of seats, and views made of others.
ghost use Rattle.std.specs.Prelude.{◌≡◌, IfOk, OnErr, OnOk, filter, if◌then◌else◌, map, not};
ghost use Rattle.std.specs.List.{prefix_len};
ghost use Rattle.gr_ids.specs.Names.{inc_eq, inc_lt};
ghost use Rattle.gr_ids.specs.declared.memory.Memory.{Memory};
ghost use Rattle.gr_ids.specs.declared.levels.MemberState.TheVariants.{Online};
ghost use Rattle.group_rules.specs.View.{comes_online, with_seat};

use crate::view::View;
use gr_ids::{Inc, MemberState, Memory};
use node_rules::Seat;
use slot_values::Joiner;
use std::alloc::Global;

pub(crate) fn copied(alloc: Global, view: &View) -> Result<View, Memory>
    ensures { IfOk result (λ v. v ≡ view.now) }
{
    Ok(View {
        number: view.number,
        mode: view.mode,
        primary: view.primary,
        elected: view.elected,
        seats: view.seats.to_vec(alloc)?,
    })
}

pub(crate) fn seats_of_founders(alloc: Global, founders: &[Joiner]) -> Result<Vec<Seat>, Memory>
    ensures { IfOk result (λ v. v.items ≡ map (λ j. record { joiner = j; state = Online }) founders.now) }
{
    Ok(
        founders
            .iter()
            .map(|joiner| Seat {
                joiner: *joiner,
                state: MemberState::Online,
            })
            .collect(alloc)?,
    )
}

/// These seats, that of the incarnation ONLINE.
pub(crate) fn with_online(alloc: Global, seats: &[Seat], inc: Inc) -> Result<Vec<Seat>, Memory>
    ensures { IfOk result (λ v. v.items ≡ comes_online seats.now inc) }
{
    Ok(
        seats
            .iter()
            .map(|seat| online_if(seat, inc))
            .collect(alloc)?,
    )
}

fn online_if(seat: &Seat, inc: Inc) -> Seat
    ensures { result ≡ (if inc_eq seat.now.joiner.inc inc then record seat.now { state = Online } else seat.now) }
{
    if seat.joiner.inc == inc {
        Seat {
            joiner: seat.joiner,
            state: MemberState::Online,
        }
    } else {
        *seat
    }
}

// The first place whose member isn't before the incarnation.
fn seat_place(seats: &[Seat], inc: Inc) -> usize
    ensures { result ≡ prefix_len (λ s. not (inc_lt inc s.joiner.inc)) seats.now }
{
    for (k, seat) in seats.iter().enumerate() {
        if inc < seat.joiner.inc {
            return k;
        }
    }
    seats.len()
}

/// A seat more, by ascending incarnation.
pub(crate) fn add_seat(seats: &mut Vec<Seat>, seat: Seat) -> Result<(), Memory>
    ensures ok { OnOk result (seats.new.items ≡ with_seat seats.old.items seat) }
    ensures err { OnErr result (seats.new.items ≡ seats.old.items) }
{
    let at = seat_place(seats, seat.joiner.inc);
    seats.insert(at, seat)?;
    Ok(())
}

/// All seats but that of the incarnation.
pub(crate) fn without_seat(alloc: Global, seats: &[Seat], inc: Inc) -> Result<Vec<Seat>, Memory>
    ensures { IfOk result (λ v. v.items ≡ filter (λ s. not (inc_eq s.joiner.inc inc)) seats.now) }
{
    Ok(
        seats
            .iter()
            .filter(|seat| seat.joiner.inc != inc)
            .copied()
            .collect(alloc)?,
    )
}
