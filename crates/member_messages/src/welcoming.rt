// What a joiner is told when its Add is taken.
ghost use Rattle.std.specs.Prelude.{◌≡◌, IfOk, find, map, true};
ghost use Rattle.std.specs.List.{All, list_all};
ghost use Rattle.std.specs.Option.{option_copied};
ghost use Rattle.gr_ids.specs.Names.{inc_eq};
ghost use Rattle.gr_ids.specs.declared.memory.Memory.{Memory};
ghost use Rattle.slot_values.specs.Log.{incs};
ghost use Rattle.node_rules.specs.Node.{Node as NodeOf};
ghost use Rattle.node_rules.specs.Welcoming.{welcome_of};
ghost use Rattle.group_rules.specs.View.{is_seated, shown};
ghost use Rattle.member_messages.specs.Greeting.{is_in_seats, welcomed_as};

use gr_ids::{Ballot, Inc, Memory, Sequence};
use node_rules::Seat;
use paxos_forms::{Welcome, WelcomeMember};
use slot_values::{Joiner, Member, Turns, TurnsAt};
use std::alloc::Global;
use view_changes::View;

/// What a joiner is told whose Add was just taken: the node's log, `turns`, what the node has promised, and the view. Each member of the log has a
/// seat in the view. Linear in the configurations, and in the members times the seats, of both of which there are at most 9.
pub fn welcome(
    alloc: Global,
    turns: &Turns,
    promise: Ballot,
    view: &View,
) -> Result<Welcome, Memory>
    requires { list_all (is_seated view.now) (incs turns.now.turns.reading.members) ≡ true }
    ensures { IfOk result (λ w. (n : NodeOf) → n.acceptor.promise ≡ promise → w ≡ welcome_of n turns.now.turns (shown view.now)) }
{
    let TurnsAt {
        slot,
        place,
        last,
        ever,
        configs,
    } = turns.at(alloc)?;
    let members = members_shown(alloc, view.seats(), last.as_slice())?;
    Ok(Welcome {
        slot,
        place,
        number: view.number(),
        promise,
        mode: view.mode(),
        primary: view.primary(),
        elected: view.elected(),
        members: Sequence::from_vec(members),
        ever,
        configs,
    })
}

fn members_shown(
    alloc: Global,
    seats: &[Seat],
    members: &[Member],
) -> Result<Vec<WelcomeMember>, Memory>
    requires { All (λ m. is_in_seats seats.now m.inc ≡ true) members.now }
    ensures { IfOk result (λ v. v.items ≡ map (welcomed_as seats.now) members.now) }
{
    let mut shown = Vec::new(alloc);
    for member in members {
        shown.push(member_shown(seats, *member))?;
    }
    Ok(shown)
}

fn member_shown(seats: &[Seat], member: Member) -> WelcomeMember
    requires { is_in_seats seats.now member.inc ≡ true }
    ensures { result ≡ welcomed_as seats.now member }
{
    let Some(seat) = seat_of(seats, member.inc) else {
        unreachable!()
    };
    let uuid = seat.joiner.uuid;
    let version = seat.joiner.version;
    let joiner = Joiner {
        inc: member.inc,
        uuid,
        version,
        weight: seat.joiner.weight,
    };
    WelcomeMember {
        joiner,
        state: seat.state,
        last: member.last,
    }
}

fn seat_of(seats: &[Seat], inc: Inc) -> Option<&Seat>
    ensures { option_copied result ≡ find (λ s. inc_eq s.joiner.inc inc) seats.now }
{
    seats.iter().find(|seat| seat.joiner.inc == inc)
}
