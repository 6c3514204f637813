// The members as one of them sees them, and where it stands itself.
ghost use Rattle.std.specs.Prelude.{◌≡◌, IfOk, map};
ghost use Rattle.group_rules.specs.Events.{Life};
ghost use Rattle.group_rules.specs.Looks.{show_config as shows_config, show_gtids as shows_gtids, show_kept as shows_kept, show_members as shows_members, show_slots as shows_slots};
ghost use Rattle.group_rules.specs.Member.{Member};
ghost use Rattle.member_moment.specs.Standing.{Stands};
ghost use Rattle.member_looks.specs.Showing.{member_shown as shown_as, state_shown};

use crate::copying::copied_config;
use failure_events::Watch;
use gr_ids::{Inc, MemberState, Memory, Sequence};
use group_rules::{Look, Shown, ShownMember};
use member_moment::Moment;
use node_rules::Seat;
use std::alloc::Global;

/// The members, as it sees them: those that it suspects are unreachable, and itself it shows in its own state. Linear in the members, times
/// those that it watches.
pub fn show_members(alloc: Global, moment: &Moment) -> Result<Look, Memory>
    ensures { IfOk result (λ l. (base : Life) (a : Member) → Stands base a moment.now → l ≡ shows_members a) }
{
    let view = moment.parts().list().view();
    let members = members_shown(
        alloc,
        moment.parts().watch(),
        (moment.inc(), moment.state()),
        view.primary(),
        view.seats(),
    )?;
    Ok(Look::Members {
        inc: moment.inc(),
        members: Sequence::from_vec(members),
        view: view.number(),
        mode: view.mode(),
    })
}

fn members_shown(
    alloc: Global,
    watch: &Watch,
    me: (Inc, MemberState),
    primary: Option<Inc>,
    seats: &[Seat],
) -> Result<Vec<ShownMember>, Memory>
    ensures { IfOk result (λ v. v.items ≡ map (shown_as watch.now me.0 me.1 primary) seats.now) }
{
    let mut members = Vec::new(alloc);
    for seat in seats {
        members.push(member_shown(watch, me, primary, seat))?;
    }
    Ok(members)
}

fn member_shown(
    watch: &Watch,
    me: (Inc, MemberState),
    primary: Option<Inc>,
    seat: &Seat,
) -> ShownMember
    ensures { result ≡ shown_as watch.now me.0 me.1 primary seat.now }
{
    let inc = seat.joiner.inc;
    ShownMember {
        inc,
        shown: shown(watch, me, seat),
        primary: primary == Some(inc),
    }
}

fn shown(watch: &Watch, me: (Inc, MemberState), seat: &Seat) -> Shown
    ensures { result ≡ state_shown watch.now me.0 me.1 seat.now }
{
    let (inc, state) = me;
    if seat.joiner.inc == inc {
        return Shown::State(state);
    }
    if watch.suspects(seat.joiner.inc) {
        return Shown::Unreachable;
    }
    Shown::State(seat.state)
}

/// The least slot that isn't decided here, its place in the list, and what it has promised. Takes constant time and no memory.
pub fn show_slots(moment: &Moment) -> Look
    ensures { (base : Life) (a : Member) → Stands base a moment.now → result ≡ shows_slots a }
{
    Look::Slots {
        inc: moment.inc(),
        next: moment.node().next(),
        place: moment.parts().list().taken(),
        promise: moment.node().promised(),
    }
}

/// The members that rule a slot, where it knows them. Linear in these.
pub fn show_config(alloc: Global, moment: &Moment, slot: u64) -> Result<Look, Memory>
    ensures { IfOk result (λ l. (base : Life) (a : Member) → Stands base a moment.now → l ≡ shows_config slot a) }
{
    Ok(Look::Config {
        inc: moment.inc(),
        slot,
        members: copied_config(alloc, moment.node().config(slot))?,
    })
}

/// What it has executed. Linear in the runs of this set.
pub fn show_gtids(alloc: Global, moment: &Moment) -> Result<Look, Memory>
    ensures { IfOk result (λ l. (base : Life) (a : Member) → Stands base a moment.now → l ≡ shows_gtids a) }
{
    Ok(Look::Gtids {
        inc: moment.inc(),
        set: moment.executed().try_copy(alloc)?,
    })
}

/// The least slot that it keeps. Takes constant time and no memory.
pub fn show_kept(moment: &Moment) -> Look
    ensures { (base : Life) (a : Member) → Stands base a moment.now → result ≡ shows_kept a }
{
    Look::Kept {
        inc: moment.inc(),
        low: moment.node().kept_from(),
    }
}
