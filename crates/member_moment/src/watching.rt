// What a member makes of its watch.
ghost use Rattle.std.specs.Prelude.{◌≡◌, ◌&&◌, ◌||◌, IfOk, not};
ghost use Rattle.std.specs.List.{list_any};
ghost use Rattle.gr_ids.specs.Names.{inc_eq};
ghost use Rattle.gr_ids.specs.declared.memory.Memory.{Memory};
ghost use Rattle.group_rules.specs.Events.{Life};
ghost use Rattle.group_rules.specs.Life.{view as view_of};
ghost use Rattle.group_rules.specs.Member.{Member};
ghost use Rattle.group_rules.specs.Steps.{needs_leader as has_need, removes_inc};
ghost use Rattle.group_rules.specs.View.{seated as seated_in};
ghost use Rattle.group_rules.specs.Watch.{gives_up as gives_up_by, is_expel_due, suspects};
ghost use Rattle.member_moment.specs.Standing.{Stands};
ghost use Rattle.member_moment.specs.Watching.{expels as expels_it, leads as leads_by, watch_of};

use crate::moment::Moment;
use failure_events::Watch;
use gr_ids::{Inc, Memory};
use node_rules::Seat;
use slot_values::{Value, What};
use std::alloc::Global;

impl Moment {
    /// Whether it gives up, since it hasn't reached a majority for too long.
    pub fn gives_up(&self) -> bool
        ensures { (base : Life) (a : Member) → Stands base a self.now → result ≡ gives_up_by a.setup.limits.majority (watch_of a) }
    {
        is_lost_for(self.parts.watch(), self.limits.majority)
    }

    /// Whether expulsions and campaigns are for this member. Linear in the members, times those that are ONLINE.
    pub fn leads(&self) -> Result<bool, Memory>
        ensures { IfOk result (λ b. (base : Life) (a : Member) → Stands base a self.now → b ≡ leads_by a) }
    {
        let online = self.parts.list().online(self.alloc)?;
        Ok(self.parts.watch().leads(&online))
    }

    /// Whether it is to make a Remove of this incarnation. Linear in the members and in the own values that aren't kept yet.
    pub fn expels(&self, inc: Inc) -> bool
        ensures { (base : Life) (a : Member) → Stands base a self.now → result ≡ expels_it a inc }
    {
        let _expel = self.limits.expel;
        is_expelled(self.parts.watch(), self.node.own(), self.me.inc, inc)
    }

    /// Whether the believed leader is suspected or isn't a member. Linear in the members.
    pub fn needs_leader(&self) -> bool
        ensures { (base : Life) (a : Member) → Stands base a self.now → result ≡ has_need (watch_of a) a.node.acceptor.promise.inc a }
    {
        let seats = self.parts.list().view().seats();
        is_leaderless(
            self.parts.watch(),
            seats,
            self.me.inc,
            self.node.promise().inc,
        )
    }

    /// The members. Linear in them.
    pub fn seated(&self) -> Result<Vec<Inc>, Memory>
        ensures { IfOk result (λ v. (base : Life) (a : Member) → Stands base a self.now → v.items ≡ seated_in (view_of a.setup a.life).seats) }
    {
        let seats = self.parts.list().view().seats();
        incs_of(self.alloc, seats)
    }
}

fn incs_of(alloc: Global, seats: &[Seat]) -> Result<Vec<Inc>, Memory>
    ensures { IfOk result (λ v. v.items ≡ seated_in seats.now) }
{
    Ok(seats.iter().map(|seat| seat.joiner.inc).collect(alloc)?)
}

fn is_lost_for(watch: &Watch, majority: u32) -> bool
    ensures { result ≡ gives_up_by majority watch.now.watch }
{
    majority != 0 && watch.lost_for() >= u64::from(majority)
}

fn is_expelled(watch: &Watch, own: &[Value], me: Inc, inc: Inc) -> bool
    ensures { result ≡ (not (inc_eq inc me) && (is_expel_due watch.now.limits.expel watch.now.watch inc && not (list_any (removes_inc inc) own.now))) }
{
    inc != me && watch.is_overdue(inc) && !is_removed(own, inc)
}

fn is_leaderless(watch: &Watch, seats: &[Seat], me: Inc, leader: Inc) -> bool
    ensures { result ≡ (not (inc_eq leader me) && (suspects watch.now.me watch.now.watch leader || not (list_any (λ s. inc_eq s.joiner.inc leader) seats.now))) }
{
    leader != me && (watch.suspects(leader) || !has_seat(seats, leader))
}

fn is_removed(own: &[Value], inc: Inc) -> bool
    ensures { result ≡ list_any (removes_inc inc) own.now }
{
    own.iter().any(|value| removes(value, inc))
}

fn removes(value: &Value, inc: Inc) -> bool
    ensures { result ≡ removes_inc inc value.now }
{
    match &value.what {
        What::Remove(removed) => inc == *removed,
        _ => false,
    }
}

pub(crate) fn has_seat(seats: &[Seat], inc: Inc) -> bool
    ensures { result ≡ list_any (λ s. inc_eq s.joiner.inc inc) seats.now }
{
    seats.iter().any(|seat| seat.joiner.inc == inc)
}
