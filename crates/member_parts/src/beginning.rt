// What a begin waits for that is called now.
ghost use Rattle.std.specs.Prelude.{◌≡◌, ◌&&◌, ◌||◌, ℕ, IfOk, nat_lt};
ghost use Rattle.gr_ids.specs.declared.memory.Memory.{Memory};
ghost use Rattle.group_rules.specs.Events.{Life, Setup};
ghost use Rattle.group_rules.specs.Holds.{conditions as conditions_of};
ghost use Rattle.group_rules.specs.Life.{last_made, online_place, state as state_of};
ghost use Rattle.member_backlog.specs.Waiting.{is_below};
ghost use Rattle.member_parts.specs.Committing.{are_done_to};
ghost use Rattle.member_parts.specs.Standing.{StandsFor};

use crate::parts::MemberParts;
use consistency_waits::{AtCall, conditions_now};
use gr_ids::{Inc, Level, MemberState, Memory, Pos};
use group_rules::{Conditions, QueuedPlace};
use std::alloc::Global;

impl MemberParts {
    /// The conditions of a begin of this level that is called now, in this state; `last` is the number of the last own value, and `online` the
    /// place of the own Online entry. Refused as want of memory where its Sync would have a number above 2^64 - 1. Linear in what waits and in
    /// the queue.
    pub fn conditions(
        &self,
        alloc: Global,
        me: Inc,
        level: Level,
        state: MemberState,
        last: u64,
        online: Option<Pos>,
    ) -> Result<Conditions, Memory>
        ensures { IfOk result (λ c. (s : Setup) (l : Life) → state ≡ state_of l → last ≡ last_made l → online ≡ online_place l me
            → StandsFor s me l self.now → c ≡ conditions_of s me level l) }
    {
        let places = self.queue().places(alloc)?;
        let undone = least_undone(places.as_slice());
        let after = self.backlog.after_below(alloc, me, undone)?;
        let known = AtCall {
            state,
            last,
            after,
            elected: self.list.view().elected_as(me),
            online,
        };
        conditions_now(alloc, me, level, known)
    }
}

// The least place that isn't done.
fn least_undone(places: &[QueuedPlace]) -> Option<Pos>
    ensures { (p : ℕ) → are_done_to p places.now ≡ is_below result p }
{
    let mut undone = None;
    for queued in places {
        undone = with_place(undone, queued);
    }
    undone
}

fn with_place(undone: Option<Pos>, queued: &QueuedPlace) -> Option<Pos>
    ensures { (p : ℕ) → is_below result p ≡ (is_below undone p && (nat_lt p queued.now.place || queued.now.done)) }
{
    if queued.done {
        return undone;
    }
    match undone {
        Some(least) => Some(least_of(least, queued.place)),
        None => Some(queued.place),
    }
}

fn least_of(a: Pos, b: Pos) -> Pos
    ensures { (p : ℕ) → nat_lt p result ≡ (nat_lt p a && nat_lt p b) }
{
    if a < b { a } else { b }
}
