// The queue.
ghost use Rattle.std.specs.Prelude.{◌≡◌, ◌++◌, ◌∷◌, [], None, Some, true, false, ℕ, map, IfErr, IfNone, IfOk, IfSome, MatchOption, OnErr, OnOk};
ghost use Rattle.gr_ids.specs.declared.names.Gtid.{Gtid as AnyGtid};
ghost use Rattle.gr_ids.specs.declared.memory.Memory.{Memory};
ghost use Rattle.apply_queue.specs.Queues.{Done as IsDone, Mark, Waiting as IsWaiting, at_place, first_waiting, front_is_done, front_waits, handed_out, is_above, is_below, next_commit, refusal, shown, with_done};
ghost use Rattle.std.specs.Option.{option_map};

use crate::entry::Entry;
use crate::fault::QueueFault;
use crate::scan::{first_waiting_from, index_of, shown_all};
use crate::work::{Work, WorkDone};
use gr_ids::{Gtid, Memory, Pos, Sequence};
use group_rules::QueuedPlace;
use std::alloc::Global;
use std::collections::VecDeque;
use std::marker::Model;

/// The places that wait for their workers, or to be committed, ascending.
#[derive(Debug, Drop)]
pub struct Queue {
    entries: VecDeque<Entry>,
    // None before this index waits.
    next: usize,
    alloc: Global,
}

impl Model for Queue {
    ghost use Rattle.std.specs.Prelude.{◌≡◌, ◌≤◌, List, length, not, take, true};
    ghost use Rattle.std.specs.List.{list_all};
    ghost use Rattle.apply_queue.specs.Queues.{Queued, is_waiting};

    ghost Value = { List Queued };

    ghost view = { λ q. q.entries.items };

    ghost invariant = { λ q. (q.next ≤ length q.entries.items) × (list_all (λ e. not (is_waiting e)) (take q.next q.entries.items) ≡ true) };
}

impl Queue {
    /// Nothing is queued; takes no memory.
    pub fn new(alloc: Global) -> Queue
        ensures { result ≡ [] }
    {
        Queue {
            entries: VecDeque::new(alloc),
            next: 0,
            alloc,
        }
    }

    /// Queues a place that is above all that are queued. Takes constant time, but where the ring grows.
    pub fn push(&mut self, place: Pos, work: Work) -> Result<(), Memory>
        requires named { work.place ≡ place }
        requires above { is_above self.old place ≡ true }
        ensures ok { OnOk result (self.new ≡ self.old ++ record { place = place; gtid = work.gtid; body = work.body; mark = IsWaiting } ∷ []) }
        ensures err { OnErr result (self.new ≡ self.old) }
    {
        self.entries.push_back(Entry::new(work))?;
        Ok(())
    }

    /// Hands out a copy of the least place that waits; None where there is none. Linear in the bytes, and in the places that were
    /// done before they were handed out.
    pub fn next_work(&mut self) -> Result<Option<Work>, Memory>
        ensures handed { IfOk result (λ o. MatchOption o ((first_waiting self.old ≡ None) × (self.new ≡ self.old)) (λ w. (first_waiting self.old ≡ Some (record { place = w.place; gtid = w.gtid; body = w.body; mark = IsWaiting })) × (self.new ≡ handed_out self.old))) }
        ensures err { OnErr result (self.new ≡ self.old) }
    {
        let at = first_waiting_from(&self.entries, self.next);
        let Some(entry) = self.entries.get_mut(at) else {
            return Ok(None);
        };
        let work = entry.copied_work(self.alloc)?;
        entry.hand_out();
        self.next = at;
        Ok(Some(work))
    }

    /// The work of a queued place, None exactly where the place isn't queued. Linear in the places before it.
    pub fn work(&self, place: Pos) -> Option<&Work>
        ensures { MatchOption result (at_place self.now place ≡ None) (λ w. (m : Mark) × (at_place self.now place ≡ Some (record { place = w.now.place; gtid = w.now.gtid; body = w.now.body; mark = m }))) }
    {
        let entry = self.entries.get(index_of(&self.entries, place))?;
        Some(entry.work())
    }

    /// The GTID of the place for which a worker's result is, if `done` takes it; why it refuses it if not. Linear in the places before it; takes
    /// no memory.
    pub fn accepts(&self, done: &WorkDone) -> Result<Gtid, QueueFault>
        ensures ok { OnOk result (refusal self.now done.now.place done.now.body ≡ None) }
        ensures gtid { IfOk result (λ g. option_map (λ q. q.gtid) (at_place self.now done.now.place) ≡ Some g) }
        ensures refused { IfErr result (λ e. refusal self.now done.now.place done.now.body ≡ Some e) }
    {
        let at = index_of(&self.entries, done.place);
        let Some(entry) = self.entries.get(at) else {
            return Err(QueueFault::NotQueued { pos: done.place });
        };
        entry.accepts(done)?;
        Ok(entry.gtid())
    }

    /// A worker's result makes its place done. Refused where the place isn't queued with these bytes, and where it is done already.
    /// Linear in the places before it; takes no memory.
    pub fn done(&mut self, done: WorkDone) -> Result<(), QueueFault>
        ensures ok { OnOk result ((refusal self.old done.place done.body ≡ None) × (self.new ≡ with_done self.old done.place done.changes done.items)) }
        ensures refused { IfErr result (λ e. refusal self.old done.place done.body ≡ Some e) }
        ensures err { OnErr result (self.new ≡ self.old) }
    {
        let at = index_of(&self.entries, done.place);
        let Some(entry) = self.entries.get_mut(at) else {
            return Err(QueueFault::NotQueued { pos: done.place });
        };
        entry.accepts(&done)?;
        entry.finish(done.changes, done.items);
        Ok(())
    }

    /// Takes the least place out of the queue where it is done and below the barrier, if there is one. Takes constant time, and no memory.
    pub fn commits(&mut self, barrier: Option<Pos>) -> Option<WorkDone>
        ensures none { IfNone result ((next_commit self.old barrier ≡ None) × (self.new ≡ self.old)) }
        ensures some { IfSome result (λ d. (g : AnyGtid) × (self.old ≡ record { place = d.place; gtid = g; body = d.body; mark = IsDone d.changes d.items } ∷ self.new) × (is_below barrier d.place ≡ true)) }
    {
        let front = self.entries.front()?;
        if !front.is_done() || !is_below_barrier(front.place(), barrier) {
            return None;
        }
        let entry = self.entries.pop_front()?;
        self.next = self.next.saturating_sub(1);
        Some(entry.into_done())
    }

    /// Whether the least queued place is this one, and done. Takes constant time.
    pub fn front_is_done(&self, place: Pos) -> bool
        ensures { result ≡ front_is_done self.now place }
    {
        match self.entries.front() {
            Some(front) => front.is_done() && front.place() == place,
            None => false,
        }
    }

    /// Whether the least queued place isn't done, or nothing is queued: then no place may be committed. Takes constant time, and no memory.
    pub fn front_waits(&self) -> bool
        ensures { result ≡ front_waits self.now }
    {
        match self.entries.front() {
            Some(front) => !front.is_done(),
            None => true,
        }
    }

    /// The queued places, ascending, each with whether it is done. Linear in them.
    pub fn places(&self, alloc: Global) -> Result<Sequence<QueuedPlace>, Memory>
        ensures { IfOk result (λ ps. ps ≡ map shown self.now) }
    {
        Ok(Sequence::from_vec(shown_all(alloc, &self.entries)?))
    }
}

fn is_below_barrier(place: Pos, barrier: Option<Pos>) -> bool
    ensures { result ≡ is_below barrier place }
{
    match barrier {
        Some(barrier) => place < barrier,
        None => true,
    }
}
