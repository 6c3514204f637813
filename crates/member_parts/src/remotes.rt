// The queue of the transactions of other origins.
ghost use Rattle.std.specs.Prelude.{◌≡◌, IfErr, IfNone, IfOk, IfSome, MatchOption, None, OnErr, OnOk, Some, nat_le, ◌∷◌};
ghost use Rattle.gr_ids.specs.declared.memory.Memory.{Memory};
ghost use Rattle.std.specs.Option.{option_map};
ghost use Rattle.apply_queue.specs.Queues.{Queued, at_place, first_waiting, handed_out, next_commit, refusal, with_done};
ghost use Rattle.apply_queue.specs.Following.{waiting_at};
ghost use Rattle.member_parts.specs.Remote.{free_from, no_remote, with_work};

use apply_queue::{Queue, QueueFault, Work, WorkDone};
use gr_ids::{Gtid, Memory, Pos};
use std::alloc::Global;
use std::marker::Model;

/// The queue, and the place that was queued last.
#[derive(Debug, Drop)]
pub(crate) struct Remotes {
    queue: Queue,
    last: Option<Pos>,
}

impl Model for Remotes {
    ghost use Rattle.std.specs.Prelude.{◌≡◌, true};
    ghost use Rattle.apply_queue.specs.Queues.{is_above};
    ghost use Rattle.member_parts.specs.Remote.{Remote, free_from};

    ghost Value = { Remote };

    ghost view = { λ r. record { queue = r.queue; last = r.last } };

    ghost invariant = { λ r. is_above r.queue (free_from r.last) ≡ true };
}

impl Remotes {
    /// Nothing is queued; takes no memory.
    pub(crate) fn new(alloc: Global) -> Remotes
        ensures { result ≡ no_remote }
    {
        Remotes {
            queue: Queue::new(alloc),
            last: None,
        }
    }

    /// Queues a place, if it is above the last one. Takes constant time, but where the queue grows.
    pub(crate) fn push(&mut self, work: Work) -> Result<(), Memory>
        ensures { OnOk result (self.new ≡ with_work (waiting_at work.place work.gtid work.body) self.old) }
    {
        let place = work.place;
        if !is_above_last(self.last, place) {
            return Ok(());
        }
        self.queue.push(place, work)?;
        self.last = Some(place);
        Ok(())
    }

    /// Hands out the least place that waits, as the queue does.
    pub(crate) fn next_work(&mut self) -> Result<Option<Work>, Memory>
        ensures handed { IfOk result (λ o. MatchOption o ((first_waiting self.old.queue ≡ None) × (self.new ≡ self.old)) (λ w. (first_waiting self.old.queue ≡ Some (waiting_at w.place w.gtid w.body)) × (self.new ≡ record self.old { queue = handed_out self.old.queue }))) }
        ensures err { OnErr result (self.new ≡ self.old) }
    {
        self.queue.next_work()
    }

    /// Whether the queue takes a worker's result.
    pub(crate) fn accepts(&self, done: &WorkDone) -> Result<Gtid, QueueFault>
        ensures ok { OnOk result (refusal self.now.queue done.now.place done.now.body ≡ None) }
        ensures gtid { IfOk result (λ g. option_map (λ q. q.gtid) (at_place self.now.queue done.now.place) ≡ Some g) }
        ensures refused { IfErr result (λ e. refusal self.now.queue done.now.place done.now.body ≡ Some e) }
    {
        self.queue.accepts(done)
    }

    /// Takes a worker's result, as the queue does.
    pub(crate) fn done(&mut self, done: WorkDone) -> Result<(), QueueFault>
        ensures ok { OnOk result ((refusal self.old.queue done.place done.body ≡ None) × (self.new ≡ record self.old { queue = with_done self.old.queue done.place done.changes done.items })) }
        ensures refused { IfErr result (λ e. refusal self.old.queue done.place done.body ≡ Some e) }
        ensures err { OnErr result (self.new ≡ self.old) }
    {
        self.queue.done(done)
    }

    /// Takes the least place out of the queue, where it is done. Takes constant time, and no memory.
    pub(crate) fn commits(&mut self) -> Option<WorkDone>
        ensures none { IfNone result ((next_commit self.old.queue None ≡ None) × (self.new ≡ self.old)) }
        ensures some { IfSome result (λ d. (q : Queued) × (self.old.queue ≡ q ∷ self.new.queue) × (q.place ≡ d.place) × (q.body ≡ d.body)) }
        ensures last { self.new.last ≡ self.old.last }
    {
        self.queue.commits(None)
    }

    /// The queue.
    pub(crate) fn queue(&self) -> &Queue
        ensures { result.now ≡ self.now.queue }
    {
        &self.queue
    }
}

fn is_above_last(last: Option<Pos>, place: Pos) -> bool
    ensures { result ≡ nat_le (free_from last) place }
{
    match last {
        Some(last) => last < place,
        None => true,
    }
}
