// One queued place.
ghost use Rattle.std.specs.Prelude.{◌≡◌, None, Some, IfErr, IfOk, OnOk, true};
ghost use Rattle.gr_ids.specs.Names.{bytes_eq};
ghost use Rattle.gr_ids.specs.declared.memory.Memory.{Memory};
ghost use Rattle.apply_queue.specs.Works.{AreDecoded};
ghost use Rattle.apply_queue.specs.Queues.{Done as IsDone, Out as IsOut, Waiting as IsWaiting, is_done as is_done_now, is_waiting as is_waiting_now, refused_at, shown as shown_as};

use crate::fault::QueueFault;
use crate::mark::Mark;
use crate::work::{Work, WorkDone};
use gr_ids::{Blob, Gtid, Memory, Pos, Sequence};
use group_rules::QueuedPlace;
use key_items::{Change, WriteSet};
use std::alloc::Global;
use std::marker::Model;

/// A queued place. Where it is done, its changes and items are those that its bytes spell.
#[derive(Debug, Drop)]
pub(crate) struct Entry {
    work: Work,
    mark: Mark,
}

impl Model for Entry {
    ghost use Rattle.std.specs.Prelude.{◌≡◌, List};
    ghost use Rattle.key_items.specs.declared.change.Change.{Change};
    ghost use Rattle.key_items.specs.declared.item.Item.{Item};
    ghost use Rattle.apply_queue.specs.Works.{AreDecoded};
    ghost use Rattle.apply_queue.specs.Queues.{Done, Queued};

    ghost Value = { Queued };

    ghost view = { λ e. record { place = e.work.place; gtid = e.work.gtid; body = e.work.body; mark = e.mark } };

    ghost invariant = { λ e. (cs : List Change) (ws : List Item) → e.mark ≡ Done cs ws → AreDecoded e.work.body cs ws };
}

impl Entry {
    pub(crate) fn new(work: Work) -> Entry
        ensures { result ≡ record { place = work.place; gtid = work.gtid; body = work.body; mark = IsWaiting } }
    {
        Entry {
            work,
            mark: Mark::Waiting,
        }
    }

    pub(crate) fn place(&self) -> Pos
        ensures { result ≡ self.now.place }
    {
        self.work.place
    }

    pub(crate) fn gtid(&self) -> Gtid
        ensures { result ≡ self.now.gtid }
    {
        self.work.gtid
    }

    pub(crate) fn work(&self) -> &Work
        ensures { (result.now.place ≡ self.now.place) × (result.now.gtid ≡ self.now.gtid) × (result.now.body ≡ self.now.body) }
    {
        &self.work
    }

    pub(crate) fn is_waiting(&self) -> bool
        ensures { result ≡ is_waiting_now self.now }
    {
        match self.mark {
            Mark::Waiting => true,
            Mark::Out | Mark::Done(..) => false,
        }
    }

    pub(crate) fn is_done(&self) -> bool
        ensures { result ≡ is_done_now self.now }
    {
        match self.mark {
            Mark::Waiting | Mark::Out => false,
            Mark::Done(..) => true,
        }
    }

    pub(crate) fn has_bytes(&self, body: &Blob) -> bool
        ensures { result ≡ bytes_eq self.now.body body.now }
    {
        self.work.body == *body
    }

    /// Whether it takes this result, which is for its place; if not, why.
    pub(crate) fn accepts(&self, done: &WorkDone) -> Result<(), QueueFault>
        ensures ok { OnOk result (refused_at done.now.place done.now.body (Some self.now) ≡ None) }
        ensures refused { IfErr result (λ e. refused_at done.now.place done.now.body (Some self.now) ≡ Some e) }
    {
        let pos = done.place;
        if !self.has_bytes(&done.body) {
            return Err(QueueFault::NotQueued { pos });
        }
        if self.is_done() {
            return Err(QueueFault::AlreadyDone { pos });
        }
        Ok(())
    }

    pub(crate) fn shown(&self) -> QueuedPlace
        ensures { result ≡ shown_as self.now }
    {
        QueuedPlace {
            place: self.work.place,
            done: self.is_done(),
        }
    }

    pub(crate) fn copied_work(&self, alloc: Global) -> Result<Work, Memory>
        ensures { IfOk result (λ w. (w.place ≡ self.now.place) × (w.gtid ≡ self.now.gtid) × (w.body ≡ self.now.body)) }
    {
        Ok(Work {
            place: self.work.place,
            gtid: self.work.gtid,
            body: self.work.body.try_copy(alloc)?,
        })
    }

    pub(crate) fn hand_out(&mut self)
        ensures { self.new ≡ record self.old { mark = IsOut } }
    {
        self.mark = Mark::Out;
    }

    pub(crate) fn finish(&mut self, changes: Sequence<Change>, items: WriteSet)
        requires { AreDecoded self.old.body changes items }
        ensures { self.new ≡ record self.old { mark = IsDone changes items } }
    {
        self.mark = Mark::Done(changes, items);
    }

    /// The result of a place that is done.
    pub(crate) fn into_done(self) -> WorkDone
        requires { is_done_now self ≡ true }
        ensures { (result.place ≡ self.place) × (result.body ≡ self.body) × (self.mark ≡ IsDone result.changes result.items) }
    {
        let Entry { work, mark } = self;
        match mark {
            Mark::Done(changes, items) => WorkDone {
                place: work.place,
                body: work.body,
                changes,
                items,
            },
            Mark::Waiting | Mark::Out => unreachable!(),
        }
    }
}
