// What the parts tell, as the rules of the group read it from the history.
ghost use Rattle.std.specs.Prelude.{◌≡◌, ◌&&◌, ◌||◌, IfOk, false, not, nat_lt, true};
ghost use Rattle.gr_ids.specs.Names.{inc_eq};
ghost use Rattle.gr_ids.specs.declared.names.Inc.{Inc as Member};
ghost use Rattle.gr_ids.specs.declared.memory.Memory.{Memory};
ghost use Rattle.gtid_sets.specs.Sets.{has};
ghost use Rattle.group_rules.specs.Commit.{is_prepared as is_prepared_by, may_commit as may_commit_by, owes_prepared as owes_prepared_by};
ghost use Rattle.group_rules.specs.Events.{Cert, Life, Setup};
ghost use Rattle.group_rules.specs.Life.{is_error, state};
ghost use Rattle.group_rules.specs.Queue.{pending};
ghost use Rattle.node_rules.specs.Lists.{In};
ghost use Rattle.apply_queue.specs.Queues.{front_is_done};
ghost use Rattle.member_backlog.specs.Waiting.{is_clear};
ghost use Rattle.prepare_acks.specs.Awaited.{is_complete};
ghost use Rattle.member_parts.specs.Committing.{IsPending, are_done_to};
ghost use Rattle.member_parts.specs.Resting.{commits_none, prepares_none};
ghost use Rattle.member_parts.specs.Standing.{StandsFor};

use crate::committing::is_mine;
use crate::parts::MemberParts;
use gr_ids::{Inc, Memory, Pos};
use group_rules::QueuedPlace;
use member_backlog::Uncommitted;
use std::alloc::Global;

impl MemberParts {
    /// Whether a transaction that waits may be committed now. Linear in those that wait; takes no memory.
    pub fn may_commit(&self, me: Inc, one: &Uncommitted) -> bool
        ensures { (s : Setup) (l : Life) (c : Cert) → IsPending l c one.now → StandsFor s me l self.now → result ≡ may_commit_by s l me c }
    {
        if is_mine(one, me) {
            return own_may_go(self, one);
        }
        other_may_go(self, one)
    }

    /// Whether none is an own one, of those that wait, and the first of the queue isn't done: then none may be committed. Takes constant time, and
    /// no memory.
    pub fn commits_none(&self) -> bool
        ensures told { result ≡ commits_none self.now }
        ensures none { result ≡ true → (s : Setup) (me : Member) (l : Life) → is_error (state l) ≡ false → StandsFor s me l self.now
            → (c : Cert) → In c (pending l) → may_commit_by s l me c ≡ false }
    {
        if !self.own.is_empty() {
            return false;
        }
        self.queue().front_waits()
    }

    /// Whether the first of the queue isn't done, or each transaction that requires this member has its Prepared entry sent: then none is owed.
    /// Linear in the runs of the two sets; takes no memory.
    pub fn prepares_none(&self) -> bool
        ensures told { result ≡ prepares_none self.now }
        ensures none { result ≡ true → (s : Setup) (me : Member) (l : Life) → is_error (state l) ≡ false → StandsFor s me l self.now
            → (c : Cert) → In c (pending l) → owes_prepared_by s l me c ≡ false }
    {
        if self.queue().front_waits() {
            return true;
        }
        self.required.is_subset(&self.sent)
    }

    /// Whether a transaction that waits is prepared here. Linear in the queue.
    pub fn is_prepared(&self, alloc: Global, me: Inc, one: &Uncommitted) -> Result<bool, Memory>
        ensures { IfOk result (λ b. (s : Setup) (l : Life) (c : Cert) → IsPending l c one.now → StandsFor s me l self.now → b ≡ is_prepared_by l me c) }
    {
        if is_mine(one, me) {
            return Ok(true);
        }
        let places = self.queue().places(alloc)?;
        Ok(all_done_to(places.as_slice(), one.place))
    }

    /// Whether this member owes a Prepared entry for a transaction that waits. Linear in the queue.
    pub fn owes_prepared(&self, alloc: Global, me: Inc, one: &Uncommitted) -> Result<bool, Memory>
        ensures { IfOk result (λ b. (s : Setup) (l : Life) (c : Cert) → IsPending l c one.now → StandsFor s me l self.now → b ≡ owes_prepared_by s l me c) }
    {
        if !may_owe(self, me, one) {
            return Ok(false);
        }
        self.is_prepared(alloc, me, one)
    }
}

// An own one is committed when it is taken, an AFTER one when it is complete.
fn own_may_go(parts: &MemberParts, one: &Uncommitted) -> bool
    ensures { result ≡ (not one.now.after || is_complete parts.now.acks one.now.gtid) }
{
    !one.after || parts.acks.complete(one.gtid)
}

// One of another origin: all below it are committed.
fn other_may_go(parts: &MemberParts, one: &Uncommitted) -> bool
    ensures { result ≡ (is_clear one.now.place parts.now.backlog && (front_is_done parts.now.remotes.queue one.now.place && (not one.now.after || (not (has parts.now.required one.now.gtid) || is_complete parts.now.acks one.now.gtid)))) }
{
    if !first_may_go(parts, one) {
        return false;
    }
    parts.backlog.is_clear(one.place)
}

// It is the first of the queue, and done; an AFTER one that requires this member is complete.
fn first_may_go(parts: &MemberParts, one: &Uncommitted) -> bool
    ensures { result ≡ (front_is_done parts.now.remotes.queue one.now.place && (not one.now.after || (not (has parts.now.required one.now.gtid) || is_complete parts.now.acks one.now.gtid))) }
{
    parts.queue().front_is_done(one.place) && waits_for_none(parts, one)
}

fn waits_for_none(parts: &MemberParts, one: &Uncommitted) -> bool
    ensures { result ≡ (not one.now.after || (not (has parts.now.required one.now.gtid) || is_complete parts.now.acks one.now.gtid)) }
{
    !one.after || requires_none(parts, one)
}

fn requires_none(parts: &MemberParts, one: &Uncommitted) -> bool
    ensures { result ≡ (not (has parts.now.required one.now.gtid) || is_complete parts.now.acks one.now.gtid) }
{
    !parts.required.contains(one.gtid) || parts.acks.complete(one.gtid)
}

// It is AFTER, of another origin, and requires this member, which sent no Prepared entry.
fn may_owe(parts: &MemberParts, me: Inc, one: &Uncommitted) -> bool
    ensures { result ≡ ((one.now.after && not (inc_eq one.now.id.origin me)) && (has parts.now.required one.now.gtid && not (has parts.now.sent one.now.gtid))) }
{
    is_foreign_after(me, one) && is_unanswered(parts, one)
}

fn is_foreign_after(me: Inc, one: &Uncommitted) -> bool
    ensures { result ≡ (one.now.after && not (inc_eq one.now.id.origin me)) }
{
    one.after && !is_mine(one, me)
}

fn is_unanswered(parts: &MemberParts, one: &Uncommitted) -> bool
    ensures { result ≡ (has parts.now.required one.now.gtid && not (has parts.now.sent one.now.gtid)) }
{
    parts.required.contains(one.gtid) && !parts.sent.contains(one.gtid)
}

fn all_done_to(places: &[QueuedPlace], place: Pos) -> bool
    ensures { result ≡ are_done_to place places.now }
{
    places.iter().all(|queued| is_done_or_behind(queued, place))
}

fn is_done_or_behind(queued: &QueuedPlace, place: Pos) -> bool
    ensures { result ≡ (nat_lt place queued.now.place || queued.now.done) }
{
    place < queued.place || queued.done
}
