// The watch of a member.
ghost use Rattle.std.specs.Prelude.{◌≡◌, IfOk, OnErr, OnOk};
ghost use Rattle.gr_ids.specs.declared.memory.Memory.{Memory};
ghost use Rattle.group_rules.specs.Watch.{follow, heard, is_expel_due, is_lost, leads_by_rank, suspects, ticked, unfollow};
ghost use Rattle.failure_events.specs.Watching.{capped, first_watch, followed};

use crate::counting::{
    hear, is_majority_lost, is_suspected, leads, next_count, silence_of, tick_all,
};
use crate::following::{drop_member, followed_by, unheard_of};
use gr_ids::{Inc, Limits, Memory};
use group_rules::Silence;
use std::alloc::Global;
use std::marker::Model;

/// What a member knows of the silence of the others (MySQL 8.0 Reference Manual, Group Replication: Responses to Failure Detection
/// and Network Partitioning). Silence is counted in the member's own ticks; a count that stands at 2^64-1 stays there.
#[derive(Debug, Drop)]
pub struct Watch {
    me: Inc,
    limits: Limits,
    silences: Vec<Silence>,
    lost_for: u64,
}

impl Model for Watch {
    ghost use Rattle.failure_events.specs.Watching.{Watching};

    ghost Value = { Watching };

    ghost view = { λ w. record { me = w.me; limits = w.limits; watch = record { silences = w.silences.items; lost_for = w.lost_for } } };
}

impl Watch {
    /// The members are watched from now on. Linear in them.
    pub fn new(alloc: Global, me: Inc, members: &[Inc], limits: Limits) -> Result<Watch, Memory>
        ensures { IfOk result (λ w. w ≡ first_watch me limits members.now) }
    {
        Ok(Watch {
            me,
            limits,
            silences: unheard_of(alloc, members)?,
            lost_for: 0,
        })
    }

    /// These are the members now: of new ones silence is counted from now on. Linear in the members, times those watched.
    pub fn follow(&mut self, alloc: Global, members: &[Inc]) -> Result<(), Memory>
        ensures ok { OnOk result (self.new ≡ record self.old { watch = followed members.now self.old.watch }) }
        ensures err { OnErr result (self.new ≡ self.old) }
    {
        self.silences = followed_by(alloc, &self.silences, members)?;
        Ok(())
    }

    /// One member more is watched from now on. Takes constant time, seen over many.
    pub fn follow_one(&mut self, inc: Inc) -> Result<(), Memory>
        ensures ok { OnOk result (self.new ≡ record self.old { watch = follow self.old.watch inc }) }
        ensures err { OnErr result (self.new ≡ self.old) }
    {
        self.silences.push(Silence { inc, ticks: 0 })?;
        Ok(())
    }

    /// The incarnation is a member no more. Linear in the members; takes no memory.
    pub fn unfollow(&mut self, inc: Inc)
        ensures { self.new ≡ record self.old { watch = unfollow self.old.watch inc } }
    {
        drop_member(&mut self.silences, inc);
    }

    /// A message came from the incarnation. Linear in the members; takes no memory.
    pub fn heard(&mut self, inc: Inc)
        ensures { self.new ≡ record self.old { watch = heard self.old.watch inc } }
    {
        hear(&mut self.silences, inc);
    }

    /// One tick passes. Linear in the members; takes no memory.
    pub fn tick(&mut self)
        ensures { self.new ≡ record self.old { watch = capped (ticked self.old.me self.old.watch) } }
    {
        tick_all(&mut self.silences);
        let lost = is_majority_lost(self.me, &self.silences);
        self.lost_for = next_count(lost, self.lost_for);
    }

    /// Whether it is suspected: at a silence of 5 ticks. Linear in the members.
    pub fn suspects(&self, inc: Inc) -> bool
        ensures { result ≡ suspects self.now.me self.now.watch inc }
    {
        is_suspected(self.me, &self.silences, inc)
    }

    /// Whether it has been silent for so long that it is to be expelled: for 5 and `expel` ticks
    /// (`group_replication_member_expel_timeout`). Linear in the members.
    pub fn is_overdue(&self, inc: Inc) -> bool
        ensures { result ≡ is_expel_due self.now.limits.expel self.now.watch inc }
    {
        let due = 5 + u64::from(self.limits.expel);
        silence_of(&self.silences, inc) >= due
    }

    /// Whether expulsions and campaigns are for this member: of these ONLINE members, ascending, it is the least one that isn't suspected.
    /// Linear in the members, times those that are ONLINE.
    pub fn leads(&self, online: &[Inc]) -> bool
        ensures { result ≡ leads_by_rank self.now.me self.now.watch online.now }
    {
        leads(self.me, &self.silences, online)
    }

    /// Whether fewer than floor(n/2)+1 of n members, itself included, aren't suspected. Linear in the members.
    pub fn majority_lost(&self) -> bool
        ensures { result ≡ is_lost self.now.me self.now.watch.silences }
    {
        is_majority_lost(self.me, &self.silences)
    }

    /// At how many ticks in a row, up to the last one, the majority was lost
    /// (`group_replication_unreachable_majority_timeout`).
    pub fn lost_for(&self) -> u64
        ensures { result ≡ self.now.watch.lost_for }
    {
        self.lost_for
    }
}
