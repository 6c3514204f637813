// What is seen of a member.
ghost use Rattle.std.specs.Prelude.{◌≡◌, IfOk};
ghost use Rattle.group_rules.specs.Looks.{show_certifier, show_config, show_gtids, show_kept, show_members, show_queue, show_rows, show_slots};
ghost use Rattle.group_rules.specs.Member.{Member as Rules};
ghost use Rattle.group_rules.specs.Script.{waiting_at};
ghost use Rattle.group_rules.specs.Sessions.{is_active, phase};
ghost use Rattle.report_text.specs.Reporting.{member_report};
ghost use Rattle.member_looks.specs.Working.{IsLeast, IsResult};
ghost use Rattle.member_core.specs.Standing.{IsMember};

use crate::member::Member;
use apply_queue::WorkDone;
use gr_ids::{Memory, Pos, SessionId};
use group_rules::Look;
use report_text::MemberReport;
use std::alloc::Global;

impl Member {
    /// Whether the session has an active transaction. Linear in the sessions.
    pub fn is_active(&self, session: SessionId) -> bool
        ensures { (a : Rules) → IsMember a self.now → result ≡ is_active (phase a.life session) }
    {
        member_looks::is_active(&self.moment, session)
    }

    /// The result of the least place that waits, if one does. Linear in the queue and in the bytes of the place.
    pub fn least_work(&self, alloc: Global) -> Result<Option<WorkDone>, Memory>
        ensures { IfOk result (λ w. (a : Rules) → IsMember a self.now → IsLeast a (waiting_at a) w) }
    {
        member_looks::least_work(alloc, &self.moment)
    }

    /// The result of a place, if it is queued. Linear in the queue and in the bytes of the place.
    pub fn work_at(&self, alloc: Global, place: Pos) -> Result<Option<WorkDone>, Memory>
        ensures { IfOk result (λ w. (a : Rules) → IsMember a self.now → IsResult a place w) }
    {
        member_looks::work_at(alloc, &self.moment, place)
    }

    /// The members, as it sees them. Linear in the members, times those that it watches.
    pub fn show_members(&self, alloc: Global) -> Result<Look, Memory>
        ensures { IfOk result (λ l. (a : Rules) → IsMember a self.now → l ≡ show_members a) }
    {
        member_looks::show_members(alloc, &self.moment)
    }

    /// Its place in the list. Takes no memory.
    pub fn show_slots(&self) -> Look
        ensures { (a : Rules) → IsMember a self.now → result ≡ show_slots a }
    {
        member_looks::show_slots(&self.moment)
    }

    /// What it has executed. Linear in its runs.
    pub fn show_gtids(&self, alloc: Global) -> Result<Look, Memory>
        ensures { IfOk result (λ l. (a : Rules) → IsMember a self.now → l ≡ show_gtids a) }
    {
        member_looks::show_gtids(alloc, &self.moment)
    }

    /// Its rows. Linear in the items that it ever wrote, and in the bytes of the rows.
    pub fn show_rows(&self, alloc: Global) -> Result<Look, Memory>
        ensures { IfOk result (λ l. (a : Rules) → IsMember a self.now → l ≡ show_rows a) }
    {
        member_looks::show_rows(alloc, &self.moment)
    }

    /// The places queued, and which of them are done. Linear in them.
    pub fn show_queue(&self, alloc: Global) -> Result<Look, Memory>
        ensures { IfOk result (λ l. (a : Rules) → IsMember a self.now → l ≡ show_queue a) }
    {
        member_looks::show_queue(alloc, &self.moment)
    }

    /// The items that its certifier keeps. Linear in them.
    pub fn show_certifier(&self, alloc: Global) -> Result<Look, Memory>
        ensures { IfOk result (λ l. (a : Rules) → IsMember a self.now → l ≡ show_certifier a) }
    {
        member_looks::show_certifier(alloc, &self.moment)
    }

    /// The least slot that it keeps. Takes no memory.
    pub fn show_kept(&self) -> Look
        ensures { (a : Rules) → IsMember a self.now → result ≡ show_kept a }
    {
        member_looks::show_kept(&self.moment)
    }

    /// Who votes in a slot.
    pub fn show_config(&self, alloc: Global, slot: u64) -> Result<Look, Memory>
        ensures { IfOk result (λ l. (a : Rules) → IsMember a self.now → l ≡ show_config slot a) }
    {
        member_looks::show_config(alloc, &self.moment, slot)
    }

    /// What a report tells of it. Linear in what it has executed, in the items that it ever wrote, and in the bytes of its rows.
    pub fn report(&self, alloc: Global) -> Result<MemberReport, Memory>
        ensures { IfOk result (λ r. (a : Rules) → IsMember a self.now → r ≡ member_report a) }
    {
        member_looks::report(alloc, &self.moment)
    }
}
