// What a member tells of itself in a step.
ghost use Rattle.std.specs.Prelude.{◌≡◌, ◌&&◌, ◌||◌, IfOk, false, is_some, map, true};
ghost use Rattle.gr_ids.specs.declared.memory.Memory.{Memory};
ghost use Rattle.group_rules.specs.Commit.{may_commit as may_commit_by, owes_prepared as owes};
ghost use Rattle.group_rules.specs.Events.{Cert, Life};
ghost use Rattle.group_rules.specs.Life.{executed as executed_by, is_error, is_offline, is_recovering, is_up, state as state_of};
ghost use Rattle.group_rules.specs.Member.{Member};
ghost use Rattle.group_rules.specs.Queue.{pending};
ghost use Rattle.group_rules.specs.Recovery.{pending_ask};
ghost use Rattle.group_rules.specs.Sessions.{is_holding, phase};
ghost use Rattle.group_rules.specs.Taking.{takes_slots};
ghost use Rattle.node_rules.specs.Lists.{In};
ghost use Rattle.member_backlog.specs.Standing.{uncommitted_of};
ghost use Rattle.member_parts.specs.Committing.{IsPending};
ghost use Rattle.member_parts.specs.Resting.{commits_none, prepares_none};
ghost use Rattle.member_moment.specs.Standing.{Stands};
ghost use Rattle.member_moment.specs.Telling.{is_arriving};

use crate::moment::Moment;
use gr_ids::{MemberState, Memory, SessionId};
use gtid_sets::GtidSet;
use member_backlog::Uncommitted;

impl Moment {
    /// Whether it is in ERROR.
    pub fn is_in_error(&self) -> bool
        ensures { (base : Life) (a : Member) → Stands base a self.now → result ≡ is_error (state_of a.life) }
    {
        matches!(self.state(), MemberState::Error)
    }

    /// Whether it is ONLINE.
    pub fn is_up(&self) -> bool
        ensures { (base : Life) (a : Member) → Stands base a self.now → result ≡ is_up (state_of a.life) }
    {
        matches!(self.state(), MemberState::Online)
    }

    /// Whether it is RECOVERING.
    pub fn is_recovering(&self) -> bool
        ensures { (base : Life) (a : Member) → Stands base a self.now → result ≡ is_recovering (state_of a.life) }
    {
        matches!(self.state(), MemberState::Recovering)
    }

    /// Whether it is OFFLINE.
    pub fn is_offline(&self) -> bool
        ensures { (base : Life) (a : Member) → Stands base a self.now → result ≡ is_offline (state_of a.life) }
    {
        matches!(self.state(), MemberState::Offline)
    }

    /// Whether it may leave: it is RECOVERING or ONLINE.
    pub fn may_leave(&self) -> bool
        ensures { (base : Life) (a : Member) → Stands base a self.now → result ≡ (is_recovering (state_of a.life) || is_up (state_of a.life)) }
    {
        self.is_recovering() || self.is_up()
    }

    /// Whether it takes slots: it is ONLINE, or RECOVERING with a Give.
    pub fn takes_slots(&self) -> bool
        ensures { (base : Life) (a : Member) → Stands base a self.now → result ≡ takes_slots a.life }
    {
        self.is_up() || self.is_recovering() && self.joining.has_give()
    }

    /// The certified transactions that wait to be committed, by ascending place. Linear in them.
    pub fn waiting(&self) -> Result<Vec<Uncommitted>, Memory>
        ensures { IfOk result (λ v. (base : Life) (a : Member) → Stands base a self.now → v.items ≡ map uncommitted_of (pending a.life)) }
    {
        Ok(
            self.parts
                .backlog()
                .waiting()
                .iter()
                .copied()
                .collect(self.alloc)?,
        )
    }

    /// Whether it owes a Prepared entry for a transaction that waits. Linear in the queue.
    pub fn owes_prepared(&self, one: &Uncommitted) -> Result<bool, Memory>
        ensures { IfOk result (λ b. (base : Life) (a : Member) (c : Cert) → IsPending a.life c one.now → Stands base a self.now
            → b ≡ owes a.setup a.life a.me.inc c) }
    {
        self.parts.owes_prepared(self.alloc, self.me.inc, one)
    }

    /// Whether its parts tell without a walk that nothing that waits may be committed. Takes constant time, and no memory.
    pub fn commits_none(&self) -> bool
        ensures told { result ≡ commits_none self.now.parts }
        ensures none { result ≡ true → (base : Life) (a : Member) → Stands base a self.now → is_error (state_of a.life) ≡ false
            → (c : Cert) → In c (pending a.life) → may_commit_by a.setup a.life a.me.inc c ≡ false }
    {
        self.parts.commits_none()
    }

    /// Whether its parts tell without a walk that it owes no Prepared entry. Linear in the runs of those that require it and of those that it sent;
    /// takes no memory.
    pub fn prepares_none(&self) -> bool
        ensures told { result ≡ prepares_none self.now.parts }
        ensures none { result ≡ true → (base : Life) (a : Member) → Stands base a self.now → is_error (state_of a.life) ≡ false
            → (c : Cert) → In c (pending a.life) → owes a.setup a.life a.me.inc c ≡ false }
    {
        self.parts.prepares_none()
    }

    /// Whether it is to make its Online entry: it is RECOVERING, has taken up a Give, made none, and nothing waits to be committed.
    pub fn is_arriving(&self) -> bool
        ensures { (base : Life) (a : Member) → Stands base a self.now → result ≡ is_arriving a }
    {
        self.is_recovering()
            && self.joining.has_give()
            && !self.own.has_arrived()
            && self.parts.backlog().waiting().is_empty()
    }

    /// Whether it is RECOVERING, and an ask is pending.
    pub fn is_asking(&self) -> bool
        ensures { (base : Life) (a : Member) → Stands base a self.now → result ≡ (is_recovering (state_of a.life) && is_some (pending_ask a.life)) }
    {
        self.is_recovering() && self.pending_ask().is_some()
    }

    /// Whether the begin of this session is held.
    pub fn is_held(&self, session: SessionId) -> bool
        ensures { (base : Life) (a : Member) → Stands base a self.now → result ≡ is_holding (phase a.life session) }
    {
        self.tables.is_held(session)
    }

    /// A copy of what it has executed. Linear in its runs.
    pub fn copy_executed(&self) -> Result<GtidSet, Memory>
        ensures { IfOk result (λ set. (base : Life) (a : Member) → Stands base a self.now → set ≡ executed_by a.life) }
    {
        let copy = self.executed().try_copy(self.alloc)?;
        Ok(copy)
    }
}
