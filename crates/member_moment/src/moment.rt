// What a member keeps in the midst of a step.
ghost use Rattle.std.specs.Prelude.{◌≡◌, [], IfOk};
ghost use Rattle.group_rules.specs.Events.{Life};
ghost use Rattle.group_rules.specs.Life.{executed as executed_by, state as state_of, view as view_of};
ghost use Rattle.group_rules.specs.Member.{Member as AnyMember, next_id as next_of};
ghost use Rattle.kept_server.specs.Keeping.{left_of};
ghost use Rattle.kept_server.specs.Redoing.{LeadTo};
ghost use Rattle.member_moment.specs.Standing.{Marked, Stands};

use gr_ids::{Inc, Limits, MemberState, Memory, ValueId};
use group_rules::Mark;
use gtid_sets::GtidSet;
use member_joining::Joining;
use member_own::Own;
use member_parts::MemberParts;
use member_tables::MemberTables;
use paxos_forms::{Given, Message};
use paxos_node::Node;
use slot_values::Joiner;
use std::alloc::Global;
use std::mem;

/// A member in the midst of a step: its node, its parts, and the transactions that it has committed, the marks and the messages of the step so far,
/// each in their order.
#[derive(Drop)]
pub struct Moment {
    pub(crate) alloc: Global,
    pub(crate) me: Joiner,
    /// The incarnation to which a joiner sends its Add.
    pub(crate) contact: Inc,
    pub(crate) limits: Limits,
    pub(crate) node: Node,
    pub(crate) parts: MemberParts,
    pub(crate) tables: MemberTables,
    pub(crate) own: Own,
    pub(crate) joining: Joining,
    pub(crate) committed: Vec<Given>,
    pub(crate) marks: Vec<Mark>,
    pub(crate) sent: Vec<Message>,
}

/// What a step has left: the transactions that it committed and its marks, in order, and the messages that it sends.
#[derive(Drop)]
pub struct Left {
    pub committed: Vec<Given>,
    pub marks: Vec<Mark>,
    pub sent: Vec<Message>,
}

impl Moment {
    /// Its incarnation.
    pub fn inc(&self) -> Inc
        ensures { (base : Life) (a : AnyMember) → Stands base a self.now → result ≡ a.me.inc }
    {
        self.me.inc
    }

    /// Its own state.
    pub fn state(&self) -> MemberState
        ensures { (base : Life) (a : AnyMember) → Stands base a self.now → result ≡ state_of a.life }
    {
        self.tables.tables().state
    }

    /// What it has executed.
    pub fn executed(&self) -> &GtidSet
        ensures { (base : Life) (a : AnyMember) → Stands base a self.now → result.now ≡ executed_by a.life }
    {
        &self.tables.tables().executed
    }

    /// Its node.
    pub fn node(&self) -> &Node
        ensures { (base : Life) (a : AnyMember) → Stands base a self.now → result.now ≡ a.node }
    {
        &self.node
    }

    /// Its parts.
    pub fn parts(&self) -> &MemberParts
        ensures { result.now ≡ self.now.parts }
    {
        &self.parts
    }

    /// Its tables.
    pub fn tables(&self) -> &MemberTables
        ensures { result.now ≡ self.now.tables }
    {
        &self.tables
    }

    /// The identity of its next own value. Refused as want of memory above 2^64 - 1.
    pub fn next_id(&self) -> Result<ValueId, Memory>
        ensures { IfOk result (λ id. (base : Life) (a : AnyMember) → Stands base a self.now → id ≡ next_of a) }
    {
        match self.own.made().checked_add(1) {
            Some(number) => Ok(ValueId {
                origin: self.me.inc,
                number,
            }),
            None => Err(Memory),
        }
    }

    /// A step begins: it has left nothing yet.
    pub fn begin_step(&mut self)
        ensures { (base : Life) (a : AnyMember) → Stands base a self.old → Stands a.life (record a { sent = [] }) self.new }
    {
        self.committed = Vec::new(self.alloc);
        self.marks = Vec::new(self.alloc);
        self.sent = Vec::new(self.alloc);
    }

    /// A step ends: what it has left is handed out.
    pub fn end_step(&mut self) -> Left
        ensures left { (base : Life) (a : AnyMember) → Stands base a self.old → Marked base a.life result.marks.items × (result.sent.items ≡ a.sent) }
        ensures committed { (base : Life) (a : AnyMember) → Stands base a self.old → LeadTo (left_of base) result.committed.items (left_of a.life) }
        ensures stands { (base : Life) (a : AnyMember) → Stands base a self.old → Stands a.life (record a { sent = [] }) self.new }
    {
        let committed = mem::replace(&mut self.committed, Vec::new(self.alloc));
        let marks = mem::replace(&mut self.marks, Vec::new(self.alloc));
        let sent = mem::replace(&mut self.sent, Vec::new(self.alloc));
        Left {
            committed,
            marks,
            sent,
        }
    }
}
