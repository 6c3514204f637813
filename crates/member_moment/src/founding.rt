// How a member begins.
ghost use Rattle.std.specs.Prelude.{◌≡◌, IfOk, map};
ghost use Rattle.gr_ids.specs.declared.memory.Memory.{Memory};
ghost use Rattle.name_forms.specs.Incs.{IsInc};
ghost use Rattle.slot_values.specs.Joiners.{IsJoiner};
ghost use Rattle.node_rules.specs.Lists.{In};
ghost use Rattle.group_rules.specs.Events.{Setup, Stored};
ghost use Rattle.group_rules.specs.Steps.{found, start};
ghost use Rattle.member_ranges.specs.Ranges.{IsFounding, setup_with};
ghost use Rattle.kept_server.specs.Keeping.{IsStored};
ghost use Rattle.member_moment.specs.Founding.{HasBegun, add_message};

use crate::keepable::are_keepable;
use crate::moment::Moment;
use gr_ids::{Inc, Limits, Memory, Mode, ValueId};
use gtid_sets::GtidSet;
use member_joining::Joining;
use member_own::Own;
use member_parts::MemberParts;
use member_tables::MemberTables;
use paxos_forms::{Given, Message, Wire};
use paxos_node::Node;
use row_store::Store;
use slot_values::{Joiner, Value, What};
use std::alloc::Global;

// The greatest size of a block of GTID numbers.
const MOST_BLOCK: u32 = 1_000_000;

impl Moment {
    /// A founder of a group, ONLINE. Linear in the founders.
    pub fn found(
        alloc: Global,
        me: Joiner,
        founders: &[Joiner],
        mode: Mode,
        limits: Limits,
    ) -> Result<Moment, Memory>
        requires founding { IsFounding (setup_with limits mode founders.now) }
        requires founder { In me founders.now }
        ensures { IfOk result (HasBegun (found (setup_with limits mode founders.now) me)) }
    {
        let incs = incs_of(alloc, founders)?;
        let node = Node::founder(alloc, me.inc, &incs, limits.horizon)?;
        let parts = MemberParts::founded(alloc, me.inc, founders, mode, limits)?;
        let view = parts.list().view();
        let tables = MemberTables::founded(alloc, me.inc, view.mode(), view.primary());
        Ok(Moment {
            alloc,
            me,
            contact: me.inc,
            limits,
            node,
            parts,
            tables,
            own: Own::new(),
            joining: Joining::new(),
            committed: Vec::new(alloc),
            marks: Vec::new(alloc),
            sent: Vec::new(alloc),
        })
    }

    /// A joiner, OFFLINE, which sends its Add to a contact; its server has executed this set, has these rows, and has committed these transactions.
    /// Linear in the bytes of these, and in their number for each one whose place isn't below those behind it.
    pub fn start(
        alloc: Global,
        me: Joiner,
        contact: Inc,
        limits: Limits,
        executed: GtidSet,
        store: Store,
        committed: &[Given],
    ) -> Result<Moment, Memory>
        requires joiner { IsJoiner me }
        requires contact { IsInc contact }
        ensures { IfOk result (λ x. (s : Setup) (y : Stored) → IsFounding s → s.limits ≡ limits → IsStored y executed store committed.now → HasBegun (start s me y contact) x) }
    {
        if limits.block == 0 || limits.block > MOST_BLOCK {
            return Err(Memory);
        }
        if !are_keepable(committed) {
            return Err(Memory);
        }
        let parts = MemberParts::joining(alloc, me.inc, limits, committed)?;
        let mut sent = Vec::new(alloc);
        sent.push(add_offered(me, contact))?;
        Ok(Moment {
            alloc,
            me,
            contact,
            limits,
            node: Node::joiner(alloc, me.inc, limits.horizon),
            parts,
            tables: MemberTables::joining(alloc, me.inc, store, executed),
            own: Own::new(),
            joining: Joining::new(),
            committed: Vec::new(alloc),
            marks: Vec::new(alloc),
            sent,
        })
    }
}

// Its Add, without a number, for its contact.
fn add_offered(me: Joiner, contact: Inc) -> Message
    ensures { result ≡ add_message me contact }
{
    let id = ValueId {
        origin: me.inc,
        number: 0,
    };
    Message {
        from: me.inc,
        to: contact,
        wire: Wire::Offer(Value {
            id,
            what: What::Add(me),
        }),
    }
}

fn incs_of(alloc: Global, joiners: &[Joiner]) -> Result<Vec<Inc>, Memory>
    ensures { IfOk result (λ v. v.items ≡ map (λ j. j.inc) joiners.now) }
{
    Ok(joiners.iter().map(|joiner| joiner.inc).collect(alloc)?)
}
