// Messages that go to several members.
ghost use Rattle.std.specs.Prelude.{◌≡◌, ◌++◌, IfOk, OnOk};
ghost use Rattle.gr_ids.specs.declared.memory.Memory.{Memory};
ghost use Rattle.paxos_node.specs.Notices.{told_to, wire_of};

use gr_ids::{Ballot, Inc, Memory};
use paxos_forms::{Message, Wire};
use slot_values::Value;
use std::alloc::Global;

/// What a node tells several members at once.
#[derive(Debug, Drop)]
pub(crate) enum Notice<'a> {
    Prepare(Ballot, u64),
    Accept(Ballot, u64, &'a Value),
    Learn(u64, &'a Value),
    Alive(u64),
}

/// The notice as a message says it. Linear in the bytes of its value.
pub(crate) fn wire_for(alloc: Global, notice: &Notice) -> Result<Wire, Memory>
    ensures { IfOk result (λ wire. wire ≡ wire_of notice.now) }
{
    Ok(match notice {
        Notice::Prepare(ballot, slot) => Wire::Prepare(*ballot, *slot),
        Notice::Accept(ballot, slot, value) => {
            Wire::Accept(*ballot, *slot, value.try_copy(alloc)?)
        }
        Notice::Learn(slot, value) => Wire::Learn(*slot, value.try_copy(alloc)?),
        Notice::Alive(slot) => Wire::Alive(*slot),
    })
}

/// The notice goes to each other one of these. Linear in them, and in the bytes of its value for each.
pub(crate) fn tell_others(
    alloc: Global,
    sent: &mut Vec<Message>,
    me: Inc,
    incs: &[Inc],
    notice: &Notice,
) -> Result<(), Memory>
    ensures { OnOk result (sent.new.items ≡ sent.old.items ++ told_to me incs.now (wire_of notice.now)) }
{
    for inc in incs {
        if me != *inc {
            let wire = wire_for(alloc, notice)?;
            sent.push(Message {
                from: me,
                to: *inc,
                wire,
            })?;
        }
    }
    Ok(())
}
