// What other members have told of their slots.
ghost use Rattle.std.specs.Prelude.{◌≡◌, ◌≤◌, map, fold, max, min, if◌then◌else◌, IfOk};
ghost use Rattle.gr_ids.specs.Names.{inc_eq};
ghost use Rattle.gr_ids.specs.declared.memory.Memory.{Memory};
ghost use Rattle.node_rules.specs.Lists.{others};
ghost use Rattle.node_rules.specs.Learning.{tells};
ghost use Rattle.node_rules.specs.Node.{told_from};
ghost use Rattle.paxos_node.specs.Told.{told_of};

use gr_ids::{Inc, Memory};
use std::alloc::Global;

/// What another member has told of its slots: it has decided all below this one.
#[derive(Clone, Copy, Debug, PartialEq, Eq)]
pub(crate) struct ToldSlot {
    pub inc: Inc,
    pub slot: u64,
}

/// Each other one of these counts from the slot on. Linear in them.
pub(crate) fn told_by_others(
    alloc: Global,
    slot: u64,
    me: Inc,
    incs: &[Inc],
) -> Result<Vec<ToldSlot>, Memory>
    ensures { IfOk result (λ told. map told_of told.items ≡ told_from slot (others me incs.now)) }
{
    let mut told = Vec::new(alloc);
    for inc in incs {
        if me != *inc {
            told.push(ToldSlot { inc: *inc, slot })?;
        }
    }
    Ok(told)
}

/// The told slot of the incarnation rises. Linear in those told.
pub(crate) fn raise(told: &mut Vec<ToldSlot>, inc: Inc, slot: u64)
    ensures { map told_of told.new.items ≡ tells (map told_of told.old.items) inc slot }
{
    for at in 0..told.len() {
        told[at] = raised(told[at], inc, slot);
    }
}

fn raised(one: ToldSlot, inc: Inc, slot: u64) -> ToldSlot
    ensures { told_of result ≡ (if inc_eq one.inc inc then record { inc = one.inc; slot = max one.slot slot } else told_of one) }
{
    if one.inc == inc {
        ToldSlot {
            inc,
            slot: one.slot.max(slot),
        }
    } else {
        one
    }
}

/// The least of the told slots and of the own one. Linear in those told.
pub(crate) fn least_of(told: &[ToldSlot], own: u64) -> u64
    ensures least { result ≡ fold (λ k x. min k x.slot) own (map told_of told.now) }
    ensures most { result ≤ own }
{
    let mut least = own;
    for one in told {
        least = least.min(one.slot);
    }
    least
}
