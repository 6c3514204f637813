// What a node knows of the log that it takes. A joiner knows nothing before its Welcome.
ghost use Rattle.std.specs.Prelude.{◌≡◌, option_map, IfOk};
ghost use Rattle.gr_ids.specs.Names.{has_inc};
ghost use Rattle.gr_ids.specs.declared.memory.Memory.{Memory};
ghost use Rattle.node_rules.specs.Known.{config_by, config_here, ever_by, members_by};
ghost use Rattle.node_rules.specs.Lists.{union};
ghost use Rattle.paxos_node.specs.Parts.{AllKept, log_of};

use gr_ids::{Inc, Memory};
use paxos_leader::{has_inc, put_incs};
use slot_values::Turns;
use std::alloc::Global;

/// The members by the entries taken, ascending. Takes constant time.
pub(crate) fn members_in(turns: &Option<Turns>) -> &[Inc]
    ensures { result.now ≡ members_by (log_of turns.now) }
{
    match turns {
        Some(turns) => turns.members(),
        None => &[],
    }
}

/// The configuration of a slot, where it is known. Takes constant time.
pub(crate) fn config_in(turns: &Option<Turns>, slot: u64) -> Option<&[Inc]>
    requires { AllKept turns.now }
    ensures { option_map (λ c. c.now) result ≡ config_by (log_of turns.now) slot }
{
    match turns {
        Some(turns) => turns.config(slot),
        None => None,
    }
}

/// The configuration of a slot; empty where it isn't known. Takes constant time.
pub(crate) fn ruling(turns: &Option<Turns>, slot: u64) -> &[Inc]
    requires { AllKept turns.now }
    ensures { result.now ≡ config_here (log_of turns.now) slot }
{
    match config_in(turns, slot) {
        Some(config) => config,
        None => &[],
    }
}

/// Whether the incarnation is a member by the entries taken. Linear in the members.
pub(crate) fn is_member(turns: &Option<Turns>, inc: Inc) -> bool
    ensures { result ≡ has_inc (members_by (log_of turns.now)) inc }
{
    has_inc(members_in(turns), inc)
}

/// Whether the incarnation ever was a member. Linear in what a Welcome tells of the log.
pub(crate) fn was_member(alloc: Global, turns: &Option<Turns>, inc: Inc) -> Result<bool, Memory>
    ensures { IfOk result (λ was. was ≡ has_inc (ever_by (log_of turns.now)) inc) }
{
    match turns {
        Some(turns) => {
            let at = turns.at(alloc)?;
            Ok(has_inc(at.ever.as_slice(), inc))
        }
        None => Ok(false),
    }
}

/// Those in a slot's configuration and the members, ascending. Linear in the members for each of the configuration.
pub(crate) fn reached(alloc: Global, turns: &Option<Turns>, slot: u64) -> Result<Vec<Inc>, Memory>
    requires { AllKept turns.now }
    ensures { IfOk result (λ incs. incs.items ≡ union (config_here (log_of turns.now) slot) (members_by (log_of turns.now))) }
{
    let mut incs = members_in(turns).to_vec(alloc)?;
    put_incs(&mut incs, ruling(turns, slot))?;
    Ok(incs)
}
