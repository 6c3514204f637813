//! From the one log of a run to the laws of the group.
//!
//! The list that a log gives is said by `listed`, as the history of a founder that did nothing but take slots. Here it is a list of which the laws speak.
#![tactic(auto)]

ghost use Rattle.std.specs.Prelude.{◌≡◌, List};
ghost use Rattle.slot_values.specs.declared.value.Value.{Value};
ghost use Rattle.group_rules.specs.Events.{Setup};
ghost use Rattle.group_rules.specs.Legal.{OneOrderedList};
ghost use Rattle.group_rules.specs.OneList.{listed};
ghost use Rattle.group_rules.specs.World.{Past};
ghost use Rattle.group_laws.specs.Entries as law;
ghost use Rattle.group_laws.specs.Verdict as decided;
ghost use Rattle.group_laws.specs.Life as lives;
ghost use Rattle.group_laws.specs.World.{IsKeptList};
ghost use Rattle.group_lives.specs.Lives.{life_of};
ghost use Rattle.group_lives.specs.Sound.{IsTaking, AddsNew};
ghost use Rattle.group_order.specs.OneLog.{OneLogOf};
ghost use Rattle.group_legal.specs.Order.{EveryRunIsOrdered};
ghost use Rattle.group_legal.specs.EveryRun.{EveryRunIsLegal};

use group_lives::{a_give_tells_of_the_list, certifiers_agree};
use group_order::slots_are_of_one_log;
use group_runs::{runs_are_of_nodes, servers_write_apart};
use txn_forms::bytes_of_bodies;

/// The first law of a legal run holds of every run, for the list that its one log gives: each slot that an incarnation takes or skips has the value and the
/// entry of the list, in consecutive slots, from the slot of its own Add on; no other slot is in the log; and each value that is taken or skipped, but for a
/// Noop, was made before by its origin.
pub fn the_list_is_one()
    ensures ordered { (t : Setup) (w : Past) (one : OneLogOf t w) → OneOrderedList t one.parts.log w }
    ensures every_run { EveryRunIsOrdered }
{
    slots_are_of_one_log();
}

/// The list of a log has consecutive places and the effects of its view, its verdicts are those that the laws find by a scan,
/// it adds nobody twice, and each of its values is of one who then is a member, with the member's next number.
pub fn the_list_is_scanned()
    ensures taking { (t : Setup) (base : List law.Placed) (log : List Value) → IsTaking t base (listed t log) }
    ensures scanned { (t : Setup) (base : List law.Placed) (log : List Value)
        → lives.marked (life_of base (listed t log)) ≡ decided.scan t (lives.taken (life_of base (listed t log))) }
    ensures adds_new { (t : Setup) (base : List law.Placed) (log : List Value) → AddsNew t (lives.taken (life_of base (listed t log))) }
    ensures numbered { (t : Setup) (base : List law.Placed) (log : List Value) → IsKeptList t (lives.taken (life_of base (listed t log))) }
{}

/// Every run of the group is legal: whatever the servers, messages, losses, repeats, stops and rejoins, members take parts of one ordered list; each
/// transaction has the verdict and the GTID that a scan of the whole list gives; every begin at BEFORE reads all that was certified before its place, every
/// transaction at AFTER was prepared at each member that then was ONLINE, every begin at a new primary reads its backlog; and the rows of each running
/// incarnation are those of its executed set, no change of which is refused.
///
/// The numbers of GTIDs and what own values hold are to be within the ranges of their forms: members refuse what isn't.
/// (MySQL 8.0 Reference Manual, Group Replication: Transaction Consistency Guarantees; Distributed Recovery.)
pub fn every_run_is_legal()
    ensures { EveryRunIsLegal }
{
    runs_are_of_nodes();
    servers_write_apart();
    slots_are_of_one_log();
    bytes_of_bodies();
    a_give_tells_of_the_list();
    certifiers_agree();
}
