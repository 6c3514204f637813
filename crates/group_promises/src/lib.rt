//! What every run of the group promises to its members.
#![tactic(auto)]

ghost use Rattle.std.specs.Prelude.{ℕ, ◌∷◌, ◌++◌};
ghost use Rattle.gr_ids.specs.declared.names.Inc.{Inc};
ghost use Rattle.gtid_sets.specs.Canonical.{IsNumber};
ghost use Rattle.group_legal.specs.OwnRanges.{MadeInRange};
ghost use Rattle.group_legal.specs.Ranges.{HasSmallNumbers};
ghost use Rattle.group_rules.specs.Events.{Life, OfflineWrite};
ghost use Rattle.group_rules.specs.World.{Halts, Past, Writes, dids, life_in};
ghost use Rattle.member_truth.specs.Ranged.{IsRanged};
ghost use Rattle.group_promises.specs.Promises.{EveryHistoryIsTrue, EveryStepIsPromised, ServersCommitForTheGroup};

use group_lives::{a_give_tells_of_the_list, certifiers_agree};
use group_order::slots_are_of_one_log;
use group_runs::{runs_are_of_nodes, servers_write_apart};
use txn_forms::bytes_of_bodies;

/// Every run promises to each member what its code rests on: at each time up to which the numbers of GTIDs and what own values hold stayed within the ranges of
/// their forms, its history is true. Entries come at consecutive places; a transaction that is certified, by an entry or by a Give, is new to the member, and
/// no two that it knows have one place; nobody is added twice; an own value that is taken was made; a transaction shares no row with a later one that is
/// committed before it; and a member whose server wrote offline commits nothing.
pub fn every_history_is_true()
    ensures { EveryHistoryIsTrue }
{
    runs_are_of_nodes();
    servers_write_apart();
    slots_are_of_one_log();
    bytes_of_bodies();
    a_give_tells_of_the_list();
    certifiers_agree();
}

/// What an incarnation does in a step is promised to be true as long as its own history stays within its ranges, if all that had happened before the step did:
/// so a member need look at no history but its own.
pub fn every_step_is_promised()
    ensures { EveryStepIsPromised }
{
    every_history_is_true();
}

/// Each server commits under the group's UUID alone, so under no other one, its own among them.
pub fn servers_commit_for_the_group()
    ensures { ServersCommitForTheGroup }
{
    runs_are_of_nodes();
    servers_write_apart();
    slots_are_of_one_log();
    bytes_of_bodies();
    a_give_tells_of_the_list();
    certifiers_agree();
}

/// What happened stays within its ranges: with a step, as long as the history of the one that steps does; with a server that stops; and with a row that is
/// written offline under a number that a GTID may have.
pub fn ranges_are_kept()
    ensures numbers { (q : Past) (i : Inc) (more : Life) → HasSmallNumbers q → IsRanged (more ++ life_in q i) → HasSmallNumbers (dids i more ++ q) }
    ensures values { (q : Past) (i : Inc) (more : Life) → MadeInRange q → IsRanged (more ++ life_in q i) → MadeInRange (dids i more ++ q) }
    ensures stopped { (q : Past) (n : ℕ) → HasSmallNumbers q → MadeInRange q → HasSmallNumbers (Halts n ∷ q) × MadeInRange (Halts n ∷ q) }
    ensures written { (q : Past) (n : ℕ) (x : OfflineWrite) → IsNumber x.gtid.number → HasSmallNumbers q → MadeInRange q
        → HasSmallNumbers (Writes n x ∷ q) × MadeInRange (Writes n x ∷ q) }
{}
