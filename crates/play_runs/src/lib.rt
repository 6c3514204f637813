//! What the plays of scripts rest on: each is a run of the group, so what every run promises holds of its members, and it is legal.
#![tactic(auto)]

ghost use Rattle.std.specs.Prelude.{◌≡◌, ℕ, Some, None, List};
ghost use Rattle.gtid_sets.specs.Canonical.{IsUuid};
ghost use Rattle.key_items.specs.declared.item.Item.{Item};
ghost use Rattle.group_rules.specs.Events.{Event, Setup};
ghost use Rattle.group_rules.specs.Legal.{IsLegal};
ghost use Rattle.group_rules.specs.Member.{Member};
ghost use Rattle.group_rules.specs.World.{Declares, Founds, Move, Server, Starts, Stops, World, WritesRow, move, new_world, nothing_happens, server_at};
ghost use Rattle.group_runs.specs.Runs.{IsSetup};
ghost use Rattle.group_runs.specs.Servers.{IsMove};
ghost use Rattle.group_promises.specs.Promises.{IsApart};
ghost use Rattle.play_runs.specs.Runs.{HasRoom, IsRun, IsSafe, IsStepIn, RunsAt};

use group_bridge::steps_are_acts;
use group_legal::every_run_is_legal;
use group_promises::{every_step_is_promised, servers_commit_for_the_group};
use group_runs::servers_write_apart;
use order_laws::{only_taking_greets, only_taking_takes, welcomes_follow};

/// A play begins as a run, and every move keeps it one: a server that is declared with a UUID, a founding as the laws ask, a start, a stop, a row that
/// is written offline under a number that a GTID may have, and a move that changes nothing.
#[tactic(auto, using(crate::proofs::Kept::new_runs, crate::proofs::Kept::declared_runs, crate::proofs::Kept::founded_runs, crate::proofs::Kept::started_runs, crate::proofs::Kept::stopped_runs, crate::proofs::Kept::written_runs, crate::proofs::Kept::idle_runs))]
pub fn plays_are_runs()
    ensures begun { IsRun new_world }
    ensures declared { (w : World) (n : ℕ) (u v : List ℕ) (g : ℕ) → IsUuid u → IsRun w → IsRun (move (Declares n u v g) w) }
    ensures founded { (w : World) (t : Setup) → IsSetup t → IsRun w → IsRun (move (Founds t) w) }
    ensures started { (w : World) (n via : ℕ) → IsRun w → IsRun (move (Starts n via) w) }
    ensures stopped { (w : World) (n : ℕ) → IsRun w → IsRun (move (Stops n) w) }
    ensures idle { (m : Move) (w : World) → IsMove m → IsRun w → move m w ≡ nothing_happens w → IsRun (nothing_happens w) }
    ensures written { (w : World) (n : ℕ) (i : Item) (row : List ℕ) → HasRoom w n → IsRun w → IsRun (move (WritesRow n i row) w) }
{}

/// A member that runs in a play is as the play tells, and what its step does is promised by every run; where its history stays within its ranges, the play is
/// a run again.
pub fn steps_of_plays_are_promised()
    ensures members { (w : World) (n : ℕ) (s : Server) (a : Member) → IsRun w → server_at w n ≡ Some s → s.running ≡ Some a → RunsAt w s a }
    ensures steps { (w : World) (m : Move) (e : Event) (a : Member) → IsRun w → IsStepIn w m e a → IsSafe w m e a }
{
    steps_are_acts();
    welcomes_follow();
    only_taking_takes();
    only_taking_greets();
    every_step_is_promised();
}

/// No transaction that a server committed has a GTID of its own UUID, at which it may write while no incarnation of it runs.
pub fn servers_commit_no_own_gtid()
    ensures { (w : World) (n : ℕ) (s : Server) → IsRun w → server_at w n ≡ Some s → s.running ≡ None → IsApart s.uuid s.stored }
{
    steps_are_acts();
    welcomes_follow();
    only_taking_takes();
    only_taking_greets();
    servers_write_apart();
    servers_commit_for_the_group();
}

/// Every play is legal.
pub fn plays_are_legal()
    ensures { (w : World) (t : Setup) → IsRun w → w.setup ≡ Some t → IsLegal t w.past }
{
    every_run_is_legal();
}
