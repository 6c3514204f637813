//! What holds of every run of the group: it is a run of the world of nodes, and each thing that happens is allowed by what had happened before.
#![tactic(auto)]

ghost use Rattle.group_runs.specs.Runs.{EveryRun};
ghost use Rattle.group_runs.specs.Servers.{EveryRunOfServers};

use group_bridge::steps_are_acts;
use order_laws::{only_taking_greets, only_taking_takes, welcomes_follow};

/// In every run of the group, whatever is lost, repeated, reordered, stopped and started: the slots that members take and skip are those of one run
/// of the world of nodes, of which the laws of the order speak; and each thing that an incarnation does is what the rules allow after all
/// that it had done, each message that it hears having been sent to it.
pub fn runs_are_of_nodes()
    ensures { EveryRun }
{
    steps_are_acts();
    welcomes_follow();
    only_taking_takes();
    only_taking_greets();
}

/// In every run of the group, where each UUID that is declared has its bytes: the founders began while nothing else happened, and a row is written offline
/// only while no incarnation of the server runs, under a UUID that isn't the group's.
pub fn servers_write_apart()
    ensures { EveryRunOfServers }
{
    steps_are_acts();
    welcomes_follow();
    only_taking_takes();
    only_taking_greets();
}
