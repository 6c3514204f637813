//! The world that a script plays in: the servers, their members, and every message that was sent.
#![tactic(auto)]

ghost use Rattle.std.specs.Prelude.{◌≡◌, Some};
ghost use Rattle.group_rules.specs.Events.{Setup};
ghost use Rattle.group_rules.specs.Legal.{IsLegal};
ghost use Rattle.group_rules.specs.Script.{Play};
ghost use Rattle.group_world.specs.Standing.{IsWorld};
ghost use Rattle.group_world.specs.declared.world.World.{World as Whole};

mod applying;
mod calling;
mod declaring;
mod founding;
mod handing;
mod leaving;
mod looking;
mod looking_wire;
mod once;
mod putting;
mod refusing;
mod reporting;
mod site;
mod sites;
mod stage;
mod starting;
mod stopping;
mod uuids;
mod wires;
mod working;
mod world;
mod writing;

pub use world::World;

/// The play that a world stands for is legal.
pub fn plays_are_legal()
    ensures { (y : Play) (x : Whole) (s : Setup) → IsWorld y x → y.world.setup ≡ Some s → IsLegal s y.world.past }
{
    play_runs::plays_are_legal();
}
