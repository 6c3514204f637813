//! The servers that a script declares: their numbers, UUIDs, versions and weights.
#![tactic(auto)]

ghost use Rattle.std.specs.Prelude.{◌≡◌, ◌||◌, [], ℕ, List};
ghost use Rattle.gr_ids.specs.declared.names.Inc.{Inc};
ghost use Rattle.group_rules.specs.Script.{founders};
ghost use Rattle.group_rules.specs.World.{World, declare, is_declared, is_group, is_group_taken, is_taken, new_world};
ghost use Rattle.world_servers.specs.declared.servers.DeclaredServer.{DeclaredServer as Declared};
ghost use Rattle.world_servers.specs.Naming.{AreOf, founders_in, is_group_taken_in, is_taken_in, is_there, with_declared};

mod defaults;
mod founding;
mod servers;

pub use servers::{DeclaredServer, Servers};

/// The servers stand for a world: at its beginning, and with one more that is declared. What they tell is what the rules of the group tell.
pub fn servers_are_those_of_the_world()
    ensures none { AreOf new_world [] }
    ensures declared { (w : World) (xs : List Declared) (n : ℕ) (u v : List ℕ) (g : ℕ) → AreOf w xs
        → AreOf (declare n u v g w) (with_declared xs (record { number = n; uuid = u; version = v; weight = g })) }
    ensures there { (w : World) (xs : List Declared) (n : ℕ) → AreOf w xs → is_there xs n ≡ is_declared w n }
    ensures taken { (w : World) (xs : List Declared) (n : ℕ) (u : List ℕ) → AreOf w xs → (is_taken_in xs n u || is_group w.setup u) ≡ is_taken n u w }
    ensures group { (w : World) (xs : List Declared) (g : List ℕ) → AreOf w xs → is_group_taken_in xs g ≡ is_group_taken g w }
    ensures founders { (w : World) (xs : List Declared) (ns : List ℕ) → AreOf w xs → founders_in xs ns ≡ founders w ns }
{}
