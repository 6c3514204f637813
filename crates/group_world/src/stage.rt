// The world in the midst of a step.
ghost use Rattle.std.specs.Prelude.{◌≡◌, []};
ghost use Rattle.group_rules.specs.Script.{new_play};
ghost use Rattle.group_world.specs.Standing.{Along};

use crate::founding::Founding;
use crate::sites::Sites;
use group_rules::Said;
use play_runs::plays_are_runs;
use std::alloc::Global;
use std::mem;
use world_servers::{Servers, servers_are_those_of_the_world};
use world_wire::Wire;

/// The servers of a script, their members, and the messages sent, with what the present step has said.
#[derive(Drop)]
pub(crate) struct Stage {
    pub(crate) servers: Servers,
    pub(crate) sites: Sites,
    pub(crate) wire: Wire,
    pub(crate) block: u32,
    pub(crate) founding: Option<Founding>,
    pub(crate) said: Vec<Said>,
    pub(crate) alloc: Global,
}

impl Stage {
    pub(crate) fn new(alloc: Global) -> Stage
        ensures along { Along new_play result }
        ensures unsaid { result.said.items ≡ [] }
    {
        plays_are_runs();
        servers_are_those_of_the_world();
        Stage {
            servers: Servers::new(alloc),
            sites: Sites::new(alloc),
            wire: Wire::new(alloc),
            block: 1,
            founding: None,
            said: Vec::new(alloc),
            alloc,
        }
    }

    /// Hands out what was said; from now on nothing is.
    pub(crate) fn take_said(&mut self) -> Vec<Said>
        ensures taken { result.items ≡ self.old.said.items }
        ensures none { self.new.said.items ≡ [] }
        ensures beside { self.new ≡ record self.old { said = self.new.said } }
    {
        mem::replace(&mut self.said, Vec::new(self.alloc))
    }
}
