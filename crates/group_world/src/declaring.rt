// Servers that are declared, and the block of the next founding.
ghost use Rattle.std.specs.Prelude.{◌≡◌, ◌≤◌, ◌||◌, List, OnOk, map};
ghost use Rattle.group_rules.specs.Script.{plays};
ghost use Rattle.group_rules.specs.World.{Declares, Server, is_group, with_server};
ghost use Rattle.world_servers.specs.Naming.{declared_of, is_taken_in};
ghost use Rattle.group_world.specs.Standing.{Goes, setup_in};
ghost use Rattle.group_world.specs.Sites.{Rises};

use crate::site::{Site, Stay};
use crate::stage::Stage;
use crate::uuids::uuid_fits;
use gr_ids::Memory;
use kept_server::KeptServer;
use play_runs::plays_are_runs;
use world_servers::{DeclaredServer, servers_are_those_of_the_world};

impl Stage {
    /// The server is declared; nothing happens where its number or its UUID is taken.
    pub(crate) fn declare(&mut self, server: DeclaredServer) -> Result<(), Memory>
        ensures { OnOk result (Goes (plays (Declares server.number server.uuid server.version server.weight)) self.old self.new) }
    {
        plays_are_runs();
        servers_are_those_of_the_world();
        uuid_fits(&server.uuid);
        if self.is_taken(server.number, server.uuid) {
            return Ok(());
        }
        self.sites.put(Site {
            number: server.number,
            starts: 0,
            stay: Stay::Stopped(KeptServer::new(self.alloc)),
        })?;
        self.servers.declare(server)
    }

    /// Whether the number or the UUID can't be declared any more.
    pub(crate) fn is_taken(&self, number: u8, uuid: [u8; 16]) -> bool
        ensures { result ≡ (is_taken_in self.now.servers number uuid || is_group (setup_in self.now.founding) uuid) }
    {
        if self.servers.is_taken(number, uuid) {
            return true;
        }
        match &self.founding {
            None => false,
            Some(founding) => founding.limits.group == uuid,
        }
    }

    /// The server stands among those that are declared. Where it stood there already, it stays as it was.
    pub(crate) fn enlist(&mut self, server: DeclaredServer) -> Result<(), Memory>
        ensures listed { OnOk result ((ss : List Server) (s : Server) → Rises ss → self.old.servers ≡ map declared_of ss → declared_of s ≡ server → self.new.servers ≡ map declared_of (with_server ss s)) }
        ensures beside { self.new ≡ record self.old { servers = self.new.servers } }
    {
        match self.servers.get(server.number) {
            None => self.servers.declare(server),
            Some(there) => {
                if *there == server {
                    Ok(())
                } else {
                    Err(Memory)
                }
            }
        }
    }

    /// From now on an origin draws so many consecutive GTID numbers at a time, where a group is founded.
    pub(crate) fn set_block(&mut self, size: u32)
        requires above { 1 ≤ size }
        requires below { size ≤ 1000000 }
        ensures { Goes (λ y. record y { block = size }) self.old self.new }
    {
        self.block = size;
    }
}
