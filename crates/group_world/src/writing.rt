// Rows that are written while no incarnation of a server runs.
ghost use Rattle.std.specs.Prelude.{◌≡◌, List, IfOk, OnOk};
ghost use Rattle.key_items.specs.Spelling.{IsItem};
ghost use Rattle.group_rules.specs.Script.{plays};
ghost use Rattle.group_rules.specs.World.{Server, WritesRow};
ghost use Rattle.group_world.specs.Changing.{Tells};
ghost use Rattle.group_world.specs.Sites.{AreSites, IsSite, Rises};
ghost use Rattle.group_world.specs.Standing.{Goes};
ghost use Rattle.group_world.specs.Writing.{HasWritten, HaveWritten};

use crate::site::{Site, Stay};
use crate::sites::{Sites, place_of};
use crate::stage::Stage;
use crate::uuids::uuid_fits;
use gr_ids::{Blob, Gtid, Memory};
use group_rules::Said;
use key_items::Item;
use play_runs::{plays_are_runs, servers_commit_no_own_gtid};
use std::alloc::Global;
use world_servers::DeclaredServer;

impl Stage {
    /// The row is written under the server's own UUID and its next number. Nothing happens before the founding, or where the server isn't declared or runs.
    pub(crate) fn write_offline(
        &mut self,
        server: u8,
        item: Item,
        value: Blob,
    ) -> Result<(), Memory>
        requires { IsItem item }
        ensures { OnOk result (Goes (plays (WritesRow server item value)) self.old self.new) }
    {
        plays_are_runs();
        servers_commit_no_own_gtid();
        if self.founding.is_none() {
            return Ok(());
        }
        let Some(declared) = self.servers.get(server) else {
            return Ok(());
        };
        match self.sites.write(self.alloc, *declared, item, value)? {
            None => Ok(()),
            Some(gtid) => {
                self.said.push(Said::Offline(gtid))?;
                Ok(())
            }
        }
    }
}

impl Sites {
    // The row is written at the declared server, where none runs.
    fn write(
        &mut self,
        alloc: Global,
        server: DeclaredServer,
        item: Item,
        value: Blob,
    ) -> Result<Option<Gtid>, Memory>
        requires { IsItem item }
        ensures { IfOk result (λ o. (ss : List Server) → Rises ss → AreSites ss self.old → Tells server ss → HaveWritten server.number item value ss o self.new) }
    {
        let at = place_of(&self.list, server.number);
        let Some(site) = self.list.get_mut(at) else {
            return Ok(None);
        };
        site.write(alloc, server.uuid, item, value)
    }
}

impl Site {
    fn write(
        &mut self,
        alloc: Global,
        uuid: [u8; 16],
        item: Item,
        value: Blob,
    ) -> Result<Option<Gtid>, Memory>
        requires { IsItem item }
        ensures { IfOk result (λ o. (s : Server) → IsSite s self.old → s.uuid ≡ uuid → HasWritten item value s o self.new) }
    {
        uuid_fits(&uuid);
        match &mut self.stay {
            Stay::Running(_) => Ok(None),
            Stay::Stopped(kept) => Ok(Some(kept.write(alloc, uuid, item, value)?)),
        }
    }
}
