// A server's site, put among the others.
ghost use Rattle.std.specs.Prelude.{◌≡◌, List, OnOk};
ghost use Rattle.group_rules.specs.World.{Server, with_server};
ghost use Rattle.group_world.specs.Sites.{AreSites, IsSite, Rises, under};

use crate::site::Site;
use crate::sites::{Sites, place_of};
use gr_ids::Memory;

impl Sites {
    /// It stands among the others by its number, in place of the one that has it.
    pub(crate) fn put(&mut self, site: Site) -> Result<(), Memory>
        ensures { OnOk result ((ss : List Server) (s : Server) → Rises ss → AreSites ss self.old → IsSite s site → AreSites (with_server ss s) self.new) }
    {
        let at = place_of(&self.list, site.number);
        if let Some(there) = self.list.get_mut(at) {
            *there = site;
            return Ok(());
        }
        let at = place_behind(&self.list, site.number);
        self.list.insert(at, site)?;
        Ok(())
    }
}

// Where one of this number belongs that isn't there.
fn place_behind(list: &[Site], number: u8) -> usize
    ensures { result ≡ under number list.now }
{
    for (k, site) in list.iter().enumerate() {
        if number < site.number {
            return k;
        }
    }
    list.len()
}
