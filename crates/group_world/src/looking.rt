// What is seen of members.
ghost use Rattle.std.specs.Prelude.{OnOk};
ghost use Rattle.group_rules.specs.Looks.{show_certifier, show_config, show_gtids, show_kept, show_members, show_queue, show_rows, show_slots};
ghost use Rattle.group_rules.specs.Script.{look_at};
ghost use Rattle.group_world.specs.Standing.{Goes};

use crate::stage::Stage;
use gr_ids::Memory;
use group_rules::Said;

impl Stage {
    /// The members, as the incarnation that runs at the server sees them, are said.
    pub(crate) fn show_members(&mut self, server: u8) -> Result<(), Memory>
        ensures { OnOk result (Goes (look_at show_members server) self.old self.new) }
    {
        match self.sites.member(server) {
            None => Ok(()),
            Some(member) => {
                let look = member.show_members(self.alloc)?;
                self.tell(Said::Looked(look))
            }
        }
    }

    /// The incarnation's place in the list is said.
    pub(crate) fn show_slots(&mut self, server: u8) -> Result<(), Memory>
        ensures { OnOk result (Goes (look_at show_slots server) self.old self.new) }
    {
        match self.sites.member(server) {
            None => Ok(()),
            Some(member) => {
                let look = member.show_slots();
                self.tell(Said::Looked(look))
            }
        }
    }

    /// What the incarnation has executed is said.
    pub(crate) fn show_gtids(&mut self, server: u8) -> Result<(), Memory>
        ensures { OnOk result (Goes (look_at show_gtids server) self.old self.new) }
    {
        match self.sites.member(server) {
            None => Ok(()),
            Some(member) => {
                let look = member.show_gtids(self.alloc)?;
                self.tell(Said::Looked(look))
            }
        }
    }

    /// Its rows are said.
    pub(crate) fn show_rows(&mut self, server: u8) -> Result<(), Memory>
        ensures { OnOk result (Goes (look_at show_rows server) self.old self.new) }
    {
        match self.sites.member(server) {
            None => Ok(()),
            Some(member) => {
                let look = member.show_rows(self.alloc)?;
                self.tell(Said::Looked(look))
            }
        }
    }

    /// The places that the incarnation has queued are said.
    pub(crate) fn show_queue(&mut self, server: u8) -> Result<(), Memory>
        ensures { OnOk result (Goes (look_at show_queue server) self.old self.new) }
    {
        match self.sites.member(server) {
            None => Ok(()),
            Some(member) => {
                let look = member.show_queue(self.alloc)?;
                self.tell(Said::Looked(look))
            }
        }
    }

    /// The items that the incarnation's certifier keeps are said.
    pub(crate) fn show_certifier(&mut self, server: u8) -> Result<(), Memory>
        ensures { OnOk result (Goes (look_at show_certifier server) self.old self.new) }
    {
        match self.sites.member(server) {
            None => Ok(()),
            Some(member) => {
                let look = member.show_certifier(self.alloc)?;
                self.tell(Said::Looked(look))
            }
        }
    }

    /// The least slot that the incarnation keeps is said.
    pub(crate) fn show_kept(&mut self, server: u8) -> Result<(), Memory>
        ensures { OnOk result (Goes (look_at show_kept server) self.old self.new) }
    {
        match self.sites.member(server) {
            None => Ok(()),
            Some(member) => {
                let look = member.show_kept();
                self.tell(Said::Looked(look))
            }
        }
    }

    /// Who votes in the slot, as far as the incarnation knows, is said.
    pub(crate) fn show_config(&mut self, server: u8, slot: u64) -> Result<(), Memory>
        ensures { OnOk result (Goes (look_at (show_config slot) server) self.old self.new) }
    {
        match self.sites.member(server) {
            None => Ok(()),
            Some(member) => {
                let look = member.show_config(self.alloc, slot)?;
                self.tell(Said::Looked(look))
            }
        }
    }
}
