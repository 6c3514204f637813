// Where the servers stand.
ghost use Rattle.std.specs.Prelude.{◌≡◌, [], List, IfOk, option_copied};
ghost use Rattle.group_rules.specs.Script.{least_worker};
ghost use Rattle.group_rules.specs.World.{Server, is_member, running_of};
ghost use Rattle.group_world.specs.Running.{inc_of, running_incs};
ghost use Rattle.member_core.specs.Standing.{IsEvent, event_of};
ghost use Rattle.group_world.specs.Sites.{AreSites, HasMember, HasSite, HaveStepped, Rises, at_number, before};

use crate::site::{Site, Turn};
use gr_ids::{Inc, Memory};
use member_core::{Event, Member};
use std::alloc::Global;
use std::marker::Model;

/// The declared servers, by ascending number, with what became of each.
#[derive(Drop)]
pub(crate) struct Sites {
    pub(crate) list: Vec<Site>,
}

impl Model for Sites {
    ghost use Rattle.std.specs.Prelude.{List};
    ghost use Rattle.std.specs.Coded.{codes};
    ghost use Rattle.group_world.specs.declared.site.Site.{Site as Stands};
    ghost use Rattle.member_core.specs.contracts.member.Member as runner;

    ghost Value = { List Stands };

    ghost coded = { Prim.hlevel (codes, runner.the_row.coded) };

    ghost view = { λ s. s.list.items };
}

impl Sites {
    /// None is declared; takes no memory.
    pub(crate) fn new(alloc: Global) -> Sites
        ensures { result ≡ [] }
    {
        Sites {
            list: Vec::new(alloc),
        }
    }

    /// The incarnation that runs at the server takes the event; nothing happens where none does.
    pub(crate) fn step(&mut self, number: u8, event: Event) -> Result<Option<Turn>, Memory>
        requires { IsEvent event }
        ensures { IfOk result (λ o. (ss : List Server) → Rises ss → AreSites ss self.old → HaveStepped number (event_of event) ss o self.new) }
    {
        let at = place_of(&self.list, number);
        let Some(site) = self.list.get_mut(at) else {
            return Ok(None);
        };
        site.step(event)
    }
}

impl Sites {
    /// The site of the server, if it is declared.
    pub(crate) fn site(&self, server: u8) -> Option<&Site>
        ensures { (ss : List Server) → AreSites ss self.now → HasSite (at_number server ss) (option_copied result) }
    {
        self.list.get(place_of(&self.list, server))
    }

    /// The member that runs at the server, if one does.
    pub(crate) fn member(&self, server: u8) -> Option<&Member>
        ensures { (ss : List Server) → AreSites ss self.now → HasMember (running_of (at_number server ss)) (option_copied result) }
    {
        match self.site(server) {
            None => None,
            Some(site) => site.member(),
        }
    }

    /// The incarnation that runs at the server, if one does.
    pub(crate) fn running(&self, server: u8) -> Option<Inc>
        ensures { (ss : List Server) → AreSites ss self.now → result ≡ inc_of (running_of (at_number server ss)) }
    {
        match self.site(server) {
            None => None,
            Some(site) => site.running(),
        }
    }

    /// Whether the incarnation runs.
    pub(crate) fn runs(&self, inc: Inc) -> bool
        ensures { (ss : List Server) → AreSites ss self.now → result ≡ is_member (running_of (at_number inc.server ss)) inc }
    {
        match self.running(inc.server) {
            None => false,
            Some(running) => running == inc,
        }
    }

    /// The incarnations that run, ascending.
    pub(crate) fn all_running(&self, alloc: Global) -> Result<Vec<Inc>, Memory>
        ensures { IfOk result (λ v. (ss : List Server) → AreSites ss self.now → v.items ≡ running_incs ss) }
    {
        let mut incs = Vec::new(alloc);
        let mut left = self.list.as_slice();
        while let Some((site, behind)) = left.split_first() {
            if let Some(inc) = site.running() {
                incs.push(inc)?;
            }
            left = behind;
        }
        Ok(incs)
    }
}

impl Sites {
    /// The least server whose member has a place that waits for a worker.
    pub(crate) fn least_worker(&self, alloc: Global) -> Result<Option<u8>, Memory>
        ensures { IfOk result (λ o. (ss : List Server) → AreSites ss self.now → o ≡ least_worker ss) }
    {
        let mut left = self.list.as_slice();
        while let Some((site, behind)) = left.split_first() {
            if site.has_work(alloc)? {
                return Ok(Some(site.number));
            }
            left = behind;
        }
        Ok(None)
    }
}

// Where the server stands; the length where it isn't there.
pub(crate) fn place_of(list: &[Site], number: u8) -> usize
    ensures { result ≡ before number list.now }
{
    for (k, site) in list.iter().enumerate() {
        if site.number == number {
            return k;
        }
    }
    list.len()
}
