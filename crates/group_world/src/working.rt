// Workers.
ghost use Rattle.std.specs.Prelude.{IfErr, OnOk, Some, None};
ghost use Rattle.group_rules.specs.Script.{does};
ghost use Rattle.group_rules.specs.declared.steps.Step.TheVariants.{Drain, Work};
ghost use Rattle.group_world.specs.Draining.{worked_all, worked_one};
ghost use Rattle.group_world.specs.Standing.{Ends, Goes};

use crate::stage::Stage;
use gr_ids::Pos;
use group_rules::Said;
use member_core::Event;
use world_wire::WireFault;

/// As many places as a drain works at most.
const MOST_PLACES: u64 = 1 << 42;

impl Stage {
    /// A worker of the incarnation that runs at the server does this place, or the least one that waits; where none waits, that is said.
    pub(crate) fn work(&mut self, server: u8, place: Option<Pos>) -> Result<(), WireFault>
        ensures stands { OnOk result (Goes (does (Work server place)) self.old self.new) }
        ensures full { IfErr result (Ends (does (Work server place)) self.old) }
    {
        match place {
            None => self.work_least(server),
            Some(place) => self.work_place(server, place),
        }
    }

    fn work_place(&mut self, server: u8, place: Pos) -> Result<(), WireFault>
        ensures stands { OnOk result (Goes (does (Work server (Some place))) self.old self.new) }
        ensures full { IfErr result (Ends (does (Work server (Some place))) self.old) }
    {
        let Some(member) = self.sites.member(server) else {
            return Ok(());
        };
        match member.work_at(self.alloc, place)? {
            None => self.event(server, Event::Undone(place)),
            Some(done) => self.event(server, Event::Done(done)),
        }
    }

    fn work_least(&mut self, server: u8) -> Result<(), WireFault>
        ensures stands { OnOk result (Goes (does (Work server None)) self.old self.new) }
        ensures full { IfErr result (Ends (does (Work server None)) self.old) }
    {
        let Some(member) = self.sites.member(server) else {
            return Ok(());
        };
        match member.least_work(self.alloc)? {
            None => {
                let idle = Said::Idle(member.inc());
                Ok(self.tell(idle)?)
            }
            Some(done) => self.event(server, Event::Done(done)),
        }
    }

    /// All messages are delivered, and the least place of the least member that has one is worked, until none waits.
    pub(crate) fn drain(&mut self) -> Result<(), WireFault>
        ensures stands { OnOk result (Goes (does Drain) self.old self.new) }
        ensures full { IfErr result (Ends (does Drain) self.old) }
    {
        self.settle(&[])?;
        self.work_all()
    }

    fn work_all(&mut self) -> Result<(), WireFault>
        ensures stands { OnOk result (Goes worked_all self.old self.new) }
        ensures full { IfErr result (Ends worked_all self.old) }
    {
        for _ in 0..MOST_PLACES {
            match self.sites.least_worker(self.alloc)? {
                None => return Ok(()),
                Some(server) => self.work_and_settle(server)?,
            }
        }
        Ok(())
    }

    fn work_and_settle(&mut self, server: u8) -> Result<(), WireFault>
        ensures stands { OnOk result (Goes (worked_one server) self.old self.new) }
        ensures full { IfErr result (Ends (worked_one server) self.old) }
    {
        self.work_least(server)?;
        self.settle(&[])
    }
}
