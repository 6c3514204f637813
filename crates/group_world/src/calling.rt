// Calls of sessions, operators, and ticks.
ghost use Rattle.std.specs.Prelude.{IfErr, OnOk};
ghost use Rattle.group_rules.specs.Script.{does};
ghost use Rattle.group_rules.specs.declared.steps.Step.TheVariants.{Finish as EndThreads, Operate, Session, Tick};
ghost use Rattle.script_text.specs.Ranges.{IsOperator, IsRequest};
ghost use Rattle.group_world.specs.Standing.{Ends, Goes};

use crate::stage::Stage;
use gr_ids::SessionId;
use group_rules::{Operator, Request};
use member_core::Event;
use world_wire::WireFault;

impl Stage {
    /// A session call at the incarnation that runs at the server.
    pub(crate) fn session(
        &mut self,
        server: u8,
        session: SessionId,
        what: Request,
    ) -> Result<(), WireFault>
        requires { IsRequest what }
        ensures stands { OnOk result (Goes (does (Session server session what)) self.old self.new) }
        ensures full { IfErr result (Ends (does (Session server session what)) self.old) }
    {
        self.event(server, Event::Session(session, what))
    }

    /// An operator's action there.
    pub(crate) fn operate(&mut self, server: u8, what: Operator) -> Result<(), WireFault>
        requires { IsOperator what }
        ensures stands { OnOk result (Goes (does (Operate server what)) self.old self.new) }
        ensures full { IfErr result (Ends (does (Operate server what)) self.old) }
    {
        self.event(server, Event::Operate(what))
    }

    /// The work of its threads ends.
    pub(crate) fn finish(&mut self, server: u8) -> Result<(), WireFault>
        ensures stands { OnOk result (Goes (does (EndThreads server)) self.old self.new) }
        ensures full { IfErr result (Ends (does (EndThreads server)) self.old) }
    {
        self.event(server, Event::Operate(Operator::Finish))
    }

    /// So many ticks of it.
    pub(crate) fn tick(&mut self, server: u8, count: u32) -> Result<(), WireFault>
        ensures stands { OnOk result (Goes (does (Tick server count)) self.old self.new) }
        ensures full { IfErr result (Ends (does (Tick server count)) self.old) }
    {
        for _ in 0..count {
            self.event(server, Event::Tick)?;
        }
        Ok(())
    }
}
