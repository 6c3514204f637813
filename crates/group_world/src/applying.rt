// What each step of a script does.
ghost use Rattle.std.specs.Prelude.{◌≡◌, IfErr, OnOk};
ghost use Rattle.group_rules.specs.Script.{does};
ghost use Rattle.script_text.specs.Ranges.{IsStep};
ghost use Rattle.group_world.specs.Applying.{looks, moves, sets};
ghost use Rattle.group_world.specs.Standing.{Ends, Goes};

use crate::stage::Stage;
use gr_ids::Limits;
use group_rules::Step;
use world_servers::DeclaredServer;
use world_wire::WireFault;

impl Stage {
    /// Does the step, which isn't refused.
    pub(crate) fn does(&mut self, step: Step) -> Result<(), WireFault>
        requires { IsStep step }
        ensures stands { OnOk result (Goes (does step) self.old self.new) }
        ensures full { IfErr result (Ends (does step) self.old) }
    {
        match step {
            Step::Server { .. }
            | Step::Block { .. }
            | Step::Found { .. }
            | Step::Start { .. }
            | Step::Stop { .. }
            | Step::Offline { .. } => self.sets(step),
            Step::Session { .. }
            | Step::Once { .. }
            | Step::Operate { .. }
            | Step::Deliver { .. }
            | Step::Lose { .. }
            | Step::Settle { .. }
            | Step::Work { .. }
            | Step::Drain
            | Step::Tick { .. }
            | Step::Finish { .. } => self.moves(step),
            Step::ShowMembers { .. }
            | Step::ShowSlots { .. }
            | Step::ShowConfig { .. }
            | Step::ShowGtids { .. }
            | Step::ShowRows { .. }
            | Step::ShowQueue { .. }
            | Step::ShowCertifier { .. }
            | Step::ShowKept { .. }
            | Step::ShowWire => self.looks(&step),
        }
    }

    // What is set of servers, and the founding.
    fn sets(&mut self, step: Step) -> Result<(), WireFault>
        requires { IsStep step }
        ensures stands { OnOk result (Goes (sets step) self.old self.new) }
        ensures full { IfErr result (Ends (sets step) self.old) }
    {
        match step {
            Step::Server {
                number,
                uuid,
                version,
                weight,
            } => Ok(self.declare(DeclaredServer {
                number,
                uuid,
                version,
                weight,
            })?),
            Step::Block { size } => {
                self.set_block(size);
                Ok(())
            }
            Step::Found {
                group,
                mode,
                horizon,
                expel,
                majority,
                servers,
            } => {
                let limits = Limits {
                    group,
                    horizon,
                    expel,
                    majority,
                    block: self.block,
                };
                Ok(self.found(limits, mode, servers.as_slice())?)
            }
            Step::Start { server, via } => self.start(server, via),
            Step::Stop { server } => Ok(self.stop(server)?),
            Step::Offline {
                server,
                item,
                value,
            } => Ok(self.write_offline(server, item, value)?),
            _ => Ok(()),
        }
    }

    // What members do, and their messages.
    fn moves(&mut self, step: Step) -> Result<(), WireFault>
        requires { IsStep step }
        ensures stands { OnOk result (Goes (moves step) self.old self.new) }
        ensures full { IfErr result (Ends (moves step) self.old) }
    {
        match step {
            Step::Session {
                server,
                session,
                what,
            } => self.session(server, session, what),
            Step::Once {
                server,
                session,
                change,
            } => self.once(server, session, change),
            Step::Operate { server, what } => self.operate(server, what),
            Step::Deliver { k } => self.deliver(k),
            Step::Lose { k } => {
                self.lose(k);
                Ok(())
            }
            Step::Settle { servers } => self.settle(servers.as_slice()),
            Step::Work { server, place } => self.work(server, place),
            Step::Drain => self.drain(),
            Step::Tick { server, count } => self.tick(server, count),
            Step::Finish { server } => self.finish(server),
            _ => Ok(()),
        }
    }

    fn looks(&mut self, step: &Step) -> Result<(), WireFault>
        ensures stands { OnOk result (Goes (looks step.now) self.old self.new) }
        ensures full { IfErr result (Ends (looks step.now) self.old) }
    {
        match step {
            Step::ShowMembers { server } => Ok(self.show_members(*server)?),
            Step::ShowSlots { server } => Ok(self.show_slots(*server)?),
            Step::ShowConfig { server, slot } => Ok(self.show_config(*server, *slot)?),
            Step::ShowGtids { server } => Ok(self.show_gtids(*server)?),
            Step::ShowRows { server } => Ok(self.show_rows(*server)?),
            Step::ShowQueue { server } => Ok(self.show_queue(*server)?),
            Step::ShowCertifier { server } => Ok(self.show_certifier(*server)?),
            Step::ShowKept { server } => Ok(self.show_kept(*server)?),
            Step::ShowWire => Ok(self.show_wire()?),
            _ => Ok(()),
        }
    }
}
