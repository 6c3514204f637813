// What is said of the wire.
ghost use Rattle.std.specs.Prelude.{OnOk};
ghost use Rattle.group_rules.specs.Script.{does, say};
ghost use Rattle.group_rules.specs.declared.steps.Step.TheVariants.{ShowWire};
ghost use Rattle.group_world.specs.Standing.{Goes};

use crate::stage::Stage;
use gr_ids::Memory;
use group_rules::{Look, Said};

impl Stage {
    /// The messages that were neither delivered nor lost, and how many were sent.
    pub(crate) fn show_wire(&mut self) -> Result<(), Memory>
        ensures { OnOk result (Goes (does ShowWire) self.old self.new) }
    {
        let messages = self.wire.lines(self.alloc)?;
        let sent = self.wire.sent();
        self.tell(Said::Looked(Look::Wire { messages, sent }))
    }

    /// One thing more is said.
    pub(crate) fn tell(&mut self, said: Said) -> Result<(), Memory>
        ensures { OnOk result (Goes (say said) self.old self.new) }
    {
        Ok(self.said.push(said)?)
    }
}
