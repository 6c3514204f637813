// Events of members.
ghost use Rattle.std.specs.Prelude.{◌≡◌, ℕ, false, IfErr, OnOk};
ghost use Rattle.group_rules.specs.Script.{Play, event as event_at, plays};
ghost use Rattle.group_rules.specs.World.{Move};
ghost use Rattle.member_core.specs.Standing.{IsEvent, event_of};
ghost use Rattle.group_world.specs.Events.{IsMoveOf, is_heard};
ghost use Rattle.group_world.specs.Standing.{Along, Closes, Ends, Goes};

use crate::stage::Stage;
use member_core::Event;
use play_runs::{plays_are_runs, steps_of_plays_are_promised};
use world_wire::WireFault;

impl Stage {
    /// The incarnation that runs at the server takes the event, whose move this is; what it leaves is said and sent. Nothing happens where none runs.
    pub(crate) fn hand(&mut self, server: u8, event: Event) -> Result<(), WireFault>
        requires { IsEvent event }
        ensures stands { OnOk result ((y : Play) (m : Move) → Along y self.old → IsMoveOf m server (event_of event) y.world → Along (plays m y) self.new) }
        ensures full { IfErr result (λ f. (y : Play) (m : Move) → Along y self.old → IsMoveOf m server (event_of event) y.world → Closes f (plays m y)) }
    {
        plays_are_runs();
        steps_of_plays_are_promised();
        match self.sites.step(server, event)? {
            None => Ok(()),
            Some(turn) => self.leave(turn),
        }
    }

    /// The incarnation that runs at the server takes the event, which is no message.
    pub(crate) fn event(&mut self, server: u8, event: Event) -> Result<(), WireFault>
        requires fits { IsEvent event }
        requires own { is_heard (event_of event) ≡ false }
        ensures stands { OnOk result (Goes (event_at server (event_of event)) self.old self.new) }
        ensures full { IfErr result (Ends (event_at server (event_of event)) self.old) }
    {
        self.hand(server, event)
    }
}
