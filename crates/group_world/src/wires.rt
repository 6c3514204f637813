// Messages.
ghost use Rattle.std.specs.Prelude.{◌≡◌, IfErr, IfOk, OnOk, option_map};
ghost use Rattle.group_rules.specs.Script.{Play, deliver as deliver_of, letter_at, lose as lose_of, next_letter, settle as settle_of};
ghost use Rattle.group_world.specs.Standing.{Along, Ends, Goes};

use crate::stage::Stage;
use gr_ids::Memory;
use member_core::Event;
use message_checks::is_message;
use paxos_forms::Message;
use play_runs::{plays_are_runs, steps_of_plays_are_promised};
use world_wire::WireFault;

/// As many messages as the wire holds at most.
const MOST_MESSAGES: u32 = 1 << 20;

impl Stage {
    /// The k-th message is taken by its addressee.
    pub(crate) fn deliver(&mut self, k: u64) -> Result<(), WireFault>
        ensures stands { OnOk result (Goes (deliver_of k) self.old self.new) }
        ensures full { IfErr result (Ends (deliver_of k) self.old) }
    {
        plays_are_runs();
        self.wire.mark_delivered(k);
        let Some(message) = self.message(k)? else {
            return Ok(());
        };
        if !is_message(&message) {
            return Ok(());
        }
        if !self.sites.runs(message.to) {
            return Ok(());
        }
        self.hand(message.to.server, Event::Message(message))
    }

    fn message(&self, k: u64) -> Result<Option<Message>, Memory>
        ensures { IfOk result (λ o. o ≡ option_map (λ x. x.message) (letter_at self.now.wire k)) }
    {
        match self.wire.message(k) {
            None => Ok(None),
            Some(message) => Ok(Some(message.try_copy(self.alloc)?)),
        }
    }

    /// The k-th message is lost.
    pub(crate) fn lose(&mut self, k: u64)
        ensures { Goes (lose_of k) self.old self.new }
    {
        self.wire.mark_lost(k);
    }

    /// The least message between these servers is delivered, until there is none.
    pub(crate) fn settle(&mut self, among: &[u8]) -> Result<(), WireFault>
        ensures stands { OnOk result (Goes (settle_of among.now) self.old self.new) }
        ensures full { IfErr result (Ends (settle_of among.now) self.old) }
    {
        for _ in 0..MOST_MESSAGES {
            match self.next(among)? {
                None => return Ok(()),
                Some(k) => self.deliver(k)?,
            }
        }
        Ok(())
    }

    fn next(&self, among: &[u8]) -> Result<Option<u64>, Memory>
        ensures { IfOk result (λ o. (y : Play) → Along y self.now → o ≡ next_letter y.world among.now 1 y.wire) }
    {
        steps_of_plays_are_promised();
        let running = self.sites.all_running(self.alloc)?;
        Ok(self.wire.next(among, &running))
    }
}
