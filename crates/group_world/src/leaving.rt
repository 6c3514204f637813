// What a step of a member leaves in its world.
ghost use Rattle.std.specs.Prelude.{◌≡◌, ◌++◌, false, map, IfErr, IfOk, OnOk};
ghost use Rattle.group_rules.specs.Script.{is_full, letter};
ghost use Rattle.world_wire.specs.Faults.{IsCause};
ghost use Rattle.group_world.specs.Events.{IsBeside, messages_in, said_by};

use crate::site::Turn;
use crate::stage::Stage;
use gr_ids::{Inc, Memory, Sequence};
use group_rules::{Mark, Said};
use member_core::StepLeft;
use member_messages::Outgoing;
use paxos_forms::Message;
use std::alloc::Global;
use world_wire::WireFault;

impl Stage {
    /// Its messages are sent, and its marks said.
    pub(crate) fn leave(&mut self, turn: Turn) -> Result<(), WireFault>
        ensures wire { OnOk result (self.new.wire ≡ self.old.wire ++ map letter (messages_in turn.left.sent.items)) }
        ensures few { OnOk result (is_full self.new.wire ≡ false) }
        ensures said { OnOk result (self.new.said.items ≡ self.old.said.items ++ said_by turn.inc turn.left.marks.items) }
        ensures beside { OnOk result (IsBeside self.old self.new) }
        ensures full { IfErr result (IsCause (self.old.wire ++ map letter (messages_in turn.left.sent.items))) }
    {
        let Turn { inc, left } = turn;
        let StepLeft { marks, sent } = left;
        let messages = messages_of(self.alloc, sent)?;
        self.send(messages)?;
        self.say(inc, marks)?;
        Ok(())
    }

    /// The messages are sent.
    pub(crate) fn send(&mut self, messages: Sequence<Message>) -> Result<(), WireFault>
        ensures wire { OnOk result (self.new.wire ≡ self.old.wire ++ map letter messages) }
        ensures few { OnOk result (is_full self.new.wire ≡ false) }
        ensures said { OnOk result (self.new.said ≡ self.old.said) }
        ensures beside { OnOk result (IsBeside self.old self.new) }
        ensures full { IfErr result (IsCause (self.old.wire ++ map letter messages)) }
    {
        self.wire.send(messages)
    }

    fn say(&mut self, inc: Inc, marks: Vec<Mark>) -> Result<(), Memory>
        ensures wire { OnOk result (self.new.wire ≡ self.old.wire) }
        ensures said { OnOk result (self.new.said.items ≡ self.old.said.items ++ said_by inc marks.items) }
        ensures beside { OnOk result (IsBeside self.old self.new) }
    {
        say_each(&mut self.said, inc, marks)
    }
}

fn say_each(said: &mut Vec<Said>, inc: Inc, marks: Vec<Mark>) -> Result<(), Memory>
    ensures { OnOk result (said.new.items ≡ said.old.items ++ said_by inc marks.items) }
{
    for mark in marks {
        said.push(Said::Marked(inc, mark))?;
    }
    Ok(())
}

/// The messages without their bytes.
pub(crate) fn messages_of(alloc: Global, sent: Vec<Outgoing>) -> Result<Sequence<Message>, Memory>
    ensures { IfOk result (λ messages. messages ≡ messages_in sent.items) }
{
    let mut messages = Vec::new(alloc);
    for outgoing in sent {
        messages.push(outgoing.message)?;
    }
    Ok(Sequence::from_vec(messages))
}
