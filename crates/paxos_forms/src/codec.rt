// Messages as bytes.
ghost use Rattle.std.specs.Prelude.{◌≡◌, ◌++◌, [], IfErr, IfOk, OnErr, OnOk};
ghost use Rattle.byte_forms.specs.Cuts.{Takes};
ghost use Rattle.byte_forms.specs.Packs.{Keeps};
ghost use Rattle.byte_forms.specs.Reads.{Got, whole};
ghost use Rattle.byte_forms.specs.Unreads.{Breaks};
ghost use Rattle.paxos_forms.specs.Messages.{IsHeld, IsMessage, message_bytes, next_message};
ghost use Rattle.paxos_forms.specs.Faults.{IsFault};
ghost use Rattle.gr_ids.specs.declared.memory.Memory.{Memory};

use crate::fault::MessageFault;
use crate::message::Message;
use crate::wires::{put_wire, take_wire};
use byte_forms::{Cutter, Packer, Unread};
use gr_ids::{Blob, Memory};
use name_forms::{put_inc, take_inc};
use std::alloc::Global;

/// The bytes of a message, which are read as that message again. Linear in them. A set whose counts need more than four
/// bytes has no spelling, and is answered as want of memory; it would take 128 GiB.
pub fn encode(alloc: Global, message: &Message) -> Result<Blob, Memory>
    requires { IsMessage message.now }
    ensures ok { IfOk result (λ blob. blob ≡ message_bytes message.now) }
    ensures back { IfOk result (λ blob. whole next_message blob ≡ Got message.now []) }
{
    let mut to = Packer::new(alloc);
    put_message(&mut to, message)?;
    Ok(Blob::from_vec(to.finish()))
}

/// The message that the bytes spell. Refused as `BadMessage` at the first byte with which no spelling goes on.
/// Linear in the bytes: what a count says takes no memory before it is there.
pub fn decode(alloc: Global, bytes: &[u8]) -> Result<Message, MessageFault>
    ensures ok { IfOk result (λ message. whole next_message bytes.now ≡ Got message []) }
    ensures spelled { IfOk result (λ message. IsMessage message × (bytes.now ≡ message_bytes message)) }
    ensures bad { IfErr result (λ e. IsFault bytes.now e) }
{
    let mut from = Cutter::new(bytes);
    let message = take_message(alloc, &mut from)?;
    from.end()?;
    Ok(message)
}

#[tactic(auto, unfolding(crate::specs::Messages::next_message))]
fn take_message(alloc: Global, cutter: &mut Cutter) -> Result<Message, Unread>
    ensures ok { IfOk result (λ message. Takes next_message cutter.old message cutter.new) }
    ensures misfit { IfErr result (λ e. Breaks next_message cutter.old e) }
{
    let from = take_inc(cutter)?;
    let to = take_inc(cutter)?;
    let wire = take_wire(alloc, cutter)?;
    Ok(Message { from, to, wire })
}

fn put_message(to: &mut Packer, message: &Message) -> Result<(), Memory>
    requires { IsMessage message.now }
    ensures ok { OnOk result (to.new ≡ to.old ++ message_bytes message.now) }
    ensures held { OnOk result (IsHeld message.now.wire) }
    ensures err { OnErr result (Keeps to.old to.new) }
{
    put_inc(to, message.from)?;
    put_inc(to, message.to)?;
    put_wire(to, &message.wire)
}
