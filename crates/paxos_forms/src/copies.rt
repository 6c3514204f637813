// Copies of messages.
ghost use Rattle.std.specs.Prelude.{◌≡◌, IfOk};
ghost use Rattle.gr_ids.specs.declared.memory.Memory.{Memory};

use crate::message::{Message, Wire};
use crate::recovery::{Ask, Give, Given};
use crate::welcome::{Welcome, WelcomeMember};
use gr_ids::{Inc, LastNumber, Memory, OpenParts, Sequence};
use gtid_sets::ToldSet;
use key_items::KeptItem;
use slot_values::Vote;
use std::alloc::Global;

/// What can be copied where there is memory for it.
pub trait TryCopy: Sized + Drop {
    /// A copy. Linear in what it holds.
    fn try_copy(&self, alloc: Global) -> Result<Self, Memory>
        ensures { IfOk result (λ copy. copy ≡ self.now) };
}

impl TryCopy for Inc {
    fn try_copy(&self, _alloc: Global) -> Result<Self, Memory> {
        Ok(*self)
    }
}

impl TryCopy for LastNumber {
    fn try_copy(&self, _alloc: Global) -> Result<Self, Memory> {
        Ok(*self)
    }
}

impl TryCopy for WelcomeMember {
    fn try_copy(&self, _alloc: Global) -> Result<Self, Memory> {
        Ok(*self)
    }
}

impl TryCopy for Vote {
    fn try_copy(&self, alloc: Global) -> Result<Self, Memory> {
        Ok(Vote {
            slot: self.slot,
            ballot: self.ballot,
            value: self.value.try_copy(alloc)?,
        })
    }
}

impl TryCopy for KeptItem {
    fn try_copy(&self, alloc: Global) -> Result<Self, Memory> {
        Ok(KeptItem {
            item: self.item.try_copy(alloc)?,
            gtid: self.gtid,
            place: self.place,
        })
    }
}

impl TryCopy for ToldSet {
    fn try_copy(&self, alloc: Global) -> Result<Self, Memory> {
        Ok(ToldSet {
            inc: self.inc,
            set: self.set.try_copy(alloc)?,
        })
    }
}

impl TryCopy for OpenParts {
    fn try_copy(&self, alloc: Global) -> Result<Self, Memory> {
        Ok(OpenParts {
            origin: self.origin,
            count: self.count,
            held: self.held,
            bytes: self.bytes.try_copy(alloc)?,
        })
    }
}

impl TryCopy for Given {
    fn try_copy(&self, alloc: Global) -> Result<Self, Memory> {
        Ok(Given {
            place: self.place,
            origin: self.origin,
            gtid: self.gtid,
            body: self.body.try_copy(alloc)?,
        })
    }
}

impl TryCopy for Sequence<Inc> {
    fn try_copy(&self, alloc: Global) -> Result<Self, Memory> {
        copied(alloc, self.as_slice())
    }
}

/// A copy of each, in order. Linear in what they hold.
pub fn copied<T: TryCopy>(alloc: Global, items: &[T]) -> Result<Sequence<T>, Memory>
    ensures { IfOk result (λ copies. copies ≡ items.now) }
{
    let mut copies = Vec::with_capacity(alloc, items.len())?;
    for item in items {
        copies.push(item.try_copy(alloc)?)?;
    }
    Ok(Sequence::from_vec(copies))
}

impl Message {
    /// A copy. Linear in what it says.
    pub fn try_copy(&self, alloc: Global) -> Result<Message, Memory>
        ensures { IfOk result (λ copy. copy ≡ self.now) }
    {
        Ok(Message {
            from: self.from,
            to: self.to,
            wire: copied_wire(alloc, &self.wire)?,
        })
    }
}

fn copied_wire(alloc: Global, wire: &Wire) -> Result<Wire, Memory>
    ensures { IfOk result (λ copy. copy ≡ wire.now) }
{
    Ok(match wire {
        Wire::Prepare(ballot, slot) => Wire::Prepare(*ballot, *slot),
        Wire::Promise(ballot, slot, votes) => {
            Wire::Promise(*ballot, *slot, copied(alloc, votes.as_slice())?)
        }
        Wire::Accept(ballot, slot, value) => {
            Wire::Accept(*ballot, *slot, value.try_copy(alloc)?)
        }
        Wire::Accepted(ballot, slot) => Wire::Accepted(*ballot, *slot),
        Wire::Learn(slot, value) => Wire::Learn(*slot, value.try_copy(alloc)?),
        Wire::Offer(value) => Wire::Offer(value.try_copy(alloc)?),
        Wire::Welcome(welcome) => Wire::Welcome(copied_welcome(alloc, welcome)?),
        Wire::Ask(ask) => Wire::Ask(copied_ask(alloc, ask)?),
        Wire::Give(give) => Wire::Give(copied_give(alloc, give)?),
        Wire::Alive(slot) => Wire::Alive(*slot),
        Wire::Gone => Wire::Gone,
    })
}

fn copied_welcome(alloc: Global, welcome: &Welcome) -> Result<Welcome, Memory>
    ensures { IfOk result (λ copy. copy ≡ welcome.now) }
{
    Ok(Welcome {
        slot: welcome.slot,
        place: welcome.place,
        number: welcome.number,
        promise: welcome.promise,
        mode: welcome.mode,
        primary: welcome.primary,
        elected: welcome.elected,
        members: copied(alloc, welcome.members.as_slice())?,
        ever: copied(alloc, welcome.ever.as_slice())?,
        configs: copied(alloc, welcome.configs.as_slice())?,
    })
}

fn copied_ask(alloc: Global, ask: &Ask) -> Result<Ask, Memory>
    ensures { IfOk result (λ copy. copy ≡ ask.now) }
{
    Ok(Ask {
        place: ask.place,
        executed: ask.executed.try_copy(alloc)?,
    })
}

fn copied_give(alloc: Global, give: &Give) -> Result<Give, Memory>
    ensures { IfOk result (λ copy. copy ≡ give.now) }
{
    Ok(Give {
        place: give.place,
        blocks: give.blocks,
        last: copied(alloc, give.last.as_slice())?,
        items: copied(alloc, give.items.as_slice())?,
        told: copied(alloc, give.told.as_slice())?,
        certified: give.certified.try_copy(alloc)?,
        txns: copied(alloc, give.txns.as_slice())?,
        parts: copied(alloc, give.parts.as_slice())?,
    })
}
