// A message that was sent.
ghost use Rattle.std.specs.Prelude.{◌≡◌, ◌&&◌, true, IfOk};
ghost use Rattle.group_rules.specs.Script.{letter as letter_of, wire_kind};
ghost use Rattle.world_wire.specs.Nexts.{are_among as are_servers_among, is_next_of, is_open, serves as serves_between};

use gr_ids::{Inc, Memory};
use group_rules::WireLine;
use message_sizes::message_size;
use paxos_forms::{Message, Wire};
use std::alloc::Global;
use std::marker::Model;

/// A message that was sent, with the number of its bytes, and whether it was delivered and is lost.
#[derive(Debug, Drop)]
pub struct Letter {
    message: Message,
    size: u64,
    delivered: bool,
    lost: bool,
}

impl Model for Letter {
    ghost use Rattle.group_rules.specs.Script.{Letter as Sent};

    ghost Value = { Sent };

    ghost view = { λ x. record { message = x.message; size = x.size; delivered = x.delivered; lost = x.lost } };
}

impl Letter {
    /// The message as it is sent. Linear in its lists.
    pub(crate) fn new(alloc: Global, message: Message) -> Result<Letter, Memory>
        ensures { IfOk result (λ x. x ≡ letter_of message) }
    {
        let size = message_size(alloc, &message)?;
        Ok(Letter {
            message,
            size,
            delivered: false,
            lost: false,
        })
    }

    pub fn message(&self) -> &Message
        ensures { result.now ≡ self.now.message }
    {
        &self.message
    }

    /// The number of bytes of the spelling of the message.
    pub fn size(&self) -> u64
        ensures { result ≡ self.now.size }
    {
        self.size
    }

    pub fn is_delivered(&self) -> bool
        ensures { result ≡ self.now.delivered }
    {
        self.delivered
    }

    pub fn is_lost(&self) -> bool
        ensures { result ≡ self.now.lost }
    {
        self.lost
    }

    pub(crate) fn deliver(&mut self)
        ensures { self.new ≡ record self.old { delivered = true } }
    {
        self.delivered = true;
    }

    pub(crate) fn lose(&mut self)
        ensures { self.new ≡ record self.old { lost = true } }
    {
        self.lost = true;
    }

    /// The server that sent it.
    pub(crate) fn from(&self) -> u8
        ensures { result ≡ self.now.message.from.server }
    {
        self.message.from.server
    }

    /// The incarnation that it is sent to.
    pub(crate) fn to(&self) -> Inc
        ensures { result ≡ self.now.message.to }
    {
        self.message.to
    }

    /// Neither delivered nor lost.
    pub(crate) fn is_open(&self) -> bool
        ensures { result ≡ is_open self.now }
    {
        !self.delivered && !self.lost
    }

    /// Open, and between these servers, to one of the incarnations that run.
    pub(crate) fn is_next(&self, among: &[u8], running: &[Inc]) -> bool
        ensures { result ≡ is_next_of among.now running.now self.now }
    {
        self.is_open() && serves(among, running, self.from(), self.to())
    }

    pub(crate) fn line(&self, number: u64) -> WireLine
        ensures { result ≡ record { number = number; from = self.now.message.from; to = self.now.message.to; kind = wire_kind self.now.message.wire } }
    {
        WireLine {
            number,
            from: self.message.from,
            to: self.message.to,
            kind: kind(&self.message.wire),
        }
    }
}

/// Whether letters from this server to this incarnation are taken: both servers are among these, and the incarnation runs.
pub(crate) fn serves(among: &[u8], running: &[Inc], from: u8, to: Inc) -> bool
    ensures { result ≡ serves_between among.now running.now from to }
{
    are_among(among, from, to.server) && running.contains(&to)
}

fn are_among(among: &[u8], from: u8, to: u8) -> bool
    ensures { result ≡ are_servers_among among.now from to }
{
    if among.is_empty() {
        return true;
    }
    among.contains(&from) && among.contains(&to)
}

fn kind(wire: &Wire) -> u8
    ensures { result ≡ wire_kind wire.now }
{
    match wire {
        Wire::Prepare(_, _) => 1,
        Wire::Promise(_, _, _) => 2,
        Wire::Accept(_, _, _) => 3,
        Wire::Accepted(_, _) => 4,
        Wire::Learn(_, _) => 5,
        Wire::Offer(_) => 6,
        Wire::Welcome(_) => 7,
        Wire::Ask(_) => 8,
        Wire::Give(_) => 9,
        Wire::Alive(_) => 10,
        Wire::Gone => 11,
    }
}
