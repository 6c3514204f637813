// The mailboxes and their passes. What is done with them stands in `mailbox`, `hub`, `opening` and `closing`.
ghost use Rattle.std.specs.Prelude.{◌≡◌, ◌≤◌, true, None, length};
ghost use Rattle.std.specs.List.{All};
ghost use Rattle.gr_ids.specs.declared.names.Inc.{Inc};
ghost use Rattle.gr_ids.specs.Names.{has_inc};
ghost use Rattle.wire_hub.specs.declared.view.Role.TheVariants.{Taker, Sender};
ghost use Rattle.wire_hub.specs.Letters.{of, rises, last_index};

use crate::letter::Letter;
use crate::plays::Posts;
use crate::view::View;
use crossbeam_queue::{RuledSegQueue, SegPass};
use gr_ids::Inc;

/// The queue of a mailbox.
pub type Line = RuledSegQueue<Letter, View, Posts>;

/// What a caller knows of one mailbox. It has no bytes.
pub type Seat = SegPass<Letter, View>;

/// A mailbox.
pub struct Mailbox {
    pub(crate) line: Line,
}

impl Drop for Mailbox {
    fn drop(self) {
        let Mailbox { line } = self;
        line.destroy();
    }
}

/// A sender's pass to one mailbox.
#[derive(Drop)]
pub struct Port {
    pub(crate) seat: Seat,
    ghost sends: { (seat.me.view.client.role ≡ Sender) × (seat.me.hand ≡ None) × (seat.me.spare ≡ None) },
}

/// What a member knows of its sending: what it sent to each member, and the index of the last letter. Members send with it one
/// letter at a time; a thread that has it may go on where another stopped.
#[derive(Drop)]
pub struct SendPass {
    pub(crate) name: Inc,
    pub(crate) last: u64,
    pub(crate) ports: Vec<Port>,
    ghost own: { All (λ p. (p.seat.me.view.client.name ≡ name) × (last_index 0 p.seat.me.view.client.letters ≤ last)) ports.items },
}

/// What a member knows of its mailbox: what it took. The indices of each sender's letters rise, so no letter comes twice.
#[derive(Drop)]
pub struct TakePass {
    pub(crate) at: usize,
    pub(crate) seat: Seat,
    ghost takes: { (seat.me.view.client.role ≡ Taker) × (seat.me.hand ≡ None) × (seat.me.spare ≡ None) },
    ghost known: { All (λ x. has_inc seat.me.view.client.senders x.from ≡ true) seat.me.view.client.letters },
    ghost rising: { (p : Inc) → rises 0 (of p seat.me.view.client.letters) ≡ true },
}

/// One mailbox for each member of a group, in the order of the members.
#[derive(Drop)]
pub struct Hub {
    pub(crate) members: Vec<Inc>,
    pub(crate) boxes: Vec<Mailbox>,
    ghost one_each: { length boxes.items ≡ length members.items },
}
