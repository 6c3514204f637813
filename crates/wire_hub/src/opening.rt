// A hub is made: the mailboxes, then the passes of the senders, one after the other.
ghost use Rattle.std.specs.Prelude.{◌≡◌, true, false, [], map, IfOk, OnOk};
ghost use Rattle.std.specs.List.{All};
ghost use Rattle.gr_ids.specs.Names.{has_inc};
ghost use Rattle.wire_hub.specs.Posts.{taker, making, newcomer};
ghost use Rattle.wire_hub.specs.Passes.{are_members, IsSendPassOf, IsTakePassOf, queue_of, send_name, take_owner, sent_to, got, told};
ghost use Rattle.wire_hub.specs.Opening.{AreInOrder, box_queue, take_queue, take_tie, take_view, port_view, IsNew};

use crate::passes::{Hub, Mailbox, SendPass, TakePass};
use gr_ids::{Inc, Memory};
use std::alloc::Global;

// A mailbox for each member, and the pass of its taker.
fn open_all(alloc: Global, members: &[Inc]) -> Result<(Vec<Mailbox>, Vec<TakePass>), Memory>
    ensures queues { IfOk result (λ r. map take_queue r.1.items ≡ map box_queue r.0.items) }
    ensures takes { IfOk result (λ r. (map take_view r.1.items ≡ map (λ m. taker m [] [] []) members.now) × AreInOrder r.1.items) }
{
    let mut boxes = Vec::new(alloc);
    let mut takes = Vec::new(alloc);
    for (at, owner) in members.iter().enumerate() {
        let (mailbox, take) = Mailbox::open(alloc, *owner, at)?;
        boxes.push(mailbox)?;
        takes.push(take)?;
    }
    Ok((boxes, takes))
}

// The pass of a sender, with a port for each mailbox.
fn send_pass(
    alloc: Global,
    boxes: &Vec<Mailbox>,
    takes: &mut Vec<TakePass>,
    name: Inc,
) -> Result<SendPass, Memory>
    requires queues { map take_queue takes.old.items ≡ map box_queue boxes.now.items }
    requires new { All (λ v. has_inc v.senders name ≡ false) (map take_view takes.old.items) }
    ensures takes { OnOk result ((map take_tie takes.new.items ≡ map take_tie takes.old.items) × (map take_view takes.new.items ≡ map (making name) (map take_view takes.old.items))) }
    ensures pass { IfOk result (λ p. (p.name ≡ name) × (p.last ≡ 0) × (map queue_of p.ports.items ≡ map box_queue boxes.now.items) × (map port_view p.ports.items ≡ map (newcomer name) (map take_view takes.old.items))) }
{
    let mut ports = Vec::new(alloc);
    for place in 0..boxes.len() {
        ports.push(boxes[place].port(&mut takes[place], name))?;
    }
    Ok(SendPass {
        name,
        last: 0,
        ports,
    })
}

// The passes of the senders, who are the members.
fn send_passes(
    alloc: Global,
    boxes: &Vec<Mailbox>,
    takes: &mut Vec<TakePass>,
    members: &[Inc],
) -> Result<Vec<SendPass>, Memory>
    requires members { are_members members.now ≡ true }
    requires queues { map take_queue takes.old.items ≡ map box_queue boxes.now.items }
    requires new { map take_view takes.old.items ≡ map (λ m. taker m [] [] []) members.now }
    ensures takes { OnOk result ((map take_tie takes.new.items ≡ map take_tie takes.old.items) × (map take_view takes.new.items ≡ map (λ m. taker m members.now [] []) members.now)) }
    ensures names { IfOk result (λ sends. map send_name sends.items ≡ members.now) }
    ensures sends { IfOk result (λ sends. All (IsNew (map box_queue boxes.now.items) members.now) sends.items) }
{
    let mut sends = Vec::new(alloc);
    for name in members.iter() {
        sends.push(send_pass(alloc, boxes, takes, *name)?)?;
    }
    Ok(sends)
}

impl Hub {
    /// A mailbox for each member, and for each member, in order, the pass with which it sends and the one with which it takes.
    /// The members are incarnations of distinct servers, ascending. Quadratic in the members.
    pub fn new(
        alloc: Global,
        members: &[Inc],
    ) -> Result<(Hub, Vec<SendPass>, Vec<TakePass>), Memory>
        requires { are_members members.now ≡ true }
        ensures members { IfOk result (λ r. r.0.members.items ≡ members.now) }
        ensures sends { IfOk result (λ r. All (IsSendPassOf r.0) r.1.items × (map send_name r.1.items ≡ members.now)) }
        ensures takes { IfOk result (λ r. All (IsTakePassOf r.0) r.2.items × (map take_owner r.2.items ≡ members.now)) }
        ensures unsent { IfOk result (λ r. All (λ s. (s.last ≡ 0) × All (λ letters. letters ≡ []) (sent_to s)) r.1.items) }
        ensures untaken { IfOk result (λ r. All (λ t. (got t ≡ []) × (told t ≡ [])) r.2.items) }
    {
        let (boxes, mut takes) = open_all(alloc, members)?;
        let sends = send_passes(alloc, &boxes, &mut takes, members)?;
        let members = members.to_vec(alloc)?;
        Ok((Hub { members, boxes }, sends, takes))
    }
}
