// What messages say, as bytes.
ghost use Rattle.std.specs.Prelude.{◌≡◌, ◌≤◌, ◌++◌, IfErr, IfOk, OnErr, OnOk};
ghost use Rattle.byte_forms.specs.Cuts.{FaultsAt, Takes};
ghost use Rattle.byte_forms.specs.Packs.{Keeps};
ghost use Rattle.byte_forms.specs.Unreads.{Breaks};
ghost use Rattle.slot_values.specs.Slots.{last_slot};
ghost use Rattle.slot_values.specs.Spelling.{IsWhat, next_vote_after, vote_bytes};
ghost use Rattle.paxos_forms.specs.Messages.{IsHeld, IsWire, next_accept, next_accepted, next_from_slot, next_learn, next_prepare, next_promise, next_slot, next_wire, wire_bytes};

use crate::gives::{put_ask, put_give, take_ask, take_give};
use crate::message::Wire;
use crate::welcomes::{put_welcome, take_welcome};
use byte_forms::{Cutter, ListForm, Misfit, Packer, Unread, put_list, take_list};
use gr_ids::Memory;
use name_forms::{put_ballot, take_ballot};
use slot_values::{Vote, put_value, put_vote, take_value, take_vote_after};
use std::alloc::Global;

// The greatest slot: 2^42.
const LAST_SLOT: u64 = 1 << 42;

/// Votes, each slot above the one before it.
pub(crate) struct Votes;

impl ListForm for Votes {
    type Element = Vote;

    ghost reader = { λ form before. next_vote_after before };

    ghost spelling = { λ form vote. vote_bytes vote };

    ghost CanPrecede = { λ form vote. vote.slot ≤ last_slot };

    ghost CanPut = { λ form vote. IsWhat vote.value.id.number vote.value.what };

    fn take_next(
        &self,
        alloc: Global,
        from: &mut Cutter,
        before: Option<&Vote>,
    ) -> Result<Vote, Unread> {
        take_vote_after(alloc, from, before)
    }

    fn put_next(&self, to: &mut Packer, vote: &Vote) -> Result<(), Memory> {
        put_vote(to, vote)
    }
}

fn take_slot(from: &mut Cutter) -> Result<u64, Misfit>
    ensures ok { IfOk result (λ slot. Takes next_slot from.old slot from.new) }
    ensures misfit { IfErr result (λ e. FaultsAt next_slot from.old e.at) }
{
    from.take_u64_in(1, LAST_SLOT)
}

// A slot up to which all are decided may be the last one.
fn take_from_slot(from: &mut Cutter) -> Result<u64, Misfit>
    ensures ok { IfOk result (λ slot. Takes next_from_slot from.old slot from.new) }
    ensures misfit { IfErr result (λ e. FaultsAt next_from_slot from.old e.at) }
{
    from.take_u64_in(1, LAST_SLOT + 1)
}

#[tactic(auto, unfolding(crate::specs::Messages::next_prepare))]
fn take_prepare(from: &mut Cutter) -> Result<Wire, Misfit>
    ensures ok { IfOk result (λ wire. Takes next_prepare from.old wire from.new) }
    ensures misfit { IfErr result (λ e. FaultsAt next_prepare from.old e.at) }
{
    let ballot = take_ballot(from)?;
    let slot = take_from_slot(from)?;
    Ok(Wire::Prepare(ballot, slot))
}

#[tactic(auto, unfolding(crate::specs::Messages::next_promise))]
fn take_promise(alloc: Global, from: &mut Cutter) -> Result<Wire, Unread>
    ensures ok { IfOk result (λ wire. Takes next_promise from.old wire from.new) }
    ensures misfit { IfErr result (λ e. Breaks next_promise from.old e) }
{
    let ballot = take_ballot(from)?;
    let slot = take_from_slot(from)?;
    let votes = take_list(alloc, from, 0, &Votes)?;
    Ok(Wire::Promise(ballot, slot, votes))
}

#[tactic(auto, unfolding(crate::specs::Messages::next_accept))]
fn take_accept(alloc: Global, from: &mut Cutter) -> Result<Wire, Unread>
    ensures ok { IfOk result (λ wire. Takes next_accept from.old wire from.new) }
    ensures misfit { IfErr result (λ e. Breaks next_accept from.old e) }
{
    let ballot = take_ballot(from)?;
    let slot = take_slot(from)?;
    let value = take_value(alloc, from)?;
    Ok(Wire::Accept(ballot, slot, value))
}

#[tactic(auto, unfolding(crate::specs::Messages::next_accepted))]
fn take_accepted(from: &mut Cutter) -> Result<Wire, Misfit>
    ensures ok { IfOk result (λ wire. Takes next_accepted from.old wire from.new) }
    ensures misfit { IfErr result (λ e. FaultsAt next_accepted from.old e.at) }
{
    let ballot = take_ballot(from)?;
    let slot = take_slot(from)?;
    Ok(Wire::Accepted(ballot, slot))
}

#[tactic(auto, unfolding(crate::specs::Messages::next_learn))]
fn take_learn(alloc: Global, from: &mut Cutter) -> Result<Wire, Unread>
    ensures ok { IfOk result (λ wire. Takes next_learn from.old wire from.new) }
    ensures misfit { IfErr result (λ e. Breaks next_learn from.old e) }
{
    let slot = take_slot(from)?;
    let value = take_value(alloc, from)?;
    Ok(Wire::Learn(slot, value))
}

#[tactic(auto, unfolding(crate::specs::Messages::next_wire))]
pub(crate) fn take_wire(alloc: Global, from: &mut Cutter) -> Result<Wire, Unread>
    ensures ok { IfOk result (λ wire. Takes next_wire from.old wire from.new) }
    ensures misfit { IfErr result (λ e. Breaks next_wire from.old e) }
{
    match from.take_u8_in(1, 11)? {
        1 => Ok(take_prepare(from)?),
        2 => Ok(take_promise(alloc, from)?),
        3 => Ok(take_accept(alloc, from)?),
        4 => Ok(take_accepted(from)?),
        5 => Ok(take_learn(alloc, from)?),
        6 => Ok(Wire::Offer(take_value(alloc, from)?)),
        7 => Ok(Wire::Welcome(take_welcome(alloc, from)?)),
        8 => Ok(Wire::Ask(take_ask(alloc, from)?)),
        9 => Ok(Wire::Give(take_give(alloc, from)?)),
        10 => Ok(Wire::Alive(take_from_slot(from)?)),
        _ => Ok(Wire::Gone),
    }
}

#[tactic(auto, using(byte_forms::proofs::PackLemmas::keeps_trans, crate::proofs::Listed::votes_fit))]
pub(crate) fn put_wire(to: &mut Packer, wire: &Wire) -> Result<(), Memory>
    requires { IsWire wire.now }
    ensures ok { OnOk result (to.new ≡ to.old ++ wire_bytes wire.now) }
    ensures held { OnOk result (IsHeld wire.now) }
    ensures err { OnErr result (Keeps to.old to.new) }
{
    match wire {
        Wire::Prepare(ballot, slot) => {
            to.put_u8(1)?;
            put_ballot(to, *ballot)?;
            to.put_u64(*slot)
        }
        Wire::Promise(ballot, slot, votes) => {
            to.put_u8(2)?;
            put_ballot(to, *ballot)?;
            to.put_u64(*slot)?;
            put_list(to, votes.as_slice(), &Votes)
        }
        Wire::Accept(ballot, slot, value) => {
            to.put_u8(3)?;
            put_ballot(to, *ballot)?;
            to.put_u64(*slot)?;
            put_value(to, value)
        }
        Wire::Accepted(ballot, slot) => {
            to.put_u8(4)?;
            put_ballot(to, *ballot)?;
            to.put_u64(*slot)
        }
        Wire::Learn(slot, value) => {
            to.put_u8(5)?;
            to.put_u64(*slot)?;
            put_value(to, value)
        }
        Wire::Offer(value) => {
            to.put_u8(6)?;
            put_value(to, value)
        }
        Wire::Welcome(welcome) => {
            to.put_u8(7)?;
            put_welcome(to, welcome)
        }
        Wire::Ask(ask) => {
            to.put_u8(8)?;
            put_ask(to, ask)
        }
        Wire::Give(give) => {
            to.put_u8(9)?;
            put_give(to, give)
        }
        Wire::Alive(next) => {
            to.put_u8(10)?;
            to.put_u64(*next)
        }
        Wire::Gone => to.put_u8(11),
    }
}
