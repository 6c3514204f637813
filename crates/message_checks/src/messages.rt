// Messages within their ranges.
ghost use Rattle.std.specs.Prelude.{◌≡◌, ◌↔◌, IsTrue};
ghost use Rattle.name_forms.specs.Ballots.{IsBallot};
ghost use Rattle.slot_values.specs.Spelling.{IsVoteAfter};
ghost use Rattle.message_checks.specs.Parts.{IsListOf};
ghost use Rattle.paxos_forms.specs.Messages.{IsMessage, IsNextSlot, IsWire};

use crate::chains::is_list;
use crate::gives::{is_ask, is_give};
use crate::names::{is_ballot, is_inc};
use crate::values::{Votes, is_next_slot, is_slot, is_value};
use crate::welcomes::is_welcome;
use gr_ids::{Ballot, Sequence};
use paxos_forms::{Message, Wire};
use slot_values::Vote;

/// Whether the message is within the ranges of its form, which is what its spelling asks. Linear in its lists.
pub fn is_message(message: &Message) -> bool
    ensures { IsTrue result ↔ IsMessage message.now }
{
    is_inc(message.from) && is_inc(message.to) && is_wire(&message.wire)
}

#[tactic(auto, unfolding(crate::specs::Parts::IsListOf))]
fn is_wire(wire: &Wire) -> bool
    ensures { IsTrue result ↔ IsWire wire.now }
{
    match wire {
        Wire::Prepare(ballot, slot) => is_from(*ballot, *slot),
        Wire::Promise(ballot, slot, votes) => is_promise(*ballot, *slot, votes),
        Wire::Accept(ballot, slot, value) => {
            is_ballot(*ballot) && is_slot(*slot) && is_value(value)
        }
        Wire::Accepted(ballot, slot) => is_ballot(*ballot) && is_slot(*slot),
        Wire::Learn(slot, value) => is_slot(*slot) && is_value(value),
        Wire::Offer(value) => is_value(value),
        Wire::Welcome(welcome) => is_welcome(welcome),
        Wire::Ask(ask) => is_ask(ask),
        Wire::Give(give) => is_give(give),
        Wire::Alive(next) => is_next_slot(*next),
        Wire::Gone => true,
    }
}

fn is_from(ballot: Ballot, slot: u64) -> bool
    ensures { IsTrue result ↔ (IsBallot ballot × IsNextSlot slot) }
{
    is_ballot(ballot) && is_next_slot(slot)
}

fn is_promise(ballot: Ballot, slot: u64, votes: &Sequence<Vote>) -> bool
    ensures { IsTrue result ↔ (IsBallot ballot × IsNextSlot slot × IsListOf IsVoteAfter votes.now) }
{
    is_from(ballot, slot) && are_votes(votes)
}

fn are_votes(votes: &Sequence<Vote>) -> bool
    ensures { IsTrue result ↔ IsListOf IsVoteAfter votes.now }
{
    is_list(&Votes, votes)
}
