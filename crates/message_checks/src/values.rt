// Values and votes within their ranges.
ghost use Rattle.std.specs.Prelude.{◌≡◌, ◌≤◌, ◌↔◌, IsTrue, length, option_copied};
ghost use Rattle.std.specs.List.{AllByRecursion};
ghost use Rattle.name_forms.specs.Ids.{last_u64};
ghost use Rattle.slot_values.specs.Joiners.{IsJoiner, IsJoinerAfter};
ghost use Rattle.slot_values.specs.Slots.{IsSlot};
ghost use Rattle.slot_values.specs.Spelling.{IsValue, IsVoteAfter, IsWhat, last_u32, least_slot as least_slot_of};
ghost use Rattle.paxos_forms.specs.Messages.{IsNextSlot};

use crate::chains::{Rule, are_few};
use crate::names::{is_ballot, is_id, is_inc, is_inc_after};
use gr_ids::Inc;
use slot_values::{Joiner, Value, Vote, What};

/// The greatest slot: 2^42.
pub(crate) const LAST_SLOT: u64 = 1 << 42;

pub(crate) fn is_joiner_after(before: Option<Inc>, joiner: &Joiner) -> bool
    ensures { IsTrue result ↔ IsJoinerAfter before joiner.now }
{
    let version = joiner.version;
    are_numbers(&version);
    is_inc_after(before, joiner.inc) && joiner.weight <= 100
}

// What a clause can't say of a list: that its numbers are below 2^64. This walk reads nothing, and compiles to nothing.
#[inline]
fn are_numbers(numbers: &[u64])
    ensures { AllByRecursion (λ n. n ≤ last_u64) numbers.now }
{
    let mut left = numbers;
    while let Some((first, behind)) = left.split_first() {
        let _number = *first;
        left = behind;
    }
}

/// Whether the incarnation is in its range, and the weight at most 100.
pub fn is_joiner(joiner: &Joiner) -> bool
    ensures { IsTrue result ↔ IsJoiner joiner.now }
{
    is_joiner_after(None, joiner)
}

fn is_what(number: u64, what: &What) -> bool
    ensures { IsTrue result ↔ IsWhat number what.now }
{
    match what {
        What::Noop => number == 0,
        What::Add(joiner) => is_joiner(joiner),
        What::Remove(inc) => is_inc(*inc),
        What::Body(bytes) => is_body(bytes.as_slice()),
    }
}

fn is_body(bytes: &[u8]) -> bool
    ensures { IsTrue result ↔ ((1 ≤ length bytes.now) × (length bytes.now ≤ last_u32)) }
{
    1 <= bytes.len() && are_few(bytes)
}

/// Whether the origin is in its range, a Noop has the number 0, and a body is 1 to 2^32-1 bytes.
pub fn is_value(value: &Value) -> bool
    ensures { IsTrue result ↔ IsValue value.now }
{
    is_id(value.id) && is_what(value.id.number, &value.what)
}

pub(crate) fn is_slot(slot: u64) -> bool
    ensures { IsTrue result ↔ IsSlot slot }
{
    1 <= slot && slot <= LAST_SLOT
}

/// A slot up to which all are decided may be the last one.
pub(crate) fn is_next_slot(slot: u64) -> bool
    ensures { IsTrue result ↔ IsNextSlot slot }
{
    1 <= slot && slot <= LAST_SLOT + 1
}

/// Votes, each slot above the one before it.
pub(crate) struct Votes;

impl Rule for Votes {
    type Element = Vote;

    ghost IsNext = { λ rule before vote. IsVoteAfter before vote };

    fn is_next(&self, before: Option<&Vote>, vote: &Vote) -> bool {
        is_vote_after(before, vote)
    }
}

fn is_vote_after(before: Option<&Vote>, vote: &Vote) -> bool
    ensures { IsTrue result ↔ IsVoteAfter (option_copied before.entry) vote.now }
{
    is_above(before, vote.slot)
        && vote.slot <= LAST_SLOT
        && is_ballot(vote.ballot)
        && is_value(&vote.value)
}

fn is_above(before: Option<&Vote>, slot: u64) -> bool
    ensures { IsTrue result ↔ (least_slot_of (option_copied before.entry) ≤ slot) }
{
    match before {
        None => 1 <= slot,
        Some(last) => last.slot < slot,
    }
}
