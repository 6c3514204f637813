// The transactions and open parts of a Give, element by element.
ghost use Rattle.std.specs.Prelude.{◌≡◌, ◌≤◌, ◌*◌, ◌↔◌, IsTrue, length, option_copied};
ghost use Rattle.name_forms.specs.OpenParts.{IsOpenAfter, inc_of_parts as inc_of_parts_of, part_size};
ghost use Rattle.message_checks.specs.Parts.{IsListOf};
ghost use Rattle.paxos_forms.specs.Gives.{IsGivenAfter, place_above};

use crate::chains::{Rule, are_few, is_list};
use crate::names::{is_gtid, is_inc, is_inc_after};
use gr_ids::{Inc, OpenParts, Sequence};
use paxos_forms::Given;

/// The bytes that a part carries that isn't the last one.
const PART_SIZE: usize = 65_523;

/// The greatest number of parts of a transaction.
const MOST_PARTS: u32 = 257;

// Transactions, each place above the one before it and at most the place.
#[derive(Drop)]
struct Txns {
    place: u64,
}

impl Rule for Txns {
    type Element = Given;

    ghost IsNext = { λ rule before given. IsGivenAfter rule.place before given };

    fn is_next(&self, before: Option<&Given>, given: &Given) -> bool {
        is_given_after(self.place, before, given)
    }
}

/// Whether their places ascend, and are at most the place.
pub(crate) fn are_txns(place: u64, txns: &Sequence<Given>) -> bool
    ensures { IsTrue result ↔ IsListOf (IsGivenAfter place) txns.now }
{
    is_list(&Txns { place }, txns)
}

fn is_given_after(place: u64, before: Option<&Given>, given: &Given) -> bool
    ensures { IsTrue result ↔ IsGivenAfter place (option_copied before.entry) given.now }
{
    is_place_after(before, given.place.0)
        && given.place.0 <= place
        && is_inc(given.origin)
        && is_gtid(given.gtid)
        && are_few(given.body.as_slice())
}

fn is_place_after(before: Option<&Given>, place: u64) -> bool
    ensures { IsTrue result ↔ (place_above (option_copied before.entry) ≤ place) }
{
    match before {
        None => 1 <= place,
        Some(last) => last.place.0 < place,
    }
}

/// Open parts, each origin above the one before it.
pub(crate) struct Open;

impl Rule for Open {
    type Element = OpenParts;

    ghost IsNext = { λ rule before parts. IsOpenAfter before parts };

    fn is_next(&self, before: Option<&OpenParts>, parts: &OpenParts) -> bool {
        is_open_after(before, parts)
    }
}

fn is_open_after(before: Option<&OpenParts>, parts: &OpenParts) -> bool
    ensures { IsTrue result ↔ IsOpenAfter (option_copied before.entry) parts.now }
{
    is_inc_after(inc_of_parts(before), parts.origin)
        && 1 <= parts.held
        && parts.held < parts.count
        && parts.count <= MOST_PARTS
        && has_bytes(parts)
}

fn has_bytes(parts: &OpenParts) -> bool
    ensures { IsTrue result ↔ (length parts.now.bytes ≡ part_size * parts.now.held) }
{
    parts.bytes.len() == PART_SIZE * parts.held as usize
}

fn inc_of_parts(before: Option<&OpenParts>) -> Option<Inc>
    ensures { result ≡ inc_of_parts_of (option_copied before.entry) }
{
    match before {
        None => None,
        Some(parts) => Some(parts.origin),
    }
}
