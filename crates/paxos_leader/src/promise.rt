// Promises that a leader keeps, and the votes that they report.
ghost use Rattle.std.specs.Prelude.{◌≡◌, ◌<◌, nat_lt, option_map, map, count_by};
ghost use Rattle.std.specs.List.{list_any};
ghost use Rattle.gr_ids.specs.Names.{inc_eq};
ghost use Rattle.slot_values.specs.Log.{majority};
ghost use Rattle.node_rules.specs.Leader.{best, better, has_promise, higher, reported_above, vote_at};
ghost use Rattle.paxos_leader.specs.Parts.{promised_of};

use crate::incs::has_inc;
use gr_ids::{Inc, Sequence};
use slot_values::Vote;

/// A promise: who gave it, and the votes that it reports.
#[derive(Debug, Drop)]
pub struct Promise {
    pub inc: Inc,
    pub votes: Sequence<Vote>,
}

/// Whether the incarnation promised. Linear in the promises.
pub(crate) fn has_promise(promises: &[Promise], inc: Inc) -> bool
    ensures { result ≡ has_promise (map promised_of promises.now) inc }
{
    is_one_of_these(promises, inc)
}

fn is_one_of_these(promises: &[Promise], inc: Inc) -> bool
    ensures { result ≡ list_any (λ p. inc_eq p.inc inc) promises.now }
{
    promises.iter().any(|p| p.inc == inc)
}

/// Whether a majority of the configuration promised. Linear in the configuration times the promises.
pub(crate) fn is_promised(promises: &[Promise], config: &[Inc]) -> bool
    ensures { result ≡ majority config.now (has_promise (map promised_of promises.now)) }
{
    let count = config
        .iter()
        .filter(|inc| has_promise(promises, **inc))
        .count();
    count > config.len() / 2
}

/// Whether a vote above the slot is reported. Linear in the votes reported.
pub(crate) fn is_reported_above(promises: &[Promise], slot: u64) -> bool
    ensures { result ≡ reported_above (map promised_of promises.now) slot }
{
    is_above_in_these(promises, slot)
}

fn is_above_in_these(promises: &[Promise], slot: u64) -> bool
    ensures { result ≡ list_any (λ p. list_any (λ x. nat_lt slot x.slot) p.votes) promises.now }
{
    promises.iter().any(|p| has_vote_above(&p.votes, slot))
}

fn has_vote_above(votes: &Sequence<Vote>, slot: u64) -> bool
    ensures { result ≡ list_any (λ x. nat_lt slot x.slot) votes.now }
{
    votes.as_slice().iter().any(|vote| slot < vote.slot)
}

/// The vote at the highest ballot for the slot, of those that promisers in the configuration reported.
/// Linear in the votes reported, and in the configuration times the promises.
pub(crate) fn best_vote<'a>(config: &[Inc], promises: &'a [Promise], slot: u64) -> Option<&'a Vote>
    ensures { option_map (λ x. x.now) result ≡ best config.now (map promised_of promises.now) slot }
{
    let mut found = None;
    for promise in promises {
        if has_inc(config, promise.inc) {
            found = higher(found, vote_for(&promise.votes, slot));
        }
    }
    found
}

// The vote for the slot.
fn vote_for(votes: &Sequence<Vote>, slot: u64) -> Option<&Vote>
    ensures { option_map (λ x. x.now) result ≡ vote_at votes.now slot }
{
    votes.as_slice().iter().find(|vote| vote.slot == slot)
}

// The one at the higher ballot, of two votes that may be there.
fn higher<'a>(found: Option<&'a Vote>, other: Option<&'a Vote>) -> Option<&'a Vote>
    ensures { option_map (λ x. x.now) result ≡ higher (option_map (λ x. x.now) found.entry) (option_map (λ x. x.now) other.entry) }
{
    match (found, other) {
        (Some(x), Some(y)) => Some(if x.ballot < y.ballot { y } else { x }),
        (Some(x), None) => Some(x),
        (None, other) => other,
    }
}
