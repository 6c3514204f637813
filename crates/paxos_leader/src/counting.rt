// What is looked up among offers and proposals.
ghost use Rattle.std.specs.Prelude.{◌≡◌, ◌&&◌, not, map, unwrap_or, [], Some};
ghost use Rattle.std.specs.List.{list_any};
ghost use Rattle.gr_ids.specs.Names.{has_inc, id_eq};
ghost use Rattle.slot_values.specs.Log.{majority};
ghost use Rattle.node_rules.specs.Known.{config_here};
ghost use Rattle.node_rules.specs.Leader.{has_id};
ghost use Rattle.node_rules.specs.Learner.{is_decided};
ghost use Rattle.paxos_leader.specs.Parts.{offer_of, proposal_of, standing};

use crate::incs::has_inc;
use crate::leader::Proposed;
use gr_ids::{Inc, ValueId};
use indexmap::IndexMap;
use paxos_votes::Learner;
use slot_values::{Turns, What};
use std::collections::BTreeMap;

/// Whether an offer has this identity. Constant time is expected.
pub(crate) fn has_offer(offers: &IndexMap<ValueId, What>, id: ValueId) -> bool
    ensures { result ≡ has_id (map offer_of offers.now.entries) id }
{
    offers.contains_key(&id)
}

/// Whether the identity is that of a proposal in an undecided slot. Linear in the proposals.
pub(crate) fn is_proposed(
    proposals: &BTreeMap<u64, Proposed>,
    learner: &Learner,
    id: ValueId,
) -> bool
    ensures { result ≡ list_any (λ p. id_eq p.value.id id && not (is_decided learner.now p.slot)) (map proposal_of proposals.now.entries) }
{
    for (slot, proposed) in proposals {
        if is_open_with(learner, *slot, proposed, id) {
            return true;
        }
    }
    false
}

fn is_open_with(learner: &Learner, slot: u64, proposed: &Proposed, id: ValueId) -> bool
    ensures { result ≡ (id_eq proposed.now.value.id id && not (is_decided learner.now slot)) }
{
    proposed.value.id == id && !learner.is_decided(slot)
}

/// Whether these are a majority of the slot's configuration. Linear in the configuration times these.
pub(crate) fn has_majority(accepted: &[Inc], turns: &Turns, slot: u64) -> bool
    ensures { result ≡ majority (config_here (Some (standing turns.now)) slot) (has_inc accepted.now) }
{
    match turns.config(slot) {
        Some(config) => is_accepted(accepted, config),
        None => false,
    }
}

fn is_accepted(accepted: &[Inc], config: &[Inc]) -> bool
    ensures { result ≡ majority config.now (has_inc accepted.now) }
{
    let count = config.iter().filter(|inc| has_inc(accepted, **inc)).count();
    count > config.len() / 2
}
