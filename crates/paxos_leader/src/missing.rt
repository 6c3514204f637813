// Those who haven't answered a leader.
ghost use Rattle.std.specs.Prelude.{◌≡◌, ◌++◌, ◌∷◌, [], not, filter, map, Some, IfOk, OnOk};
ghost use Rattle.gr_ids.specs.Names.{has_inc};
ghost use Rattle.gr_ids.specs.declared.memory.Memory.{Memory};
ghost use Rattle.node_rules.specs.Known.{config_here};
ghost use Rattle.node_rules.specs.Leader.{has_promise, not_promised, unpromised};
ghost use Rattle.node_rules.specs.Lists.{union};
ghost use Rattle.paxos_leader.specs.Missing.{missing, absent};
ghost use Rattle.paxos_leader.specs.Parts.{proposal_of, promised_of, standing};

use crate::incs::{has_inc, put_incs};
use crate::leader::{Leader, Proposed};
use crate::promise::{Promise, has_promise, is_promised};
use gr_ids::{Inc, Memory, Sequence};
use paxos_votes::Learner;
use slot_values::{Turns, Value};
use std::alloc::Global;
use std::collections::BTreeMap;

/// An undecided proposal, and those of the slot's configuration who haven't accepted it.
#[derive(Debug, Drop)]
pub struct Unaccepted {
    pub slot: u64,
    pub value: Value,
    pub incs: Sequence<Inc>,
}

impl Leader {
    /// Those who haven't promised the ballot and stand in a configuration of which no majority has, of the slots that the
    /// horizon allows; ascending. Linear in the horizon times the members times the promises.
    pub fn unpromised(
        &self,
        alloc: Global,
        learner: &Learner,
        turns: &Turns,
        horizon: u16,
    ) -> Result<Vec<Inc>, Memory>
        ensures { IfOk result (λ incs. incs.items ≡ unpromised (Some (standing turns.now)) self.now horizon learner.now.next) }
    {
        let next = learner.least_undecided();
        let mut incs = Vec::new(alloc);
        for passed in 0..horizon {
            let slot = next + (horizon - 1 - passed) as u64;
            let wanted = self.wanted(alloc, config_or_none(turns, slot))?;
            put_incs(&mut incs, &wanted)?;
        }
        Ok(incs)
    }

    // Those of the configuration who haven't promised, where no majority has.
    fn wanted(&self, alloc: Global, config: &[Inc]) -> Result<Vec<Inc>, Memory>
        ensures { IfOk result (λ incs. incs.items ≡ not_promised self.now.promises config.now) }
    {
        if is_promised(&self.promises, config) {
            return Ok(Vec::new(alloc));
        }
        Ok(without_promise(alloc, &self.promises, config)?)
    }

    /// The undecided proposals, ascending by slot, with those who haven't accepted. Linear in the proposals kept, their
    /// configurations and the bytes of their values.
    pub fn unaccepted(
        &self,
        alloc: Global,
        learner: &Learner,
        turns: &Turns,
    ) -> Result<Vec<Unaccepted>, Memory>
        ensures { IfOk result (λ found. found.items ≡ missing learner.now (standing turns.now) self.now.proposals) }
    {
        Ok(missing_in(alloc, &self.proposals, learner, turns)?)
    }
}

// A configuration that isn't known counts as empty.
fn config_or_none(turns: &Turns, slot: u64) -> &[Inc]
    ensures { result.now ≡ config_here (Some (standing turns.now)) slot }
{
    match turns.config(slot) {
        Some(config) => config,
        None => &[],
    }
}

fn without_promise(alloc: Global, promises: &[Promise], config: &[Inc]) -> Result<Vec<Inc>, Memory>
    ensures { IfOk result (λ incs. incs.items ≡ filter (λ i. not (has_promise (map promised_of promises.now) i)) config.now) }
{
    let mut incs = Vec::new(alloc);
    for inc in config {
        if !has_promise(promises, *inc) {
            incs.push(*inc)?;
        }
    }
    Ok(incs)
}

fn without(alloc: Global, accepted: &[Inc], config: &[Inc]) -> Result<Vec<Inc>, Memory>
    ensures { IfOk result (λ incs. incs.items ≡ filter (λ i. not (has_inc accepted.now i)) config.now) }
{
    let mut incs = Vec::new(alloc);
    for inc in config {
        if !has_inc(accepted, *inc) {
            incs.push(*inc)?;
        }
    }
    Ok(incs)
}

fn missing_in(
    alloc: Global,
    proposals: &BTreeMap<u64, Proposed>,
    learner: &Learner,
    turns: &Turns,
) -> Result<Vec<Unaccepted>, Memory>
    ensures { IfOk result (λ found. found.items ≡ missing learner.now (standing turns.now) (map proposal_of proposals.now.entries)) }
{
    let mut found = Vec::new(alloc);
    for (slot, proposed) in proposals {
        if !learner.is_decided(*slot) {
            found.push(missing_one(alloc, *slot, proposed, turns)?)?;
        }
    }
    Ok(found)
}

fn missing_one(
    alloc: Global,
    slot: u64,
    proposed: &Proposed,
    turns: &Turns,
) -> Result<Unaccepted, Memory>
    ensures { IfOk result (λ one. one ≡ absent (standing turns.now) (proposal_of (slot, proposed.now))) }
{
    let config = config_or_none(turns, slot);
    Ok(Unaccepted {
        slot,
        value: proposed.value.try_copy(alloc)?,
        incs: Sequence::from_vec(without(alloc, &proposed.accepted, config)?),
    })
}
