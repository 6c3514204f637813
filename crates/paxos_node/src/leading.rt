// What a node's leader does, where the node leads.
ghost use Rattle.std.specs.Prelude.{◌≡◌, ◌&&◌, not, is_some, fold, option_map, IfOk, OnOk};
ghost use Rattle.gr_ids.specs.declared.memory.Memory.{Memory};
ghost use Rattle.node_rules.specs.Leader.{forget_proposals, keep_promise, take_offer};
ghost use Rattle.node_rules.specs.Learner.{is_decided};
ghost use Rattle.node_rules.specs.Voting.{still_leads};
ghost use Rattle.slot_values.specs.Log.{last_of};
ghost use Rattle.paxos_node.specs.Leading.{choice_in, choosing, counting, leads_at, offering, own_vote, settling};
ghost use Rattle.paxos_node.specs.Parts.{AllKept, KnowsLog, log_of};

use gr_ids::{Ballot, Inc, Memory, Sequence};
use paxos_leader::Leader;
use paxos_votes::Learner;
use slot_values::{Turns, Value, Vote};
use std::alloc::Global;

/// Whether the node leads at the ballot. Takes constant time.
pub(crate) fn leads_at(leader: &Option<Leader>, ballot: Ballot) -> bool
    ensures { result ≡ leads_at ballot leader.now }
{
    match leader {
        Some(leader) => leader.ballot() == ballot,
        None => false,
    }
}

/// A node that meets a ballot above its own leading ballot stops leading. Takes constant time.
pub(crate) fn stop_below(leader: &mut Option<Leader>, ballot: Ballot)
    ensures { leader.new ≡ still_leads ballot leader.old }
{
    if leads_below(leader, ballot) {
        *leader = None;
    }
}

fn leads_below(leader: &Option<Leader>, ballot: Ballot) -> bool
    ensures { result ≡ (not (is_some (still_leads ballot leader.now)) && is_some leader.now) }
{
    match leader {
        Some(leader) => leader.ballot() < ballot,
        None => false,
    }
}

/// A promise is kept, once for each sender. Linear in the promises.
pub(crate) fn keep_promise(
    leader: &mut Option<Leader>,
    inc: Inc,
    votes: Sequence<Vote>,
) -> Result<(), Memory>
    ensures { OnOk result (leader.new ≡ option_map (λ l. keep_promise l inc votes) leader.old) }
{
    match leader {
        Some(leader) => leader.promise(inc, votes),
        None => Ok(()),
    }
}

/// The slot of the next proposal, which is put among the leader's. The cost is that of `Leader::propose`.
pub(crate) fn choose(
    alloc: Global,
    leader: &mut Option<Leader>,
    learner: &Learner,
    turns: &Option<Turns>,
    horizon: u16,
) -> Result<Option<u64>, Memory>
    requires kept { AllKept turns.now }
    requires log { KnowsLog leader.old turns.now }
    ensures slot { IfOk result (λ slot. slot ≡ option_map (λ c. c.slot) (choice_in learner.now (log_of turns.now) horizon leader.old)) }
    ensures ok { OnOk result (leader.new ≡ choosing learner.now (log_of turns.now) horizon leader.old) }
    ensures knows { KnowsLog leader.new turns.now }
{
    match (leader, turns) {
        (Some(leader), Some(turns)) => leader.propose(alloc, learner, turns, horizon),
        _ => Ok(None),
    }
}

/// The vote of the leader's own for what it proposed in a slot. Logarithmic in the proposals, and linear in the value's bytes.
pub(crate) fn own_vote(
    alloc: Global,
    leader: &Option<Leader>,
    slot: u64,
) -> Result<Option<Vote>, Memory>
    ensures { IfOk result (λ vote. vote ≡ own_vote slot leader.now) }
{
    let Some(leader) = leader else {
        return Ok(None);
    };
    let Some(value) = leader.proposal(slot) else {
        return Ok(None);
    };
    Ok(Some(Vote {
        slot,
        ballot: leader.ballot(),
        value: value.try_copy(alloc)?,
    }))
}

/// The sender accepted the slot; true exactly where that decides it. Logarithmic in the proposals kept.
pub(crate) fn count(
    leader: &mut Option<Leader>,
    learner: &Learner,
    turns: &Option<Turns>,
    from: Inc,
    slot: u64,
) -> Result<bool, Memory>
    requires kept { AllKept turns.now }
    requires log { KnowsLog leader.old turns.now }
    ensures answer { IfOk result (λ decides. decides ≡ settling learner.now (log_of turns.now) from slot leader.old) }
    ensures ok { OnOk result (leader.new ≡ counting learner.now from slot leader.old) }
{
    match (leader, turns) {
        (Some(leader), Some(turns)) => leader.accepted(from, slot, learner, turns),
        _ => Ok(false),
    }
}

/// The values are offered to the leader; false exactly where the node doesn't lead. Linear in the proposals kept and in its
/// bytes for each value.
pub(crate) fn offer(
    alloc: Global,
    leader: &mut Option<Leader>,
    learner: &Learner,
    turns: &Option<Turns>,
    values: &[Value],
) -> Result<bool, Memory>
    requires { KnowsLog leader.old turns.now }
    ensures answer { IfOk result (λ leads. leads ≡ is_some leader.old) }
    ensures ok { OnOk result (leader.new ≡ offering learner.now (log_of turns.now) values.now leader.old) }
    ensures knows { KnowsLog leader.new turns.now }
{
    let Some(turns) = turns else {
        return Ok(false);
    };
    let Some(leader) = leader else {
        return Ok(false);
    };
    offer_each(alloc, leader, learner, turns, values)?;
    Ok(true)
}

fn offer_each(
    alloc: Global,
    leader: &mut Leader,
    learner: &Learner,
    turns: &Turns,
    values: &[Value],
) -> Result<(), Memory>
    ensures { OnOk result (leader.new ≡ fold (take_offer (is_decided learner.now) (last_of turns.now.turns.reading)) leader.old values.now) }
{
    for value in values {
        leader.offer(value.try_copy(alloc)?, learner, turns)?;
    }
    Ok(())
}

/// Forgets the proposals of slots below `below`. Logarithmic in the proposals kept for each one; takes no memory.
pub(crate) fn forget_below(leader: &mut Option<Leader>, below: u64)
    ensures { leader.new ≡ option_map (forget_proposals below) leader.old }
{
    if let Some(leader) = leader {
        leader.forget(below);
    }
}
