use gr_ids::{Ballot, Inc, Memory, Sequence, ValueId};
use paxos_leader::Leader;
use paxos_votes::Learner;
use slot_values::{Turns, Value, Vote, What};
use std::alloc::Global;
use std::process::Abort;
use std::test::Fail;

const A: Inc = Inc {
    server: 1,
    start: 1,
};

const B: Inc = Inc {
    server: 2,
    start: 1,
};

const C: Inc = Inc {
    server: 3,
    start: 1,
};

fn value(origin: Inc, number: u64) -> Value {
    Value {
        id: ValueId { origin, number },
        what: What::Remove(C),
    }
}

// What a leader knows of the order: A, B and C are members, and nothing is decided yet.
#[derive(Drop)]
struct Order {
    learner: Learner,
    turns: Turns,
}

fn undecided(alloc: Global) -> Result<Order, Memory> {
    Ok(Order {
        turns: Turns::new(alloc, &[A, B, C], 10)?,
        learner: Learner::new(alloc, 1),
    })
}

fn offer(
    rt: &impl Abort,
    leader: &mut Leader,
    order: &Order,
    number: u64,
    is_taken: bool,
) -> Result<(), Fail> {
    let answer = leader.offer(value(B, number), &order.learner, &order.turns)?;
    assert_eq!(rt; answer, is_taken);
    Ok(())
}

fn offer_all(rt: &impl Abort, leader: &mut Leader, order: &Order) -> Result<(), Fail> {
    for (number, is_taken) in [(1, true), (1, false), (0, false), (2, true)] {
        offer(rt, leader, order, number, is_taken)?;
    }
    Ok(())
}

fn propose(
    rt: &impl Abort,
    alloc: Global,
    leader: &mut Leader,
    order: &Order,
    slot: Option<u64>,
) -> Result<(), Fail> {
    let proposed = leader.propose(alloc, &order.learner, &order.turns, 10)?;
    assert_eq!(rt; proposed, slot);
    Ok(())
}

fn accept(
    rt: &impl Abort,
    leader: &mut Leader,
    order: &Order,
    by: Inc,
    is_settled: bool,
) -> Result<(), Fail> {
    let answer = leader.accepted(by, 1, &order.learner, &order.turns)?;
    assert_eq!(rt; answer, is_settled);
    Ok(())
}

// Once two of three have accepted, the proposal is settled.
fn accept_all(rt: &impl Abort, leader: &mut Leader, order: &Order) -> Result<(), Fail> {
    for (by, is_settled) in [(A, false), (A, false), (C, true)] {
        accept(rt, leader, order, by, is_settled)?;
    }
    Ok(())
}

fn offer_and_propose(
    rt: &impl Abort,
    alloc: Global,
    leader: &mut Leader,
    order: &Order,
) -> Result<(), Fail> {
    offer_all(rt, leader, order)?;
    propose(rt, alloc, leader, order, Some(1))?;
    offer(rt, leader, order, 1, false)?;
    let missing = leader.unaccepted(alloc, &order.learner, &order.turns)?;
    assert_eq!(rt; missing.len(), 1);
    accept_all(rt, leader, order)
}

fn lead(rt: &impl Abort, alloc: Global, leader: &mut Leader) -> Result<(), Fail> {
    offer_and_propose(rt, alloc, leader, &undecided(alloc)?)?;
    leader.forget(2);
    assert!(rt; leader.proposal(1).is_none());
    Ok(())
}

#[test]
fn the_first_leader_proposes_its_offers_once(rt: HostRuntime) -> Result<(), Fail> {
    let mut leader = Leader::first(rt.alloc(), A);
    lead(&rt, rt.alloc(), &mut leader)
}

// B has promised itself, without a vote.
fn promise_own(
    rt: &impl Abort,
    alloc: Global,
    leader: &mut Leader,
    order: &Order,
) -> Result<(), Fail> {
    leader.promise(B, Sequence::new(alloc))?;
    let wanted = leader.unpromised(alloc, &order.learner, &order.turns, 10)?;
    assert!(rt; wanted.as_slice() == [A, C].as_slice());
    Ok(())
}

// A promises, with its vote for its own first value in slot 2.
fn promise_voted(alloc: Global, leader: &mut Leader) -> Result<(), Memory> {
    let mut votes = Vec::new(alloc);
    votes.push(Vote {
        slot: 2,
        ballot: Ballot { round: 1, inc: A },
        value: value(A, 1),
    })?;
    leader.promise(A, Sequence::from_vec(votes))
}

fn promise_and_propose(
    rt: &impl Abort,
    alloc: Global,
    leader: &mut Leader,
    order: &Order,
) -> Result<(), Fail> {
    promise_own(rt, alloc, leader, order)?;
    propose(rt, alloc, leader, order, None)?;
    promise_voted(alloc, leader)?;
    for slot in [Some(1), Some(2), None] {
        propose(rt, alloc, leader, order, slot)?;
    }
    Ok(())
}

/// The number of the value that is proposed in the slot.
fn proposed(leader: &Leader, slot: u64) -> Option<u64> {
    match leader.proposal(slot) {
        Some(value) => Some(value.id.number),
        None => None,
    }
}

fn campaign(rt: &impl Abort, alloc: Global, leader: &mut Leader) -> Result<(), Fail> {
    promise_and_propose(rt, alloc, leader, &undecided(alloc)?)?;
    assert!(rt; proposed(leader, 1) == Some(0) && proposed(leader, 2) == Some(1));
    Ok(())
}

#[test]
fn a_new_leader_proposes_what_was_voted(rt: HostRuntime) -> Result<(), Fail> {
    let mut leader = Leader::campaign(rt.alloc(), Ballot { round: 2, inc: B });
    campaign(&rt, rt.alloc(), &mut leader)
}
