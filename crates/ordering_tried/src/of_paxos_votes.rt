use gr_ids::{Ballot, Inc, ValueId};
use paxos_votes::{Acceptor, Learner};
use slot_values::{Value, Vote, What};
use std::alloc::Global;
use std::process::Abort;
use std::test::Fail;

const A: Inc = Inc {
    server: 1,
    start: 1,
};

fn ballot(round: u32) -> Ballot {
    Ballot { round, inc: A }
}

fn noop(number: u64) -> Value {
    Value {
        id: ValueId { origin: A, number },
        what: What::Noop,
    }
}

/// An Accept of this round for this slot, whether it is voted, and the round of the promise afterwards.
#[derive(Clone, Copy)]
struct Asked {
    round: u32,
    slot: u64,
    is_voted: bool,
    promise: u32,
}

fn ask(round: u32, slot: u64, is_voted: bool, promise: u32) -> Asked {
    Asked {
        round,
        slot,
        is_voted,
        promise,
    }
}

fn accept(
    rt: &impl Abort,
    alloc: Global,
    acceptor: &mut Acceptor,
    asked: &Asked,
) -> Result<(), Fail> {
    let is_voted = acceptor.accept(alloc, ballot(asked.round), asked.slot, &noop(asked.slot))?;
    assert_eq!(rt; is_voted, asked.is_voted);
    assert_eq!(rt; acceptor.promised().round, asked.promise);
    Ok(())
}

fn accept_all(rt: &impl Abort, alloc: Global, acceptor: &mut Acceptor) -> Result<(), Fail> {
    let all = [
        ask(1, 1, false, 1),
        ask(0, 3, false, 1),
        ask(1, 3, true, 1),
        ask(4, 2, true, 4),
        ask(3, 2, false, 4),
    ];
    for asked in all.iter() {
        accept(rt, alloc, acceptor, asked)?;
    }
    Ok(())
}

/// How many votes the answer to a Prepare has, if it promises.
fn prepare(
    alloc: Global,
    acceptor: &mut Acceptor,
    round: u32,
    from: u64,
) -> Result<Option<usize>, Fail> {
    match acceptor.prepare(alloc, ballot(round), from)? {
        Some(votes) => Ok(Some(votes.as_slice().len())),
        None => Ok(None),
    }
}

// A Prepare below the promise isn't answered; one above it is, by the votes from its slot on.
fn prepare_both(rt: &impl Abort, alloc: Global, acceptor: &mut Acceptor) -> Result<(), Fail> {
    assert!(rt; prepare(alloc, acceptor, 3, 2)?.is_none());
    assert!(rt; prepare(alloc, acceptor, 5, 3)? == Some(1));
    assert_eq!(rt; acceptor.promised().round, 5);
    assert_eq!(rt; acceptor.kept_from(), 2);
    Ok(())
}

fn vote_own(alloc: Global, acceptor: &mut Acceptor) -> Result<(), Fail> {
    let own = Vote {
        slot: 4,
        ballot: ballot(5),
        value: noop(4),
    };
    acceptor.vote(own.try_copy(alloc)?)?;
    acceptor.promise(ballot(6));
    Ok(())
}

fn voted(alloc: Global, acceptor: &Acceptor) -> Result<Vec<u64>, Fail> {
    let votes = acceptor.votes_from(alloc, 2)?;
    let slots = votes.as_slice().iter().map(|vote| vote.slot);
    Ok(slots.collect(alloc)?)
}

fn check_votes(rt: &impl Abort, alloc: Global, acceptor: &Acceptor) -> Result<(), Fail> {
    assert!(rt; voted(alloc, acceptor)?.as_slice() == [2, 3, 4].as_slice());
    assert_eq!(rt; acceptor.kept_votes(), 3);
    Ok(())
}

#[test]
fn an_acceptor_votes_at_or_above_its_promise(rt: HostRuntime) -> Result<(), Fail> {
    let alloc = rt.alloc();
    let mut acceptor = Acceptor::new(alloc, Some(ballot(1)));
    acceptor.forget(2);
    accept_all(&rt, alloc, &mut acceptor)?;
    prepare_both(&rt, alloc, &mut acceptor)?;
    vote_own(alloc, &mut acceptor)?;
    check_votes(&rt, alloc, &acceptor)
}

/// A value that is learnt in this slot, whether that is new, and the least undecided slot afterwards.
#[derive(Clone, Copy)]
struct Learnt {
    slot: u64,
    is_new: bool,
    next: u64,
}

fn decide(slot: u64, is_new: bool, next: u64) -> Learnt {
    Learnt { slot, is_new, next }
}

fn learn(rt: &impl Abort, learner: &mut Learner, learnt: &Learnt) -> Result<(), Fail> {
    assert!(rt; learnt.slot < 1 << 42);
    let is_new = learner.learn(learnt.slot, noop(learnt.slot))?;
    assert_eq!(rt; is_new, learnt.is_new);
    assert_eq!(rt; learner.least_undecided(), learnt.next);
    Ok(())
}

fn learn_all(rt: &impl Abort, learner: &mut Learner) -> Result<(), Fail> {
    let all = [
        decide(4, true, 1),
        decide(1, true, 2),
        decide(4, false, 2),
        decide(2, true, 3),
    ];
    for learnt in all.iter() {
        learn(rt, learner, learnt)?;
    }
    Ok(())
}

fn pass_one(rt: &impl Abort, learner: &mut Learner) {
    assert!(rt; learner.next().is_some() && learner.slot() < learner.least_undecided());
    learner.pass();
}

fn check_decided(rt: &impl Abort, alloc: Global, learner: &Learner) -> Result<(), Fail> {
    assert!(rt; learner.decided(alloc)?.as_slice() == [2, 4].as_slice());
    assert_eq!(rt; learner.known_from(alloc, 1)?.len(), 2);
    Ok(())
}

fn check_slots(rt: &impl Abort, learner: &Learner) {
    assert!(rt; learner.is_decided_above(3) && !learner.is_decided_above(4));
    assert!(rt; learner.is_decided(4) && !learner.is_decided(3));
    assert!(rt; !learner.learnt_remove(A));
}

fn forget_one(rt: &impl Abort, learner: &mut Learner) {
    learner.forget(2);
    assert!(rt; learner.value(1).is_none() && learner.is_decided(1));
}

#[test]
fn a_learner_hands_out_in_order(rt: HostRuntime) -> Result<(), Fail> {
    let mut learner = Learner::new(rt.alloc(), 1);
    learn_all(&rt, &mut learner)?;
    pass_one(&rt, &mut learner);
    check_decided(&rt, rt.alloc(), &learner)?;
    check_slots(&rt, &learner);
    forget_one(&rt, &mut learner);
    Ok(())
}
