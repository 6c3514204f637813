// What one node has promised, and how it voted.
ghost use Rattle.std.specs.Prelude.{◌≡◌, ◌||◌, not, false, nat_lt, IfOk, OnErr, OnOk, Some, None, [], if◌then◌else◌, length, map};
ghost use Rattle.std.specs.Ordering.{nat_cmp};
ghost use Rattle.std.specs.BTreeMap.{insert_entry};
ghost use Rattle.gr_ids.specs.declared.memory.Memory.{Memory};
ghost use Rattle.gr_ids.specs.Names.{ballot_lt};
ghost use Rattle.node_rules.specs.Acceptor.{forget_votes, promising, refuses, votes_from, voting};
ghost use Rattle.paxos_votes.specs.Entries.{entries_from};
ghost use Rattle.paxos_votes.specs.Votes.{promise_of, vote_of};

use crate::slot_maps::forget_below;
use gr_ids::{Ballot, Inc, Memory, Sequence};
use slot_values::{Value, Vote};
use std::alloc::Global;
use std::collections::BTreeMap;
use std::marker::Model;

/// How a slot was voted: at a ballot, for a value.
#[derive(Debug, Drop)]
pub struct Voted {
    pub ballot: Ballot,
    pub value: Value,
}

/// The acceptor of a node of Multi-Paxos. One promise stands for all slots; of each slot the last vote is kept, unless
/// the slot is forgotten (Lamport, "Paxos Made Simple", sections 2.2 and 3).
#[derive(Drop)]
pub struct Acceptor {
    promise: Ballot,
    votes: BTreeMap<u64, Voted>,
    low: u64,
}

impl Model for Acceptor {
    ghost use Rattle.std.specs.Prelude.{map};
    ghost use Rattle.node_rules.specs.Acceptor.{Acceptor as Votes};
    ghost use Rattle.paxos_votes.specs.Entries.{entries_from};
    ghost use Rattle.paxos_votes.specs.Votes.{vote_of};

    ghost Value = { Votes };

    ghost view = { λ a. record { promise = a.promise; votes = map vote_of a.votes.entries; low = a.low } };
}

// Below every ballot, whose rounds begin at 1.
const NO_BALLOT: Ballot = Ballot {
    round: 0,
    inc: Inc {
        server: 0,
        start: 0,
    },
};

impl Acceptor {
    /// An acceptor that has voted in no slot, and keeps all slots. With None it has promised nothing.
    pub fn new(alloc: Global, promise: Option<Ballot>) -> Acceptor
        ensures { result ≡ record { promise = promise_of promise; votes = []; low = 0 } }
    {
        Acceptor {
            promise: promise.unwrap_or(NO_BALLOT),
            votes: BTreeMap::new(alloc),
            low: 0,
        }
    }

    /// Prepare of the ballot from a slot on: the ballot is promised, and the votes in these slots are reported, ascending.
    /// None, and nothing is done, exactly where the ballot is below the promise or the slot is forgotten; that takes no
    /// memory. Linear in the votes reported and the bytes of their values.
    pub fn prepare(
        &mut self,
        alloc: Global,
        ballot: Ballot,
        from: u64,
    ) -> Result<Option<Sequence<Vote>>, Memory>
        ensures answer { IfOk result (λ report. report ≡ (if refuses self.old ballot from then None else Some (votes_from self.old from))) }
        ensures promise { OnOk result (self.new ≡ (if refuses self.old ballot from then self.old else promising self.old ballot)) }
        ensures err { OnErr result (self.new ≡ self.old) }
        ensures refused { OnErr result (refuses self.old ballot from ≡ false) }
    {
        if is_refused(self.promise, self.low, ballot, from) {
            return Ok(None);
        }
        let votes = reported(alloc, &self.votes, from)?;
        self.promise = ballot;
        Ok(Some(Sequence::from_vec(votes)))
    }

    /// Accept of the value in the slot at the ballot: a promise and a vote. False, and nothing is done, exactly where the
    /// ballot is below the promise or the slot is forgotten. Logarithmic in the votes kept, and linear in the bytes.
    pub fn accept(
        &mut self,
        alloc: Global,
        ballot: Ballot,
        slot: u64,
        value: &Value,
    ) -> Result<bool, Memory>
        ensures answer { IfOk result (λ voted. voted ≡ not (refuses self.old ballot slot)) }
        ensures vote { OnOk result (self.new ≡ (if refuses self.old ballot slot then self.old else voting (promising self.old ballot) (record { slot = slot; ballot = ballot; value = value.now }))) }
        ensures err { OnErr result (self.new ≡ self.old) }
    {
        if is_refused(self.promise, self.low, ballot, slot) {
            return Ok(false);
        }
        let value = value.try_copy(alloc)?;
        self.votes.insert(slot, Voted { ballot, value })?;
        self.promise = ballot;
        Ok(true)
    }

    /// A vote of the node's own, for what it proposes. Logarithmic in the votes kept.
    pub fn vote(&mut self, vote: Vote) -> Result<(), Memory>
        ensures ok { OnOk result (self.new ≡ voting self.old vote) }
        ensures err { OnErr result (self.new ≡ self.old) }
    {
        let Vote {
            slot,
            ballot,
            value,
        } = vote;
        self.votes.insert(slot, Voted { ballot, value })?;
        Ok(())
    }

    /// The ballot becomes the promise. Takes constant time.
    pub fn promise(&mut self, ballot: Ballot)
        ensures { self.new ≡ promising self.old ballot }
    {
        self.promise = ballot;
    }

    /// The promise; its round is 0 where nothing was promised. Takes constant time.
    pub fn promised(&self) -> Ballot
        ensures { result ≡ self.now.promise }
    {
        self.promise
    }

    /// The votes in slots from this one on, ascending. Linear in them and in the bytes of their values.
    pub fn votes_from(&self, alloc: Global, from: u64) -> Result<Sequence<Vote>, Memory>
        ensures { IfOk result (λ votes. votes ≡ votes_from self.now from) }
    {
        Ok(Sequence::from_vec(reported(alloc, &self.votes, from)?))
    }

    /// How many votes are kept. Takes constant time.
    pub fn kept_votes(&self) -> usize
        ensures { result ≡ length self.now.votes }
    {
        self.votes.len()
    }

    /// The first slot that isn't forgotten. Takes constant time.
    pub fn kept_from(&self) -> u64
        ensures { result ≡ self.now.low }
    {
        self.low
    }

    /// Forgets the votes of slots below `below`, which never falls. Logarithmic in the votes kept for each one that is
    /// forgotten; takes no memory.
    pub fn forget(&mut self, below: u64)
        ensures { self.new ≡ (if nat_lt self.old.low below then forget_votes below self.old else self.old) }
    {
        if self.low < below {
            forget_below(&mut self.votes, below);
            self.low = below;
        }
    }
}

fn is_refused(promise: Ballot, low: u64, ballot: Ballot, slot: u64) -> bool
    ensures { result ≡ (nat_lt slot low || ballot_lt ballot promise) }
{
    slot < low || ballot < promise
}

// The votes in slots from this one on, ascending.
fn reported(alloc: Global, votes: &BTreeMap<u64, Voted>, from: u64) -> Result<Vec<Vote>, Memory>
    ensures { IfOk result (λ report. report.items ≡ map vote_of (entries_from from votes.now.entries)) }
{
    let mut report = Vec::new(alloc);
    for (slot, voted) in votes.range(from..) {
        report.push(Vote {
            slot: *slot,
            ballot: voted.ballot,
            value: voted.value.try_copy(alloc)?,
        })?;
    }
    Ok(report)
}
