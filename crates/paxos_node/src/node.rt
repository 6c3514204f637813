// A node, and what it answers.
ghost use Rattle.std.specs.Prelude.{◌≡◌, ◌<◌, is_some, true, length, option_map, IfOk, Some, None, [], if◌then◌else◌};
ghost use Rattle.gr_ids.specs.declared.memory.Memory.{Memory};
ghost use Rattle.node_rules.specs.Node.{founder, joiner, kept_from, node_config, promised};
ghost use Rattle.node_rules.specs.Leader.{new_leader};
ghost use Rattle.node_rules.specs.Learner.{learnt_remove};
ghost use Rattle.gr_ids.specs.Names.{inc_eq};

use crate::told::{ToldSlot, told_by_others};
use crate::turns::config_in;
use gr_ids::{Ballot, Inc, Memory};
use paxos_leader::Leader;
use paxos_votes::{Acceptor, Learner};
use slot_values::{Turns, Value};
use std::alloc::Global;
use std::marker::Model;

/// A node of Multi-Paxos (Lamport, "Paxos Made Simple"), whose membership changes by values of the log itself, behind a
/// horizon (Lamport, Malkhi, Zhou, "Reconfiguring a State Machine").
#[derive(Drop)]
pub struct Node {
    pub(crate) me: Inc,
    pub(crate) horizon: u16,
    pub(crate) acceptor: Acceptor,
    pub(crate) learner: Learner,
    pub(crate) turns: Option<Turns>,
    pub(crate) leader: Option<Leader>,
    pub(crate) told: Vec<ToldSlot>,
    pub(crate) own: Vec<Value>,
}

impl Model for Node {
    ghost use Rattle.std.specs.Prelude.{map};
    ghost use Rattle.node_rules.specs.Node.{Node as NodeAt};
    ghost use Rattle.paxos_node.specs.Parts.{FitsLog, log_of};
    ghost use Rattle.paxos_node.specs.Told.{told_of};

    ghost Value = { NodeAt };

    ghost view = { λ n. record {
      me = n.me;
      horizon = n.horizon;
      acceptor = n.acceptor;
      learner = n.learner;
      turns = log_of n.turns;
      leader = n.leader;
      told = map told_of n.told.items;
      own = n.own.items;
    } };

    ghost invariant = { λ n. FitsLog n.learner n.leader n.turns };
}

impl Node {
    /// A founder's node. The founders are 1 to 9 incarnations of distinct servers, ascending, and `me` is one of them. The
    /// horizon is 10 to 200. The least founder leads at the first ballot. Linear in the founders times the horizon.
    pub fn founder(alloc: Global, me: Inc, founders: &[Inc], horizon: u16) -> Result<Node, Memory>
        requires founders { 0 < length founders.now }
        requires horizon { 0 < horizon }
        ensures { IfOk result (λ node. node ≡ founder (record { founders = founders.now; horizon = horizon }) me) }
    {
        let first = founders[0];
        let ballot = Ballot {
            round: 1,
            inc: first,
        };
        let mut acceptor = Acceptor::new(alloc, Some(ballot));
        acceptor.forget(1);
        Ok(Node {
            me,
            horizon,
            acceptor,
            learner: Learner::new(alloc, 1),
            turns: Some(Turns::new(alloc, founders, horizon)?),
            leader: first_leader(alloc, me, first),
            told: told_by_others(alloc, 1, me, founders)?,
            own: Vec::new(alloc),
        })
    }

    /// A joiner's node, before its Welcome. The horizon is 10 to 200.
    pub fn joiner(alloc: Global, me: Inc, horizon: u16) -> Node
        ensures { result ≡ joiner (record { founders = []; horizon = horizon }) me }
    {
        Node {
            me,
            horizon,
            acceptor: Acceptor::new(alloc, None),
            learner: Learner::new(alloc, 0),
            turns: None,
            leader: None,
            told: Vec::new(alloc),
            own: Vec::new(alloc),
        }
    }

    /// The incarnation whose node it is.
    pub fn me(&self) -> Inc
        ensures { result ≡ self.now.me }
    {
        self.me
    }

    /// The horizon of its group: how many slots after a membership change it rules.
    pub fn horizon(&self) -> u16
        ensures { result ≡ self.now.horizon }
    {
        self.horizon
    }

    /// The own values that aren't kept yet, in the order made.
    pub fn own(&self) -> &[Value]
        ensures { result.now ≡ self.now.own }
    {
        &self.own
    }

    /// The ballot that the node has promised; its round is 0 at a joiner that has promised nothing. Takes constant time.
    pub fn promise(&self) -> Ballot
        ensures { result ≡ self.now.acceptor.promise }
    {
        self.acceptor.promised()
    }

    /// What the node has promised. None exactly at a joiner that has promised nothing. Takes constant time.
    pub fn promised(&self) -> Option<Ballot>
        ensures { result ≡ promised self.now }
    {
        let promise = self.acceptor.promised();
        if promise.round == 0 {
            None
        } else {
            Some(promise)
        }
    }

    /// The least undecided slot; 0 at a joiner that has had no Welcome. Takes constant time.
    pub fn next(&self) -> u64
        ensures { result ≡ self.now.learner.next }
    {
        self.learner.least_undecided()
    }

    /// The first slot that isn't forgotten. Takes constant time; takes no memory.
    pub fn kept_from(&self) -> u64
        ensures { result ≡ kept_from self.now }
    {
        self.acceptor.kept_from()
    }

    /// Whether a slot that wasn't handed out is decided here with a Remove of the incarnation. Linear in these slots.
    pub fn learnt_remove(&self, inc: Inc) -> bool
        ensures { result ≡ learnt_remove self.now.learner inc }
    {
        self.learner.learnt_remove(inc)
    }

    /// Whether it knows the log: a joiner's doesn't before its Welcome. Takes constant time.
    pub fn has_log(&self) -> bool
        ensures { result ≡ is_some self.now.turns }
    {
        self.turns.is_some()
    }

    /// The state of the log that was handed out, from which a Welcome is made. The node is a founder's, or has had a Welcome.
    /// Takes constant time.
    pub fn turns(&self) -> &Turns
        requires { is_some self.now.turns ≡ true }
        ensures { Some result.now.turns ≡ self.now.turns }
    {
        match &self.turns {
            Some(turns) => turns,
            None => unreachable!(),
        }
    }

    /// The members that rule a slot. None exactly where the node is a joiner's that has had no Welcome, or the slot is above
    /// the last one handed out plus the horizon, or below the first one that the node knows and hasn't forgotten. A founder
    /// knows the slots from 1 on, a joiner those from the slot after its Add on. Takes constant time.
    pub fn config(&self, slot: u64) -> Option<&[Inc]>
        ensures { option_map (λ c. c.now) result ≡ node_config self.now slot }
    {
        config_in(&self.turns, slot)
    }
}

// The least founder leads at the first ballot.
fn first_leader(alloc: Global, me: Inc, first: Inc) -> Option<Leader>
    ensures { result ≡ (if inc_eq me first then Some (new_leader (record { round = 1; inc = first }) []) else None) }
{
    if me == first {
        Some(Leader::first(alloc, first))
    } else {
        None
    }
}
