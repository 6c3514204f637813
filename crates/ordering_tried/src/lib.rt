//! The ordering on worked messages: votes, what is learnt, leaders, and nodes that agree.
#![tactic(auto)]

#[cfg(test)]
mod of_paxos_leader;
#[cfg(test)]
mod of_paxos_node;
#[cfg(test)]
mod of_paxos_votes;
