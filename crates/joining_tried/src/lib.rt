//! What members send each other, how one joins, and the servers and the wire of a world, on worked cases.
#![tactic(auto)]

#[cfg(test)]
mod of_member_joining;
#[cfg(test)]
mod of_member_messages;
#[cfg(test)]
mod of_world_servers;
#[cfg(test)]
mod of_world_wire;
