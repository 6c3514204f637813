//! The byte forms on worked bytes: what is read, what is written, and where each fault is named.
#![tactic(auto)]

#[cfg(test)]
mod of_byte_forms;
#[cfg(test)]
mod of_gtid_sets;
#[cfg(test)]
mod of_key_items;
#[cfg(test)]
mod of_message_checks;
#[cfg(test)]
mod of_message_sizes;
#[cfg(test)]
mod of_paxos_forms;
#[cfg(test)]
mod of_slot_values;
#[cfg(test)]
mod of_txn_forms;
