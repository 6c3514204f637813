//! Rows, locks and sessions on worked calls.
#![tactic(auto)]

#[cfg(test)]
mod of_member_tables;
#[cfg(test)]
mod of_row_locks;
#[cfg(test)]
mod of_row_store;
