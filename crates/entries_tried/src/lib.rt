//! The parts that follow the ordered list on worked entries: the view, verdicts, the stable set, and what a donor gives.
#![tactic(auto)]

#[cfg(test)]
mod of_certifier;
#[cfg(test)]
mod of_donor_recovery;
#[cfg(test)]
mod of_list_state;
#[cfg(test)]
mod of_stable_set;
#[cfg(test)]
mod of_view_changes;
