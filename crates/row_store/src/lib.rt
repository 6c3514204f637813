//! Rows with their versions: what a member's committed transactions left, now and in any set of them.
#![tactic(auto)]

mod chains;
mod copying;
mod fault;
mod laws;
mod presence;
mod rows;
mod store;
mod version;

pub use fault::RowFault;
pub use laws::{
    rows_are_the_fold, rows_are_those_of_the_rules, rows_stay_with_their_server,
    sets_are_read_by_the_rules, what_is_executed_is_committed,
};
pub use store::Store;
pub use version::Version;
